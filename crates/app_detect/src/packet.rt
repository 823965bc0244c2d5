//! The verdict of a packet.
ghost use Rattle.std.specs.Prelude.{◌≡◌};
ghost use Rattle.suri_base.specs.App.{tcp_verdict_of, udp_verdict_of, verdict_of};

use crate::formats::{shows_dns, shows_http, shows_ssh, shows_tls};
use suri_base::protocol::{TCP, UDP};
use suri_base::{App, Facts};

// The verdict of a TCP payload.
fn tcp_verdict(payload: &[u8]) -> App
    ensures { result ≡ tcp_verdict_of payload.now }
{
    if shows_http(payload) {
        App::Http
    } else if shows_tls(payload) {
        App::Tls
    } else if shows_ssh(payload) {
        App::Ssh
    } else {
        App::None
    }
}

// The verdict of a UDP packet.
fn udp_verdict(facts: &Facts, payload: &[u8]) -> App
    ensures { result ≡ udp_verdict_of facts.now payload.now }
{
    if shows_dns(facts, payload) {
        App::Dns
    } else {
        App::None
    }
}

/// The verdict of a packet, by its facts and its captured payload (this project's own rules).
#[tactic(auto, unfolding(suri_base::specs::App::verdict_of))]
pub fn verdict(facts: &Facts, payload: &[u8]) -> App
    ensures { result ≡ verdict_of facts.now payload.now }
{
    match facts.key.proto {
        TCP => tcp_verdict(payload),
        UDP => udp_verdict(facts, payload),
        _ => App::None,
    }
}
