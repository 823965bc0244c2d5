//! The UDP header (RFC 768).
ghost use Rattle.std.specs.Prelude.{◌≡◌, ◌+◌, ◌^◌, ◌<◌, ◌≤◌, IfOk, IsNone, length};
ghost use Rattle.l4_decode.specs.Transport.{datagram_len, udp_of};

use crate::view::L4View;
use header_fields::half_at;
use suri_base::Counter;

// The length of the header, in bytes.
const HEADER_LEN: u32 = 8;

// The places of its fields.
const SOURCE_PORT_AT: usize = 0;

const DESTINATION_PORT_AT: usize = 2;

const LENGTH_AT: usize = 4;

// The length of the datagram with its header, in bytes.
fn total_len(bytes: &[u8]) -> u32
    requires long { HEADER_LEN ≤ length bytes.now }
    requires small { length bytes.now < 2 ^ 32 }
    ensures value { result ≡ datagram_len bytes.now }
    ensures long { HEADER_LEN ≤ result }
{
    let stated = u32::from(half_at(bytes, LENGTH_AT));
    if stated < HEADER_LEN {
        // No datagram has this length: a jumbogram (RFC 2675, section 4), or one left to a network card.
        bytes.len() as u32
    } else {
        stated
    }
}

/// Reads a UDP header.
#[tactic(auto, unfolding(crate::specs::Transport::udp_of))]
pub fn read_udp(bytes: &[u8]) -> Result<L4View, Counter>
    requires { length bytes.now < 2 ^ 32 }
    ensures view { result ≡ udp_of bytes.now }
    ensures inside { IfOk result (λ v. v.pay_at + v.pay_len ≤ length bytes.now) }
    ensures facts { IfOk result (λ v. IsNone v.tcp × IsNone v.icmp) }
{
    let captured = bytes.len() as u32;
    if captured < HEADER_LEN {
        return Err(Counter::UdpSmall);
    }
    Ok(L4View {
        sport: half_at(bytes, SOURCE_PORT_AT),
        dport: half_at(bytes, DESTINATION_PORT_AT),
        tcp: None,
        icmp: None,
        pay_at: HEADER_LEN,
        pay_len: total_len(bytes).min(captured) - HEADER_LEN,
    })
}
