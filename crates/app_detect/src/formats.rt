//! How the payloads of the formats begin.
ghost use Rattle.std.specs.Prelude.{◌≡◌};
ghost use Rattle.suri_base.specs.App.{is_dns, is_http, is_ssh, is_tls};

use suri_base::Facts;

// The content type of a TLS record, its versions, and the first messages of both ends (RFC 8446, sections 4 and 5.1).
const HANDSHAKE: u8 = 0x16;

const MAJOR: u8 = 0x03;

const LAST_MINOR: u8 = 0x04;

const CLIENT_HELLO: u8 = 0x01;

const SERVER_HELLO: u8 = 0x02;

// The port of DNS, and the length of its header in bytes (RFC 1035, sections 4.1.1 and 4.2.1).
const DNS_PORT: u16 = 53;

const DNS_HEADER_LEN: usize = 12;

/// Whether a request or a response of HTTP/1 begins here (RFC 9110, section 9.3; RFC 9112, section 4).
pub(crate) fn shows_http(payload: &[u8]) -> bool
    ensures { result ≡ is_http payload.now }
{
    payload.starts_with(b"GET ")
        || payload.starts_with(b"POST ")
        || payload.starts_with(b"PUT ")
        || payload.starts_with(b"HEAD ")
        || payload.starts_with(b"DELETE ")
        || payload.starts_with(b"OPTIONS ")
        || payload.starts_with(b"HTTP/1.")
}

/// Whether a TLS record with the hello of either end begins here (RFC 8446, section 5.1).
pub(crate) fn shows_tls(payload: &[u8]) -> bool
    ensures { result ≡ is_tls payload.now }
{
    payload.len() >= 6
        && payload[0] == HANDSHAKE
        && payload[1] == MAJOR
        && payload[2] <= LAST_MINOR
        && (payload[5] == CLIENT_HELLO || payload[5] == SERVER_HELLO)
}

/// Whether an identification string of SSH begins here (RFC 4253, section 4.2).
pub(crate) fn shows_ssh(payload: &[u8]) -> bool
    ensures { result ≡ is_ssh payload.now }
{
    payload.starts_with(b"SSH-")
}

/// Whether a UDP packet has the port of DNS and room for its header (RFC 1035, section 4.1.1).
pub(crate) fn shows_dns(facts: &Facts, payload: &[u8]) -> bool
    ensures { result ≡ is_dns facts.now payload.now }
{
    (facts.key.a.port == DNS_PORT || facts.key.b.port == DNS_PORT)
        && payload.len() >= DNS_HEADER_LEN
}
