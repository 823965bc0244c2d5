//! The IPv4 header (RFC 791, section 3.1).
ghost use Rattle.std.specs.Prelude.{◌≡◌, ◌+◌, ◌^◌, ◌<◌, ◌≤◌, IfOk, length};
ghost use Rattle.ip_decode.specs.Ip.{header_of, ipv4_of, is_fragment_of, total_of};

use crate::view::IpView;
use header_fields::{half_at, word_at};
use suri_base::Counter;

// The length of a header without options, in bytes.
const HEADER_LEN: u32 = 20;

// The places of its fields. Version and header length share the first byte.
const TOTAL_AT: usize = 2;

const FRAGMENT_AT: usize = 6;

const TTL_AT: usize = 8;

const PROTOCOL_AT: usize = 9;

const SOURCE_AT: usize = 12;

const DESTINATION_AT: usize = 16;

// The parts of the fragment field.
const MORE_FRAGMENTS: u16 = 0x2000;

const FRAGMENT_OFFSET: u16 = 0x1fff;

// Whether the packet is a fragment of a datagram: more fragments follow, or some come before.
fn is_fragment(bytes: &[u8]) -> bool
    requires { HEADER_LEN ≤ length bytes.now }
    ensures { result ≡ is_fragment_of bytes.now }
{
    let field = half_at(bytes, FRAGMENT_AT);
    field & MORE_FRAGMENTS != 0 || field & FRAGMENT_OFFSET != 0
}

// The length of the header with its options, in bytes.
fn header_len(bytes: &[u8]) -> u32
    requires { HEADER_LEN ≤ length bytes.now }
    ensures value { result ≡ header_of bytes.now }
    ensures small { result ≤ 60 }
{
    u32::from(bytes[0] % 16) * 4
}

// The total length, in bytes.
fn total_len(bytes: &[u8]) -> u32
    requires long { HEADER_LEN ≤ length bytes.now }
    requires small { length bytes.now < 2 ^ 32 }
    ensures { result ≡ total_of bytes.now }
{
    match half_at(bytes, TOTAL_AT) {
        // The sender left the length to its network card.
        0 => bytes.len() as u32,
        total => u32::from(total),
    }
}

/// Reads an IPv4 header.
#[tactic(auto, unfolding(crate::specs::Ip::ipv4_of))]
pub fn read_ipv4(bytes: &[u8]) -> Result<IpView, Counter>
    requires { length bytes.now < 2 ^ 32 }
    ensures view { result ≡ ipv4_of bytes.now }
    ensures version { IfOk result (λ v. v.version ≡ 4) }
    ensures inside { IfOk result (λ v. v.pay_at + v.pay_len ≤ length bytes.now) }
    ensures stated { IfOk result (λ v. v.pay_len ≤ v.stated) }
    ensures addresses { IfOk result (λ v. (v.src < 2 ^ 32) × (v.dst < 2 ^ 32)) }
{
    let captured = bytes.len() as u32;
    if captured < HEADER_LEN {
        return Err(Counter::IpSmall);
    }
    if bytes[0] / 16 != 4 {
        return Err(Counter::IpVersion);
    }
    let header = header_len(bytes);
    let total = total_len(bytes);
    if header < HEADER_LEN || total < header {
        return Err(Counter::IpHeader);
    }
    if captured < header {
        return Err(Counter::IpSmall);
    }
    if is_fragment(bytes) {
        return Err(Counter::Fragment);
    }
    Ok(IpView {
        version: 4,
        src: u128::from(word_at(bytes, SOURCE_AT)),
        dst: u128::from(word_at(bytes, DESTINATION_AT)),
        ttl: bytes[TTL_AT],
        proto: bytes[PROTOCOL_AT],
        pay_at: header,
        pay_len: total.min(captured) - header,
        stated: total - header,
    })
}
