//! The IPv6 header (RFC 8200, section 3).
ghost use Rattle.std.specs.Prelude.{◌≡◌, ◌+◌, ◌^◌, ◌<◌, ◌≤◌, IfOk, length};
ghost use Rattle.ip_decode.specs.Ip.{ipv6_of, whole_of};

use crate::extensions::read_upper;
use crate::view::IpView;
use header_fields::{address_at, half_at};
use suri_base::Counter;

// The length of the header, in bytes.
const HEADER_LEN: u32 = 40;

// The places of its fields. The version stands in the upper half of the first byte.
const PAYLOAD_LEN_AT: usize = 4;

const NEXT_AT: usize = 6;

const HOP_LIMIT_AT: usize = 7;

const SOURCE_AT: usize = 8;

const DESTINATION_AT: usize = 24;

// The length of the packet with its header, in bytes.
fn total_len(bytes: &[u8]) -> u32
    requires long { HEADER_LEN ≤ length bytes.now }
    requires small { length bytes.now < 2 ^ 32 }
    ensures value { result ≡ whole_of bytes.now }
    ensures long { HEADER_LEN ≤ result }
{
    match half_at(bytes, PAYLOAD_LEN_AT) {
        // A jumbogram, or the sender left the length to its network card.
        0 => bytes.len() as u32,
        payload => HEADER_LEN + u32::from(payload),
    }
}

/// Reads an IPv6 header and its extension headers.
#[tactic(auto, unfolding(crate::specs::Ip::ipv6_of))]
pub fn read_ipv6(bytes: &[u8]) -> Result<IpView, Counter>
    requires { length bytes.now < 2 ^ 32 }
    ensures view { result ≡ ipv6_of bytes.now }
    ensures version { IfOk result (λ v. v.version ≡ 6) }
    ensures inside { IfOk result (λ v. v.pay_at + v.pay_len ≤ length bytes.now) }
    ensures stated { IfOk result (λ v. v.pay_len ≤ v.stated) }
{
    let captured = bytes.len() as u32;
    if captured < HEADER_LEN {
        return Err(Counter::IpSmall);
    }
    if bytes[0] / 16 != 6 {
        return Err(Counter::IpVersion);
    }
    let total = total_len(bytes);
    let stop = total.min(captured);
    let upper = read_upper(bytes[NEXT_AT], &bytes[HEADER_LEN as usize..stop as usize])?;
    let pay_at = stop - upper.len;
    Ok(IpView {
        version: 6,
        src: address_at(bytes, SOURCE_AT),
        dst: address_at(bytes, DESTINATION_AT),
        ttl: bytes[HOP_LIMIT_AT],
        proto: upper.proto,
        pay_at,
        pay_len: upper.len,
        stated: total - pay_at,
    })
}
