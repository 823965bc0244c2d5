//! The extension headers of IPv6 (RFC 8200, section 4).
ghost use Rattle.std.specs.Prelude.{◌≡◌, ◌^◌, ◌<◌, ◌≤◌, IfOk, length};
ghost use Rattle.ip_decode.specs.Extensions.{extension_size, is_extension, is_fragment_header, stated_size, upper_of};

use header_fields::half_at;
use suri_base::Counter;

// The next headers that are extension headers.
const HOP_BY_HOP: u8 = 0;

const ROUTING: u8 = 43;

const FRAGMENT: u8 = 44;

const AUTHENTICATION: u8 = 51;

const DESTINATION: u8 = 60;

// The most extension headers of a packet, this project's own limit.
const MAX_EXTENSIONS: u8 = 16;

// The least length of an extension header, and the places of its fields.
const LEAST_LEN: usize = 8;

const NEXT_AT: usize = 0;

const LENGTH_AT: usize = 1;

const OFFSET_AT: usize = 2;

// The lowest bit of a fragment header's offset field. The three lowest bits are no part of the offset.
const MORE_FRAGMENTS: u16 = 1;

/// What stands behind the extension headers.
#[derive(Clone, Copy, Debug)]
pub struct Upper {
    /// The protocol of the payload.
    pub proto: u8,
    /// The length of the payload, in bytes.
    pub len: u32,
}

// Whether a next header is an extension header.
fn is_next_extension(next: u8) -> bool
    ensures { result ≡ is_extension next }
{
    matches!(
        next,
        HOP_BY_HOP | ROUTING | FRAGMENT | AUTHENTICATION | DESTINATION
    )
}

// The length that an extension header of this kind states.
fn stated_len(kind: u8, bytes: &[u8]) -> usize
    requires { LEAST_LEN ≤ length bytes.now }
    ensures value { result ≡ stated_size kind bytes.now }
    ensures long { 8 ≤ result }
{
    let units = usize::from(bytes[LENGTH_AT]);
    match kind {
        FRAGMENT => 8,
        AUTHENTICATION => (units + 2) * 4,
        _ => (units + 1) * 8,
    }
}

// Whether a fragment header is that of a real fragment. One that is not stands before a whole packet
// (RFC 6946).
fn is_fragment(bytes: &[u8]) -> bool
    requires { LEAST_LEN ≤ length bytes.now }
    ensures { result ≡ is_fragment_header bytes.now }
{
    let field = half_at(bytes, OFFSET_AT);
    field / 8 != 0 || field & MORE_FRAGMENTS != 0
}

// The length of the extension header of this kind that stands first in the bytes.
#[tactic(auto, unfolding(crate::specs::Extensions::extension_size))]
fn read_extension(kind: u8, bytes: &[u8]) -> Result<usize, Counter>
    ensures size { result ≡ extension_size kind bytes.now }
    ensures inside { IfOk result (λ size. (8 ≤ size) × (size ≤ length bytes.now)) }
{
    if bytes.len() < LEAST_LEN {
        return Err(Counter::IpExtensions);
    }
    let size = stated_len(kind, bytes);
    if bytes.len() < size {
        return Err(Counter::IpExtensions);
    }
    if kind == FRAGMENT && is_fragment(bytes) {
        return Err(Counter::Fragment);
    }
    Ok(size)
}

/// Walks past the extension headers to the payload.
pub fn read_upper(first: u8, bytes: &[u8]) -> Result<Upper, Counter>
    requires { length bytes.now < 2 ^ 32 }
    ensures upper { result ≡ upper_of 16 first bytes.now }
    ensures inside { IfOk result (λ upper. upper.len ≤ length bytes.now) }
{
    let mut room = MAX_EXTENSIONS;
    let mut next = first;
    let mut rest = bytes;
    while is_next_extension(next) {
        if room == 0 {
            return Err(Counter::IpExtensions);
        }
        room -= 1;
        let size = read_extension(next, rest)?;
        next = rest[NEXT_AT];
        rest = &rest[size..];
    }
    Ok(Upper {
        proto: next,
        len: rest.len() as u32,
    })
}
