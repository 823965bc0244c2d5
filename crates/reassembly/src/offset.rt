//! The offsets of a segment's bytes in its stream (RFC 9293, section 3.4).
ghost use Rattle.std.specs.Prelude.{◌≡◌, ◌+◌, ◌^◌, ◌<◌, if◌then◌else◌, ◌||◌, nat_lt, length, None, Some};
ghost use Rattle.reassembly.specs.Members.{bytes_of, first_of, has_syn, sequence_of};

use suri_base::{TcpFacts, tcp_flag};

// From so many numbers after the base on, modulo 2^32, a segment stands before the base.
const HALF: u32 = 1 << 31;

// Whether a segment has SYN.
fn has_syn(tcp: &TcpFacts) -> bool
    ensures { result ≡ has_syn tcp.now }
{
    tcp.flags & tcp_flag::SYN == tcp_flag::SYN
}

/// The sequence number of a segment's first payload byte. A SYN takes the number before it.
pub(crate) fn sequence(tcp: &TcpFacts) -> u32
    ensures { result ≡ sequence_of tcp.now }
{
    tcp.seq.wrapping_add(if has_syn(tcp) { 1 } else { 0 })
}

/// The base that a segment sets where no earlier one did: it has to have SYN or payload.
pub(crate) fn opening(tcp: &TcpFacts, payload: &[u8]) -> Option<u32>
    ensures { result ≡ (if has_syn tcp.now || nat_lt 0 (length payload.now) then Some (sequence_of tcp.now) else None) }
{
    if has_syn(tcp) || !payload.is_empty() {
        Some(sequence(tcp))
    } else {
        None
    }
}

/// The first offset of a segment that is at least 0, and its payload bytes from there on that are below the depth.
pub(crate) fn placed<'a>(depth: u32, base: u32, sequence: u32, payload: &'a [u8]) -> (u32, &'a [u8])
    ensures first { result.0 ≡ first_of base sequence }
    ensures bytes { result.1.now ≡ bytes_of depth base sequence payload.now }
    ensures fits { result.0 + length result.1.now < 2 ^ 32 }
{
    let ahead = sequence.wrapping_sub(base);
    let (first, early) = if ahead < HALF {
        (ahead, 0)
    } else {
        (0, (0u32.wrapping_sub(ahead) as usize).min(payload.len()))
    };
    let rest = &payload[early..];
    let below = depth.saturating_sub(first) as usize;
    (first, &rest[..below.min(rest.len())])
}
