//! The TCP header (RFC 9293, section 3.1).
ghost use Rattle.std.specs.Prelude.{◌≡◌, ◌+◌, ◌^◌, ◌<◌, ◌≤◌, IfOk, IsNone, IsSome, length};
ghost use Rattle.l4_decode.specs.Transport.{data_offset, tcp_of};

use crate::view::L4View;
use header_fields::{half_at, word_at};
use suri_base::{Counter, TcpFacts};

// The length of a header without options, in bytes.
const HEADER_LEN: u32 = 20;

// The places of its fields. The data offset is the upper half of its byte.
const SOURCE_PORT_AT: usize = 0;

const DESTINATION_PORT_AT: usize = 2;

const SEQUENCE_AT: usize = 4;

const ACKNOWLEDGEMENT_AT: usize = 8;

const DATA_OFFSET_AT: usize = 12;

const FLAGS_AT: usize = 13;

// The length of the header with its options, in bytes. It is stated in words of four bytes.
fn header_len(bytes: &[u8]) -> u32
    requires { HEADER_LEN ≤ length bytes.now }
    ensures value { result ≡ data_offset bytes.now }
    ensures small { result ≤ 60 }
{
    u32::from(bytes[DATA_OFFSET_AT] / 16) * 4
}

/// Reads a TCP header, whose IP packet states so many payload bytes.
#[tactic(auto, unfolding(crate::specs::Transport::tcp_of))]
pub fn read_tcp(bytes: &[u8], stated: u32) -> Result<L4View, Counter>
    requires { length bytes.now < 2 ^ 32 }
    ensures view { result ≡ tcp_of stated bytes.now }
    ensures inside { IfOk result (λ v. v.pay_at + v.pay_len ≤ length bytes.now) }
    ensures facts { IfOk result (λ v. IsSome v.tcp × IsNone v.icmp) }
{
    let captured = bytes.len() as u32;
    if captured < HEADER_LEN {
        return Err(Counter::TcpSmall);
    }
    let header = header_len(bytes);
    if header < HEADER_LEN || header > stated {
        return Err(Counter::TcpHeader);
    }
    let pay_at = header.min(captured);
    Ok(L4View {
        sport: half_at(bytes, SOURCE_PORT_AT),
        dport: half_at(bytes, DESTINATION_PORT_AT),
        tcp: Some(TcpFacts {
            seq: word_at(bytes, SEQUENCE_AT),
            ack: word_at(bytes, ACKNOWLEDGEMENT_AT),
            flags: bytes[FLAGS_AT],
        }),
        icmp: None,
        pay_at,
        pay_len: captured - pay_at,
    })
}
