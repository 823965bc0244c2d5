//! The first bytes of an ICMP header, which all its messages share (RFC 792; RFC 4443, section 2.1).
ghost use Rattle.std.specs.Prelude.{◌≡◌, ◌^◌, ◌<◌, IfOk, IsNone, IsSome, length};
ghost use Rattle.l4_decode.specs.Transport.{icmp_of};

use crate::view::L4View;
use suri_base::{Counter, IcmpFacts};

// How many bytes all messages share.
const HEADER_LEN: u32 = 4;

// The places of its fields.
const TYPE_AT: usize = 0;

const CODE_AT: usize = 1;

/// Reads an ICMP header. What stands behind it is no payload.
#[tactic(auto, unfolding(crate::specs::Transport::icmp_of))]
pub fn read_icmp(bytes: &[u8]) -> Result<L4View, Counter>
    requires { length bytes.now < 2 ^ 32 }
    ensures view { result ≡ icmp_of bytes.now }
    ensures empty { IfOk result (λ v. (v.pay_at ≡ length bytes.now) × (v.pay_len ≡ 0)) }
    ensures facts { IfOk result (λ v. IsNone v.tcp × IsSome v.icmp) }
    ensures ports { IfOk result (λ v. (v.sport ≡ 0) × (v.dport ≡ 0)) }
{
    let captured = bytes.len() as u32;
    if captured < HEADER_LEN {
        return Err(Counter::IcmpSmall);
    }
    Ok(L4View {
        sport: 0,
        dport: 0,
        tcp: None,
        icmp: Some(IcmpFacts {
            kind: bytes[TYPE_AT],
            code: bytes[CODE_AT],
        }),
        pay_at: captured,
        pay_len: 0,
    })
}
