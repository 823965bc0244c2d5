//! From the payload of an IP packet to what its transport header says.
ghost use Rattle.std.specs.Prelude.{◌≡◌, ◌+◌, ◌^◌, ◌<◌, ◌≤◌, ◌↔◌, ◌||◌, IfOk, IsSome, IsTrue, length};
ghost use Rattle.l4_decode.specs.Spelled.{ReadsIcmp, ReadsTcp, ReadsUdp};
ghost use Rattle.l4_decode.specs.Transport.{l4_of};
ghost use Rattle.suri_base.specs.Protocols.{has_ports, is_icmp};

use crate::icmp::read_icmp;
use crate::tcp::read_tcp;
use crate::udp::read_udp;
use crate::view::L4View;
use suri_base::Counter;
use suri_base::protocol::{ICMP, ICMPV6, IPV4, IPV6, TCP, UDP};

/// Reads the transport header of an IP packet of this version and protocol.
///
/// The bytes are the captured ones of the IP payload, and `stated` is how many bytes of payload the IP
/// header states. Places are counted from the first of the bytes. A TCP header with its options may end
/// behind the captured bytes, but not behind the stated ones. A UDP length below 8 is taken to mean all
/// bytes (this project's own reading). ICMP has no ports and no payload.
///
/// # Errors
///
/// The first counter that applies: `TcpSmall` and `TcpHeader`, `UdpSmall`, `IcmpSmall`, or `OtherProto`
/// for every other protocol. The ICMP of one IP version is another protocol under the other version.
#[tactic(auto, unfolding(crate::specs::Transport::l4_of))]
pub fn l4(version: u8, proto: u8, bytes: &[u8], stated: u32) -> Result<L4View, Counter>
    requires small { length bytes.now < 2 ^ 32 }
    // It is what the header says, or the first counter that applies.
    ensures view { result ≡ l4_of version proto stated bytes.now }
    // A header that is spelled from fields, with options before its payload and padding behind it, is read as just those fields.
    ensures segment { proto ≡ 6 → ReadsTcp stated bytes.now result }
    ensures datagram { proto ≡ 17 → ReadsUdp bytes.now result }
    ensures message { IsTrue (is_icmp version proto) → ReadsIcmp bytes.now result }
    // The payload lies in the bytes.
    ensures inside { IfOk result (λ v. v.pay_at + v.pay_len ≤ length bytes.now) }
    // The facts of TCP are there exactly for TCP, and those of ICMP exactly for the version's ICMP.
    ensures tcp { IfOk result (λ v. IsSome v.tcp ↔ (proto ≡ 6)) }
    ensures icmp { IfOk result (λ v. IsSome v.icmp ↔ IsTrue (is_icmp version proto)) }
    // ICMP has no ports, and every other protocol that is read has some.
    ensures ports { IfOk result (λ v. IsTrue (is_icmp version proto) → (v.sport ≡ 0) × (v.dport ≡ 0)) }
    ensures protocol { IfOk result (λ v. IsTrue (has_ports proto || is_icmp version proto)) }
{
    match (version, proto) {
        (_, TCP) => read_tcp(bytes, stated),
        (_, UDP) => read_udp(bytes),
        (IPV4, ICMP) | (IPV6, ICMPV6) => read_icmp(bytes),
        _ => Err(Counter::OtherProto),
    }
}
