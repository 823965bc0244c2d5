//! Whole frames, from the link header to the transport header.
ghost use Rattle.std.specs.Prelude.{◌≡◌, ◌+◌, ◌^◌, ◌<◌, ◌≤◌, ◌⊎◌, ◌↔◌, ◌||◌, IfOk, IsSome, IsTrue, length};
ghost use Rattle.packet_decode.specs.Layers.{view_of};
ghost use Rattle.packet_decode.specs.Spelled.{ReadsWhole};
ghost use Rattle.packet_decode.specs.Tags.{AreTags};
ghost use Rattle.suri_base.specs.Protocols.{has_ports, is_icmp};

use crate::laws::to_ip;
use ip_decode::IpView;
use l4_decode::{L4View, l4};
use suri_base::{Counter, Vlans};

/// What the headers of a frame say. All places are counted from the frame's start.
#[derive(Clone, Copy, Debug, PartialEq, Eq)]
pub struct View {
    /// The ids of the VLAN tags, the outermost first.
    pub vlans: Vlans,
    pub ip: IpView,
    pub l4: L4View,
}

/// Reads a frame of this link type: Ethernet (1), raw IP (101) or Linux cooked capture (113).
///
/// # Errors
///
/// The first counter that applies, in layer order: those of `to_ip`, then those of the transport header.
pub fn decode(link: u32, bytes: &[u8]) -> Result<View, Counter>
    requires link { (link ≡ 1) ⊎ (link ≡ 101) ⊎ (link ≡ 113) }
    requires small { length bytes.now < 2 ^ 32 }
    // It is what the headers say, or the first counter that applies.
    ensures view { result ≡ view_of link bytes.now }
    // A frame whose headers are all spelled from fields, with tags, options, extension headers, payload and padding, is read as just those fields.
    ensures spelled { ReadsWhole link bytes.now result }
    // There are at most three ids of twelve bits, with 0 in the places that are not used.
    ensures tags { IfOk result (λ view. AreTags view.vlans) }
    // The version is 4 or 6, and the addresses of version 4 have 32 bits.
    ensures version { IfOk result (λ view. (view.ip.version ≡ 4) ⊎ (view.ip.version ≡ 6)) }
    ensures addresses { IfOk result (λ view. view.ip.version ≡ 4 → (view.ip.src < 2 ^ 32) × (view.ip.dst < 2 ^ 32)) }
    // The protocol is one that is read, and the facts of TCP and ICMP are there exactly for these.
    ensures protocol { IfOk result (λ view. IsTrue (has_ports view.ip.proto || is_icmp view.ip.version view.ip.proto)) }
    ensures tcp { IfOk result (λ view. IsSome view.l4.tcp ↔ (view.ip.proto ≡ 6)) }
    ensures icmp { IfOk result (λ view. IsSome view.l4.icmp ↔ IsTrue (is_icmp view.ip.version view.ip.proto)) }
    // The payload lies in the bytes.
    ensures inside { IfOk result (λ view. view.l4.pay_at + view.l4.pay_len ≤ length bytes.now) }
{
    let inner = to_ip(link, bytes)?;
    let ip = inner.ip;
    let packet = &bytes[ip.pay_at as usize..];
    let payload = &packet[..ip.pay_len as usize];
    let view = l4(ip.version, ip.proto, payload, ip.stated)?;
    Ok(View {
        vlans: inner.vlans,
        ip,
        l4: L4View {
            pay_at: ip.pay_at + view.pay_at,
            ..view
        },
    })
}
