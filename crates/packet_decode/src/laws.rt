//! The way down to the IP payload, which other crates' laws speak of.
ghost use Rattle.std.specs.Prelude.{◌≡◌, ◌+◌, ◌^◌, ◌<◌, ◌≤◌, ◌⊎◌, IfOk, length};
ghost use Rattle.packet_decode.specs.Frame.{to_ip_of};
ghost use Rattle.packet_decode.specs.Spelled.{ReadsFrame};
ghost use Rattle.packet_decode.specs.Tags.{AreTags};

use crate::link::read_link;
use ip_decode::{IpView, ip};
use suri_base::{Counter, Vlans};

/// What stands before the transport header of a frame.
#[derive(Clone, Copy, Debug, PartialEq, Eq)]
pub struct Inner {
    /// The ids of the VLAN tags, the outermost first.
    pub vlans: Vlans,
    /// The IP header. Its places are counted from the frame's start.
    pub ip: IpView,
}

/// Reads a frame of this link type down to its IP payload: Ethernet (1), raw IP (101) or Linux cooked
/// capture (113).
///
/// # Errors
///
/// The first counter that applies: `LinkSmall`; `VlanDeep` and `VlanSmall` at each tag, and
/// `Ethertype`; then those of the IP header. Without a link header (101) the version stands in the
/// packet itself: `IpSmall` where there is no byte, and `IpVersion`.
pub fn to_ip(link: u32, bytes: &[u8]) -> Result<Inner, Counter>
    requires link { (link ≡ 1) ⊎ (link ≡ 101) ⊎ (link ≡ 113) }
    requires small { length bytes.now < 2 ^ 32 }
    // It is what the frame's headers say, or the first counter that applies.
    ensures inner { result ≡ to_ip_of link bytes.now }
    // A frame that is spelled from its link header, its tags and an IP packet is read as those tags and what the packet is read as.
    ensures spelled { ReadsFrame link bytes.now result }
    // There are at most three ids of twelve bits, with 0 in the places that are not used.
    ensures tags { IfOk result (λ inner. AreTags inner.vlans) }
    // The version is 4 or 6, and the addresses of version 4 have 32 bits.
    ensures version { IfOk result (λ inner. (inner.ip.version ≡ 4) ⊎ (inner.ip.version ≡ 6)) }
    ensures addresses { IfOk result (λ inner. inner.ip.version ≡ 4 → (inner.ip.src < 2 ^ 32) × (inner.ip.dst < 2 ^ 32)) }
    // The payload lies in the bytes, and is no longer than stated.
    ensures inside { IfOk result (λ inner. inner.ip.pay_at + inner.ip.pay_len ≤ length bytes.now) }
    ensures stated { IfOk result (λ inner. inner.ip.pay_len ≤ inner.ip.stated) }
{
    let network = read_link(link, bytes)?;
    let at = bytes.len() - network.len;
    let view = ip(&bytes[at..], network.version)?;
    Ok(Inner {
        vlans: network.vlans,
        ip: IpView {
            pay_at: at as u32 + view.pay_at,
            ..view
        },
    })
}
