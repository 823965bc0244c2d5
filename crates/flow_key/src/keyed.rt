//! From what the headers of a frame say to its key.
ghost use Rattle.std.specs.Prelude.{◌≡◌, ◌^◌, ◌<◌, ◌↔◌, IsTrue, false};
ghost use Rattle.flow_key.specs.Ends.{destination_end, is_one_way, source_end};
ghost use Rattle.flow_key.specs.Keyed.{keyed_of};
ghost use Rattle.flow_key.specs.SameFlow.{IsKeyable, SameFlow};
ghost use Rattle.packet_decode.specs.declared.whole.View.{View};
ghost use Rattle.suri_base.specs.Keys.{is_at_most};

use crate::ends::{Ends, ends_of, is_source_first};
use packet_decode::View;
use suri_base::{Key, Side};

/// The key of a packet, and which end of the key sent it.
#[derive(Clone, Copy, Debug, PartialEq, Eq)]
pub struct Keyed {
    pub key: Key,
    pub side: Side,
}

// The key of a view with these ends, the lesser one first unless they are ordered.
#[tactic(auto, unfolding(crate::specs::Keyed::keyed_of))]
fn with_ends(view: &View, ends: &Ends) -> Keyed
    requires source { ends.now.source ≡ source_end view.now }
    requires destination { ends.now.destination ≡ destination_end view.now }
    requires one_way { ends.now.one_way ≡ is_one_way view.now }
    ensures { result ≡ keyed_of view.now }
{
    let (a, b, side) = if is_source_first(ends) {
        (ends.source, ends.destination, Side::FromA)
    } else {
        (ends.destination, ends.source, Side::FromB)
    };
    Keyed {
        key: Key {
            vlans: view.vlans,
            version: view.ip.version,
            proto: view.ip.proto,
            one_way: ends.one_way,
            a,
            b,
        },
        side,
    }
}

/// The key of what the headers of a frame say.
///
/// The ends of TCP and UDP are address and port. Those of ICMP have as their ports the type, at the source,
/// and its counterpart, at the destination, as 8 and 0 for an echo and its reply; the code is no part of the
/// key. The lesser end is `a`, by address and then by port, and the side is `FromA` where the source is at
/// most the destination. ICMP of a type without a counterpart is one-way: `a` is the source with the type as
/// its port, `b` the destination with the code, and the side is `FromA`.
pub fn key_of(view: &View) -> Keyed
    requires { IsKeyable view.now }
    // It is the key of the view's tags, version, protocol and ends.
    ensures keyed { result ≡ keyed_of view.now }
    // Other views have the same key exactly where they are of the same flow.
    ensures same_flow { (other : View) → IsKeyable other → ((keyed_of other).key ≡ result.key) ↔ SameFlow other view.now }
    // The lesser end comes first, unless the key is one-way.
    ensures order { result.key.one_way ≡ false → IsTrue (is_at_most result.key.a result.key.b) }
    // The addresses of the ends have as many bits as those of the packet.
    ensures addresses { (view.now.ip.src < 2 ^ 32) × (view.now.ip.dst < 2 ^ 32) → (result.key.a.addr < 2 ^ 32) × (result.key.b.addr < 2 ^ 32) }
{
    with_ends(view, &ends_of(view))
}
