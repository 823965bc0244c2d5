//! From the bytes of a frame to what is kept of what becomes of it.
ghost use Rattle.flow_key.specs.SameFlow.{IsKeyable};
ghost use Rattle.packet_decode.specs.declared.whole.View.{View};
ghost use Rattle.pcap_read.specs.Header.{IsLink};
ghost use Rattle.std.specs.Prelude.{◌≡◌, ◌+◌, ◌^◌, ◌<◌, ◌≤◌, ◌⊎◌, length};
ghost use Rattle.suri_base.specs.Capture.{IsKey, IsSeenOf};
ghost use Rattle.suri_base.specs.declared.facts.Facts.{Facts};
ghost use Rattle.suri_base.specs.declared.seen.Seen.TheVariants.{Bears};
ghost use Rattle.capture_index.specs.Decode.{facts_from, seen_of};
ghost use Rattle.suri_base.specs.Keys.{IsNameable};
ghost use Rattle.suri_base.specs.Slot.{packed};

use flow_key::key_of;
use packet_decode::{View, decode};
use suri_base::{Facts, Frame, Seen, Slot};

// The facts of a frame whose headers say this, at this clock.
#[inline(always)]
fn facts_in(frame: &Frame, clock: u64, view: &View) -> Facts
    requires keyable { IsKeyable view.now }
    requires version { (view.now.ip.version ≡ 4) ⊎ (view.now.ip.version ≡ 6) }
    requires addresses { view.now.ip.version ≡ 4 → (view.now.ip.src < 2 ^ 32) × (view.now.ip.dst < 2 ^ 32) }
    requires small { frame.now.at + view.now.l4.pay_at < 2 ^ 32 }
    ensures value { result ≡ facts_from frame.now clock view.now }
    ensures key { IsKey result.key }
    ensures nameable { IsNameable result.key }
{
    let keyed = key_of(view);
    Facts {
        no: frame.no,
        time: frame.time,
        clock,
        key: keyed.key,
        side: keyed.side,
        len: frame.len,
        ttl: view.ip.ttl,
        tcp: view.l4.tcp,
        icmp: view.l4.icmp,
        pay_at: frame.at + view.l4.pay_at,
        pay_len: view.l4.pay_len,
        next: 0,
    }
}

/// What is kept of what becomes of a frame: the facts of its packet, or the decoder counter under which it falls.
///
/// `link` is the capture's link type, `clock` the capture clock at the frame in nanoseconds since
/// 1970-01-01T00:00:00 UTC, and `bytes` are the frame's captured bytes.
// Each arm packs what it found, so that the facts need no place in memory between.
#[inline(always)]
#[tactic(auto, unfolding(crate::specs::Decode::seen_of))]
pub fn slot_in(link: u32, frame: &Frame, clock: u64, bytes: &[u8]) -> Slot
    requires link { IsLink link }
    requires small { frame.now.at + length bytes.now ≤ 2 ^ 30 }
    // It is what the frame's headers say, or the first counter that applies.
    ensures value { result ≡ packed (seen_of link frame.now clock bytes.now) }
    // The facts are those of the frame, and the payload lies in its bytes.
    ensures own { IsSeenOf (frame.now.at + length bytes.now) frame.now clock (seen_of link frame.now clock bytes.now) }
    // The key can be named.
    ensures nameable { (f : Facts) → seen_of link frame.now clock bytes.now ≡ Bears f → IsNameable f.key }
{
    match decode(link, bytes) {
        Ok(view) => Slot::of(&Seen::Bears(facts_in(frame, clock, &view))),
        Err(counter) => Slot::of(&Seen::Counted(counter)),
    }
}
