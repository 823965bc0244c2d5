//! Packets and the stream of their direction.
ghost use Rattle.std.specs.Option.{is_some, option_to_list};
ghost use Rattle.std.specs.Prelude.{◌≡◌, ◌≢◌, ℕ, ◌+◌, ◌<◌, [], List, length, IfSome, IsSome, Some, if◌then◌else◌};
ghost use Rattle.flow_object.specs.Standing.{NewestAsks};
ghost use Rattle.flow_object.specs.Streams.{offer_to, with_member};
ghost use Rattle.reassembly.specs.Kept.{AllLieIn, Stands, held, newest_of};
ghost use Rattle.reassembly.specs.Members.{Member};
ghost use Rattle.segment_tree.specs.declared.spot.Spot.{Spot};
ghost use Rattle.suri_base.specs.App.{payload_of};
ghost use Rattle.suri_base.specs.Capture.{HasFacts};
ghost use Rattle.suri_base.specs.Chain.{IsAlone};
ghost use Rattle.suri_base.specs.declared.stream.Offer.TheVariants.{NeedsSegment};

use reassembly::Stream;
use suri_base::{Capture, Facts, Offer, Segment};

/// Offers a packet to the stream of its direction. One of another protocol than TCP brings nothing, so its payload isn't looked up.
pub(crate) fn offer(stream: &mut Stream, facts: &Facts, capture: &Capture) -> Offer
    requires facts { HasFacts capture.now facts.now.no facts.now }
    requires known { (older : List Member) × Stands stream.old older × AllLieIn capture.now.bytes older × (newest_of older < facts.now.no) }
    ensures settings { stream.new.depth ≡ stream.old.depth }
    ensures stop { stream.new.stop ≡ stream.old.stop }
    ensures nodes { held stream.new ≡ held stream.old }
    ensures payload { result ≡ NeedsSegment → IsSome facts.now.tcp × (0 < facts.now.pay_len) }
    ensures inside { AllLieIn capture.now.bytes (with_member facts.now.tcp facts.now.no facts.now.pay_at (payload_of capture.now.bytes facts.now) []) }
    ensures offer { (older : List Member) → Stands stream.old older → AllLieIn capture.now.bytes older → newest_of older < facts.now.no
        → result ≡ offer_to facts.now.tcp facts.now.no facts.now.pay_at (payload_of capture.now.bytes facts.now) stream.old older }
    ensures stands { (older : List Member) → Stands stream.old older → AllLieIn capture.now.bytes older → newest_of older < facts.now.no
        → result ≢ NeedsSegment
        → Stands stream.new (with_member facts.now.tcp facts.now.no facts.now.pay_at (payload_of capture.now.bytes facts.now) older) }
    ensures asks { (older : List Member) → Stands stream.old older → AllLieIn capture.now.bytes older → newest_of older < facts.now.no
        → result ≡ NeedsSegment
        → NewestAsks stream.new facts.now.no (with_member facts.now.tcp facts.now.no facts.now.pay_at (payload_of capture.now.bytes facts.now) older) }
{
    match &facts.tcp {
        Some(tcp) => {
            let payload = capture.payload(facts.no);
            stream.offer(facts.no, tcp, payload, facts.pay_at, capture.bytes())
        }
        None => Offer::Nothing,
    }
}

/// Stores the newest member of a stream in a node, or stops the stream there.
pub(crate) fn settle(stream: &mut Stream, node: Option<Box<Segment>>)
    requires asked { IsSome stream.old.asked }
    requires alone { IfSome node (λ n. IsAlone n.value) }
    ensures settings { stream.new.depth ≡ stream.old.depth }
    ensures nodes { held stream.new ≡ held stream.old + length (option_to_list node) }
    ensures stop { (spot : Spot) → stream.old.asked ≡ Some spot → stream.new.stop ≡ (if is_some node then stream.old.stop else spot.no) }
    ensures stands { (number : ℕ) (members : List Member) → NewestAsks stream.old number members → Stands stream.new members }
{
    match node {
        Some(node) => stream.store(node),
        None => stream.stop(),
    }
}
