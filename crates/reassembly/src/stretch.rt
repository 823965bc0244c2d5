//! The bytes that come next: stretches of the packet at hand and of what waits.
ghost use Rattle.std.specs.Prelude.{ℕ, ◌≡◌, ◌+◌, ◌-◌, ◌^◌, ◌<◌, ◌≤◌, ◌++◌, ◌∷◌, List, length, slice_range, None};
ghost use Rattle.std.specs.Option.{option_copied};
ghost use Rattle.segment_tree.specs.Order.{end_of, newest_first};
ghost use Rattle.reassembly.specs.Nodes.{parts_at, LieWithin};
ghost use Rattle.reassembly.specs.Parts.{answer_to, bytes_from, byte_at, frontier_of, part, waiting_of, EndsBelow, Part};
ghost use Rattle.reassembly.specs.Stretches.{IsStretch};
ghost use Rattle.sha1.specs.Sha1.{Holds};

use segment_tree::{SegmentTree, Spot};
use sha1::Sha1;
use suri_base::Offer;

// The bytes of a node from one offset on, below another.
fn in_node(spot: Spot, at: u32, end: u32, bytes: &[u8]) -> &[u8]
    requires begins { spot.first ≤ at }
    requires some { at ≤ end }
    requires ends { end ≤ end_of spot }
    requires within { spot.at + spot.len ≤ length bytes.now }
    ensures { result.now ≡ slice_range bytes.now (spot.at + (at - spot.first)) (spot.at + (end - spot.first)) }
{
    let place = spot.at as usize;
    &bytes[place + (at - spot.first) as usize..place + (end - spot.first) as usize]
}

// The stretch of a packet from one offset on, below another, where no part that came before it has a byte.
fn in_packet(first: u32, packet: &[u8], at: u32, end: u32) -> Option<&[u8]>
    requires fits { first + length packet.now < 2 ^ 32 }
    requires on { at < 2 ^ 32 - 1 → at < end }
    ensures { (older : List Part) → byte_at older at ≡ None → ((k : ℕ) → at ≤ k → k < end → byte_at older k ≡ None)
        → IsStretch (part 0 first 0 packet.now ∷ older) at (option_copied result) }
{
    if at < first {
        return None;
    }
    let skip = (at - first) as usize;
    if packet.len() <= skip {
        return None;
    }
    let rest = &packet[skip..];
    Some(&rest[..rest.len().min((end - at) as usize)])
}

// The stretch from an offset on that a packet, and nodes that came before it, have there.
fn stretch_at<'a>(
    waiting: &SegmentTree,
    at: u32,
    first: u32,
    packet: &'a [u8],
    bytes: &'a [u8],
) -> Option<&'a [u8]>
    requires within { LieWithin (length bytes.now) (newest_first waiting.now) }
    requires fits { first + length packet.now < 2 ^ 32 }
    ensures { IsStretch (part 0 first 0 packet.now ∷ parts_at bytes.now (newest_first waiting.now)) at (option_copied result) }
{
    let run = waiting.run_at(at);
    match run.spot {
        Some(spot) => Some(in_node(spot, at, run.end, bytes)),
        None => in_packet(first, packet, at, run.end),
    }
}

/// The answer to a packet, which has bytes from an offset on, by what waits and by the frontier.
pub(crate) fn answer(
    waiting: &SegmentTree,
    frontier: u32,
    first: u32,
    packet: &[u8],
    bytes: &[u8],
) -> Offer
    requires within { LieWithin (length bytes.now) (newest_first waiting.now) }
    requires fits { first + length packet.now < 2 ^ 32 }
    ensures { (depth : ℕ) (parts : List Part) (number place : ℕ) → EndsBelow depth parts → frontier ≡ frontier_of depth parts
        → parts_at bytes.now (newest_first waiting.now) ≡ waiting_of depth parts
        → result ≡ answer_to depth parts (part number first place packet.now) }
{
    let end = first + packet.len() as u32;
    if waiting.covers(first.max(frontier), end) {
        Offer::Nothing
    } else if first <= frontier {
        Offer::InOrder
    } else {
        Offer::NeedsSegment
    }
}

/// Digests the bytes from the frontier on that the packet and the nodes have, and answers the new frontier: the first
/// offset that none of them covers.
pub(crate) fn take_stretches(
    hasher: &mut Sha1,
    waiting: &SegmentTree,
    frontier: u32,
    depth: u32,
    first: u32,
    packet: &[u8],
    bytes: &[u8],
) -> u32
    requires within { LieWithin (length bytes.now) (newest_first waiting.now) }
    requires fits { first + length packet.now < 2 ^ 32 }
    requires below { EndsBelow depth (part 0 first 0 packet.now ∷ parts_at bytes.now (newest_first waiting.now)) }
    requires frontier { frontier ≤ depth }
    ensures frontier { result ≡ frontier
        + length (bytes_from (byte_at (part 0 first 0 packet.now ∷ parts_at bytes.now (newest_first waiting.now))) frontier (depth - frontier)) }
    ensures taken { (m : List ℕ) → Holds hasher.old m
        → Holds hasher.new (m ++ bytes_from (byte_at (part 0 first 0 packet.now ∷ parts_at bytes.now (newest_first waiting.now))) frontier (depth - frontier)) }
{
    let mut at = frontier;
    while let Some(stretch) = stretch_at(waiting, at, first, packet, bytes) {
        hasher.update(stretch);
        at += stretch.len() as u32;
    }
    at
}
