//! Nodes from a tree to a chain.
ghost use Rattle.std.specs.Prelude.{◌≡◌, ◌+◌, length, filter, nat_lt};

use segment_tree::SegmentTree;
use suri_base::Segments;

/// Moves all nodes of a tree in front of a chain.
pub(crate) fn move_all(chain: &mut Segments, mut nodes: SegmentTree)
    ensures { length chain.new ≡ length nodes + length chain.old }
{
    while let Some(node) = nodes.take_first() {
        chain.push(node);
    }
}

/// Moves the nodes that begin at or before the frontier to those that are free.
pub(crate) fn release(waiting: &mut SegmentTree, freed: &mut Segments, frontier: u32)
    ensures waiting { waiting.new ≡ filter (λ spot. nat_lt frontier spot.first) waiting.old }
    ensures freed { length freed.new + length waiting.new ≡ length freed.old + length waiting.old }
{
    while let Some(node) = waiting.take_until(frontier) {
        freed.push(node);
    }
}
