//! Trees of nodes, read.
ghost use Rattle.std.specs.Prelude.{◌≡◌, ◌+◌, ◌-◌, ◌^◌, ◌<◌, ◌≤◌, ◌∷◌, ◌++◌, slice_get, IfSome, MatchOption};
ghost use Rattle.segment_tree.specs.Order.{IsSorted, end_of};
ghost use Rattle.segment_tree.specs.Reads.{covers, earliest, lesser, next_first, reach_until};
ghost use Rattle.segment_tree.specs.Tree.{IsAbove, IsTree, IsTreeFrom, height, height_of, reach_of, spots, spots_from};

use crate::balance::reach;
use crate::spot::Spot;
use suri_base::Segment;

// What a node says, and its two sides.
struct Sides<'a> {
    less: &'a Option<Box<Segment>>,
    spot: Spot,
    more: &'a Option<Box<Segment>>,
}

fn look(node: &Segment) -> Sides<'_>
    requires { IsTreeFrom node.now }
    ensures spots { spots_from node.now ≡ spots result.less.now ++ result.spot ∷ spots result.more.now }
    ensures fits { end_of result.spot < 2 ^ 32 }
    ensures less { IsTree result.less.now }
    ensures more { IsTree result.more.now }
    ensures height { IsAbove (height_of node.now) (height result.less.now) (height result.more.now) }
{
    Sides {
        less: &node.less,
        spot: Spot::of(node),
        more: &node.more,
    }
}

/// The greatest end of the nodes that begin at or before an offset, or 0.
pub(crate) fn reach_until(tree: &Option<Box<Segment>>, at: u32) -> u32
    requires tree { IsTree tree.now }
    requires sorted { IsSorted (spots tree.now) }
    ensures { result ≡ reach_until at (spots tree.now) }
{
    let Some(node) = tree else { return 0 };
    let Sides { less, spot, more } = look(node);
    if at < spot.first {
        reach_until(less, at)
    } else {
        reach(less)
            .max(spot.first + spot.len)
            .max(reach_until(more, at))
    }
}

/// The first offset of the first node that begins behind an offset, or a limit.
pub(crate) fn next_first(tree: &Option<Box<Segment>>, at: u32, limit: u32) -> u32
    requires tree { IsTree tree.now }
    requires sorted { IsSorted (spots tree.now) }
    ensures { result ≡ next_first at limit (spots tree.now) }
{
    let Some(node) = tree else { return limit };
    let Sides { less, spot, more } = look(node);
    if at < spot.first {
        next_first(less, at, spot.first)
    } else {
        next_first(more, at, limit)
    }
}

/// The offset behind a node's last byte; that behind all bytes where there is no node.
pub(crate) fn end_of(spot: Option<Spot>) -> u32
    requires { IfSome spot (λ s. end_of s < 2 ^ 32) }
    ensures { MatchOption spot (result ≡ 2 ^ 32 - 1) (λ s. result ≡ end_of s) }
{
    match spot {
        Some(spot) => spot.first + spot.len,
        None => u32::MAX,
    }
}

/// What the first node says.
pub(crate) fn first(tree: &Option<Box<Segment>>) -> Option<Spot>
    requires { IsTree tree.now }
    ensures { result ≡ slice_get (spots tree.now) 0 }
{
    let Some(node) = tree else { return None };
    let Sides {
        less,
        spot,
        more: _,
    } = look(node);
    first(less).or(Some(spot))
}

// Of two nodes the one with the less number.
fn lesser(one: Option<Spot>, other: Option<Spot>) -> Option<Spot>
    ensures { result ≡ lesser one other }
{
    match (one, other) {
        (None, other) => other,
        (Some(one), None) => Some(one),
        (Some(one), Some(other)) => Some(if one.no < other.no { one } else { other }),
    }
}

/// Of the nodes that cover an offset, the one with the least frame number.
pub(crate) fn earliest(tree: &Option<Box<Segment>>, at: u32) -> Option<Spot>
    requires tree { IsTree tree.now }
    requires sorted { IsSorted (spots tree.now) }
    ensures { result ≡ earliest at (spots tree.now) }
{
    if reach(tree) <= at {
        return None;
    }
    let Some(node) = tree else { return None };
    let Sides { less, spot, more } = look(node);
    let before = earliest(less, at);
    if at < spot.first {
        return before;
    }
    let here = if at < spot.first + spot.len {
        Some(spot)
    } else {
        None
    };
    lesser(before, lesser(here, earliest(more, at)))
}
