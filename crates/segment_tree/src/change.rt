//! Nodes put into a tree, and taken from it.
ghost use Rattle.std.specs.Prelude.{◌≡◌, ◌+◌, ◌^◌, ◌<◌, ◌≤◌, ◌∷◌, length};
ghost use Rattle.suri_base.specs.Chain.{node_of, IsAlone};
ghost use Rattle.segment_tree.specs.Order.{IsSorted, end_of, placed};
ghost use Rattle.segment_tree.specs.Spots.{spot_of};
ghost use Rattle.segment_tree.specs.Tree.{IsTree, IsTreeFrom, height, height_of, spots, spots_from};

use crate::balance::{Fork, balance, join, open};
use crate::spot::is_before;
use suri_base::Segment;

/// Puts a node in its place.
pub(crate) fn insert(tree: Option<Box<Segment>>, node: Box<Segment>) -> Box<Segment>
    requires fits { end_of (spot_of (node_of node.value)) < 2 ^ 32 }
    requires tree { IsTree tree }
    requires room { height tree < 255 }
    requires sorted { IsSorted (spots tree) }
    ensures spots { spots_from result.value ≡ placed (spot_of (node_of node.value)) (spots tree) }
    ensures tree { IsTreeFrom result.value }
    ensures height { (height tree ≤ height_of result.value) × (height_of result.value ≤ height tree + 1) }
{
    let Some(top) = tree else {
        return join(None, node, None);
    };
    let Fork {
        less,
        node: top,
        more,
    } = open(top);
    if is_before(&node, &top) {
        let less = insert(less, node);
        balance(Some(less), top, more)
    } else {
        let more = insert(more, node);
        balance(less, top, Some(more))
    }
}

/// The first node, and the others.
pub(crate) struct Taken {
    pub(crate) node: Box<Segment>,
    pub(crate) rest: Option<Box<Segment>>,
}

/// Takes the first node out.
pub(crate) fn take_first(tree: Box<Segment>) -> Taken
    requires { IsTreeFrom tree.value }
    ensures spots { spots_from tree.value ≡ spot_of (node_of result.node.value) ∷ spots result.rest }
    ensures alone { IsAlone result.node.value }
    ensures tree { IsTree result.rest }
    ensures height { (height result.rest ≤ height_of tree.value) × (height_of tree.value ≤ height result.rest + 1) }
{
    let Fork { less, node, more } = open(tree);
    let Some(less) = less else {
        return Taken { node, rest: more };
    };
    let Taken { node: first, rest } = take_first(less);
    Taken {
        node: first,
        rest: Some(balance(rest, node, more)),
    }
}
