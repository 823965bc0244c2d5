//! Trees of nodes, taken apart and put together.
ghost use Rattle.std.specs.Prelude.{◌≡◌, ◌+◌, ◌^◌, ◌<◌, ◌≤◌, max, ◌∷◌, ◌++◌};
ghost use Rattle.suri_base.specs.Chain.{node_of, IsAlone};
ghost use Rattle.segment_tree.specs.Order.{end_of};
ghost use Rattle.segment_tree.specs.Spots.{spot_of};
ghost use Rattle.segment_tree.specs.Tree.{DifferByAtMost, IsAbove, IsTree, IsTreeFrom, height, height_of, reach, reach_of, spots, spots_from};

use suri_base::Segment;

// A node without links, and its two sides.
pub(crate) struct Fork {
    pub(crate) less: Option<Box<Segment>>,
    pub(crate) node: Box<Segment>,
    pub(crate) more: Option<Box<Segment>>,
}

// The height of a tree.
pub(crate) fn height(tree: &Option<Box<Segment>>) -> u8
    ensures { result ≡ height tree.now }
{
    match tree {
        Some(node) => node.height,
        None => 0,
    }
}

// The greatest end of a tree's nodes, or 0.
pub(crate) fn reach(tree: &Option<Box<Segment>>) -> u32
    ensures { result ≡ reach tree.now }
{
    match tree {
        Some(node) => node.reach,
        None => 0,
    }
}

// Takes a node from its sides.
pub(crate) fn open(mut tree: Box<Segment>) -> Fork
    requires { IsTreeFrom tree.value }
    ensures spots { spots_from tree.value ≡ spots result.less ++ spot_of (node_of result.node.value) ∷ spots result.more }
    ensures low { height_of tree.value < 256 }
    ensures alone { IsAlone result.node.value }
    ensures fits { end_of (spot_of (node_of result.node.value)) < 2 ^ 32 }
    ensures less { IsTree result.less }
    ensures more { IsTree result.more }
    ensures height { IsAbove (height_of tree.value) (height result.less) (height result.more) }
    ensures near { DifferByAtMost 1 (height result.less) (height result.more) }
{
    let less = tree.less.take();
    let more = tree.more.take();
    Fork {
        less,
        node: tree,
        more,
    }
}

// Puts a node between two sides.
pub(crate) fn join(
    less: Option<Box<Segment>>,
    mut node: Box<Segment>,
    more: Option<Box<Segment>>,
) -> Box<Segment>
    requires fits { end_of (spot_of (node_of node.value)) < 2 ^ 32 }
    requires less { IsTree less }
    requires more { IsTree more }
    requires near { DifferByAtMost 1 (height less) (height more) }
    requires room { max (height less) (height more) < 255 }
    ensures spots { spots_from result.value ≡ spots less ++ spot_of (node_of node.value) ∷ spots more }
    ensures tree { IsTreeFrom result.value }
    ensures height { IsAbove (height_of result.value) (height less) (height more) }
{
    node.height = height(&less).max(height(&more)) + 1;
    node.reach = (node.first + node.len).max(reach(&less)).max(reach(&more));
    node.less = less;
    node.more = more;
    node
}

// The left side is two levels higher than the right one.
fn lean_less(
    less: Option<Box<Segment>>,
    node: Box<Segment>,
    more: Option<Box<Segment>>,
) -> Box<Segment>
    requires fits { end_of (spot_of (node_of node.value)) < 2 ^ 32 }
    requires less { IsTree less }
    requires more { IsTree more }
    requires leans { height less ≡ height more + 2 }
    requires room { height less < 255 }
    ensures spots { spots_from result.value ≡ spots less ++ spot_of (node_of node.value) ∷ spots more }
    ensures tree { IsTreeFrom result.value }
    ensures height { (height less ≤ height_of result.value) × (height_of result.value ≤ height less + 1) }
{
    let Some(top) = less else { unreachable!() };
    let Fork {
        less: low,
        node: top,
        more: inner,
    } = open(top);
    if height(&low) >= height(&inner) {
        return join(low, top, Some(join(inner, node, more)));
    }
    let Some(middle) = inner else { unreachable!() };
    let Fork {
        less: left,
        node: middle,
        more: right,
    } = open(middle);
    join(
        Some(join(low, top, left)),
        middle,
        Some(join(right, node, more)),
    )
}

// The right side is two levels higher than the left one.
fn lean_more(
    less: Option<Box<Segment>>,
    node: Box<Segment>,
    more: Option<Box<Segment>>,
) -> Box<Segment>
    requires fits { end_of (spot_of (node_of node.value)) < 2 ^ 32 }
    requires less { IsTree less }
    requires more { IsTree more }
    requires leans { height more ≡ height less + 2 }
    requires room { height more < 255 }
    ensures spots { spots_from result.value ≡ spots less ++ spot_of (node_of node.value) ∷ spots more }
    ensures tree { IsTreeFrom result.value }
    ensures height { (height more ≤ height_of result.value) × (height_of result.value ≤ height more + 1) }
{
    let Some(top) = more else { unreachable!() };
    let Fork {
        less: inner,
        node: top,
        more: high,
    } = open(top);
    if height(&high) >= height(&inner) {
        return join(Some(join(less, node, inner)), top, high);
    }
    let Some(middle) = inner else { unreachable!() };
    let Fork {
        less: left,
        node: middle,
        more: right,
    } = open(middle);
    join(
        Some(join(less, node, left)),
        middle,
        Some(join(right, top, high)),
    )
}

/// Puts a node between two sides whose heights differ by two at most.
pub(crate) fn balance(
    less: Option<Box<Segment>>,
    node: Box<Segment>,
    more: Option<Box<Segment>>,
) -> Box<Segment>
    requires fits { end_of (spot_of (node_of node.value)) < 2 ^ 32 }
    requires less { IsTree less }
    requires more { IsTree more }
    requires near { DifferByAtMost 2 (height less) (height more) }
    requires room { max (height less) (height more) < 255 }
    ensures spots { spots_from result.value ≡ spots less ++ spot_of (node_of node.value) ∷ spots more }
    ensures tree { IsTreeFrom result.value }
    ensures height { (max (height less) (height more) ≤ height_of result.value) × (height_of result.value ≤ max (height less) (height more) + 1) }
    ensures level { DifferByAtMost 1 (height less) (height more) → IsAbove (height_of result.value) (height less) (height more) }
{
    let (low, high) = (height(&less), height(&more));
    if low > high + 1 {
        lean_less(less, node, more)
    } else if high > low + 1 {
        lean_more(less, node, more)
    } else {
        join(less, node, more)
    }
}
