//! A small tree, worked out by hand, and trees of many nodes.
ghost use Rattle.std.specs.Prelude.{◌≡◌, ◌+◌, ◌^◌, ◌<◌, ◌≤◌, length};
ghost use Rattle.segment_tree.specs.Order.{AllBelow, end_of};

use crate::{SegmentTree, Spot};
use std::alloc::Global;
use std::process::Abort;
use std::test::Fail;
use suri_base::{NoMemory, Segment};

// The first offset of a node and how many bytes it stands for.
type Row = (u16, u16);

// Nodes that begin together, that cover each other, and gaps between them.
const ROWS: [Row; 7] = [(10, 5), (3, 4), (10, 2), (3, 1), (8, 3), (20, 2), (0, 1)];

// At an offset the number of the node whose byte counts, or 0, and up to where that stays so.
const RUNS: [(u32, u32, u32); 9] = [
    (0, 7, 1),
    (1, 0, 3),
    (3, 2, 7),
    (6, 2, 7),
    (8, 5, 10),
    (10, 1, 15),
    (15, 0, 20),
    (21, 6, 22),
    (22, 0, 4_294_967_295),
];

// Whether each offset from one on, below another, is covered.
const COVERS: [(u32, u32, bool); 8] = [
    (0, 1, true),
    (0, 2, false),
    (3, 7, true),
    (6, 8, false),
    (8, 15, true),
    (14, 16, false),
    (20, 22, true),
    (9, 9, true),
];

// Puts a node into a tree.
fn put(alloc: Global, tree: &mut SegmentTree, spot: Spot) -> Result<(), NoMemory>
    requires fits { end_of spot < 2 ^ 32 }
    requires few { length tree.old < 2 ^ 32 }
    requires newer { AllBelow spot.no tree.old }
    ensures few { length tree.new ≤ length tree.old + 1 }
    ensures newer { AllBelow (spot.no + 1) tree.new }
{
    let mut node = Segment::blank(alloc)?;
    spot.write(&mut node);
    tree.insert(node);
    Ok(())
}

// A tree of the nodes of some rows, numbered from 1.
fn planted(rt: &impl Abort, alloc: Global, rows: &[Row]) -> Result<SegmentTree, NoMemory> {
    assert!(rt; rows.len() < 100_000);
    let mut tree = SegmentTree::new();
    let mut no = 0;
    while (no as usize) < rows.len() {
        let (first, len) = rows[no as usize];
        no += 1;
        let spot = Spot {
            no,
            first: u32::from(first),
            at: 7,
            len: u32::from(len),
        };
        put(alloc, &mut tree, spot)?;
    }
    Ok(tree)
}

// The number of a node that was taken, or 0.
fn number(node: Option<Box<Segment>>) -> u32 {
    match node {
        Some(node) => node.no,
        None => 0,
    }
}

#[test]
fn a_small_tree(rt: HostRuntime) -> Result<(), Fail> {
    let mut tree = planted(&rt, rt.alloc(), &ROWS)?;
    for (at, no, end) in RUNS {
        let run = tree.run_at(at);
        let found = match run.spot {
            Some(spot) => spot.no,
            None => 0,
        };
        assert_eq!(rt; (found, run.end), (no, end), "at {at}");
    }
    for (from, end, want) in COVERS {
        assert_eq!(rt; tree.covers(from, end), want, "from {from}");
    }
    for no in [7, 2, 4, 5, 0] {
        assert_eq!(rt; number(tree.take_until(9)), no);
    }
    let first = Spot {
        no: 1,
        first: 10,
        at: 7,
        len: 5,
    };
    assert_eq!(rt; tree.first(), Some(first));
    for no in [1, 3, 6, 0] {
        assert_eq!(rt; number(tree.take_first()), no);
    }
    assert!(rt; tree.first().is_none());
    Ok(())
}

// Whether a tree of nodes of one byte has one at each of so many offsets, and hands them out in this order.
fn stands_in_order(rt: &impl Abort, mut tree: SegmentTree, count: u32) -> bool
    requires { count < 100000 }
{
    for at in 0..count {
        let run = tree.run_at(at);
        assert_eq!(rt; run.end, at + 1);
    }
    for at in 0..count {
        match tree.take_until(at) {
            Some(node) => assert_eq!(rt; node.first, at),
            None => return false,
        }
    }
    tree.covers(0, count) == (count == 0) && tree.first().is_none()
}

// Sixty thousand nodes of one byte, put in from the last to the first, and scattered.
#[test]
fn many_nodes(rt: HostRuntime) -> Result<(), Fail> {
    for scattered in [false, true] {
        let mut rows = Vec::new(rt.alloc());
        for place in 0..60_000u32 {
            let first = if scattered {
                place * 7919 % 60_000
            } else {
                59_999 - place
            };
            rows.push((first as u16, 1))?;
        }
        let tree = planted(&rt, rt.alloc(), &rows)?;
        assert!(rt; tree.covers(0, 60_000));
        assert!(rt; !tree.covers(0, 60_001));
        assert!(rt; stands_in_order(&rt, tree, 60_000));
    }
    Ok(())
}
