//! A tree of nodes.
ghost use Rattle.std.specs.Prelude.{◌≡◌, ℕ, ◌-◌, ◌^◌, ◌<◌, ◌≤◌, ◌↔◌, IsTrue, [], ◌∷◌, length, slice_get, MatchOption};
ghost use Rattle.suri_base.specs.Chain.{node_of, IsAlone};
ghost use Rattle.segment_tree.specs.Order.{AllBehind, Lacks, end_of, placed};
ghost use Rattle.segment_tree.specs.Reads.{AreCovered, earliest};
ghost use Rattle.segment_tree.specs.Spots.{spot_of};

use crate::change::{Taken, insert, take_first};
use crate::read::{earliest, end_of, first, next_first, reach_until};
use crate::spot::Spot;
use std::marker::Model;
use suri_base::Segment;

/// Nodes in a search tree, by first offset, then by frame number. Contracts see the list of what they say, in this order.
///
/// Each node states the height of the tree below it, of which the sides differ by at most one, and the greatest end of its nodes.
/// No call takes memory: the boxes that it was given are linked anew.
pub struct SegmentTree {
    root: Option<Box<Segment>>,
}

/// The node whose byte counts from an offset on.
#[derive(Clone, Copy, Debug, PartialEq, Eq)]
pub struct Run {
    /// What the node says; none where no node has a byte there.
    pub spot: Option<Spot>,
    /// Up to this offset that stays so.
    pub end: u32,
}

impl Model for SegmentTree {
    ghost use Rattle.std.specs.Prelude.{List};
    ghost use Rattle.segment_tree.specs.declared.spot.Spot.{Spot};

    ghost Value = { List Spot };

    ghost use Rattle.segment_tree.specs.Tree.{IsTree, spots};
    ghost use Rattle.segment_tree.specs.Order.{IsSorted};

    ghost view = { λ t. spots t.root };

    ghost invariant = { λ t. IsTree t.root × IsSorted (spots t.root) };
}

impl SegmentTree {
    /// A tree without a node.
    pub fn new() -> SegmentTree
        ensures { result ≡ [] }
    {
        SegmentTree { root: None }
    }

    /// Puts a node in its place.
    pub fn insert(&mut self, node: Box<Segment>)
        requires fits { end_of (spot_of (node_of node.value)) < 2 ^ 32 }
        requires few { length self.old < 2 ^ 32 }
        requires lacks { Lacks (spot_of (node_of node.value)) self.old }
        ensures { self.new ≡ placed (spot_of (node_of node.value)) self.old }
    {
        let root = insert(self.root.take(), node);
        self.root = Some(root);
    }

    /// What the first node says. `None` comes exactly where the tree is empty.
    pub fn first(&self) -> Option<Spot>
        ensures { result ≡ slice_get self.now 0 }
    {
        first(&self.root)
    }

    /// Takes the first node out, without links. `None` comes exactly where the tree is empty.
    pub fn take_first(&mut self) -> Option<Box<Segment>>
        ensures { MatchOption result ((self.old ≡ []) × (self.new ≡ []))
            (λ node. IsAlone node.value × (self.old ≡ spot_of (node_of node.value) ∷ self.new)) }
    {
        let Taken { node, rest } = take_first(self.root.take()?);
        self.root = rest;
        Some(node)
    }

    /// Takes the first node out, without links, where it begins at or before an offset. `None` comes exactly where all
    /// nodes begin behind it.
    pub fn take_until(&mut self, at: u32) -> Option<Box<Segment>>
        ensures { MatchOption result (AllBehind at self.old × (self.new ≡ self.old))
            (λ node. IsAlone node.value × ((node_of node.value).first ≤ at) × (self.old ≡ spot_of (node_of node.value) ∷ self.new)) }
    {
        let Some(spot) = first(&self.root) else {
            return None;
        };
        if spot.first > at {
            return None;
        }
        self.take_first()
    }

    /// Whether nodes cover each offset from one on, below another.
    pub fn covers(&self, from: u32, end: u32) -> bool
        ensures { IsTrue result ↔ AreCovered self.now from end }
    {
        let mut at = from;
        while at < end {
            let next = reach_until(&self.root, at);
            if next <= at {
                return false;
            }
            at = next;
        }
        true
    }

    /// Of the nodes that cover an offset the one with the least frame number, and up to where it stays that one. Where
    /// none covers it, up to where none does.
    pub fn run_at(&self, at: u32) -> Run
        ensures spot { result.spot ≡ earliest at self.now }
        ensures on { MatchOption result.spot (at < 2 ^ 32 - 1 → at < result.end) (λ spot. at < result.end) }
        ensures same { (k : ℕ) → at ≤ k → k < result.end → earliest k self.now ≡ result.spot }
    {
        let spot = earliest(&self.root, at);
        let end = end_of(spot);
        Run {
            spot,
            end: next_first(&self.root, at, end).min(end),
        }
    }
}

// Dropping its nodes goes one call deeper for each level, so at most as deep as the tree is high.
impl Drop for SegmentTree {
    fn drop(self) {
        let SegmentTree { root } = self;
        drop(root);
    }
}
