//! The nodes that a segment pool lends out.
ghost use Rattle.std.specs.Option.{option_copied};
ghost use Rattle.std.specs.Prelude.{◌≡◌, ◌∷◌, IfOk};
ghost use Rattle.suri_base.specs.Chain.{node_of, nodes_at, nodes_from, IsAlone};
ghost use Rattle.suri_base.specs.Node.{blank};

use crate::memory::NoMemory;
use std::alloc::Global;
use std::marker::Model;

/// One node of a segment pool. It stands for payload bytes of one frame that wait for bytes before them.
#[derive(Drop)]
pub struct Segment {
    /// The number of the frame, from 1.
    pub no: u32,
    /// The offset in the stream of its first byte.
    pub first: u32,
    /// The place of that byte in the capture's bytes.
    pub at: u32,
    /// How many bytes there are.
    pub len: u32,
    /// The greatest end of the nodes at and below it, where nodes stand in a tree; else without meaning.
    pub reach: u32,
    /// The height of the tree below it, where nodes stand in a tree; else without meaning.
    pub height: u8,
    /// The nodes before it, where nodes stand in a tree; else none.
    pub less: Option<Box<Segment>>,
    /// The nodes after it.
    pub more: Option<Box<Segment>>,
}

impl Model for Segment {
    ghost use Rattle.std.specs.Prelude.{◌+◌};
    ghost use Rattle.suri_base.specs.Linked.{Linked, linked_code, behind, count};

    ghost Value = { Linked };

    ghost coded = { linked_code };

    ghost view = { λ a. record {
      node = record { no = a.no; first = a.first; at = a.at; len = a.len; reach = a.reach; height = a.height };
      less = behind a.less;
      more = behind a.more;
    } };

    ghost size = { λ a. count a.less + count a.more + 1 };

    ghost use Rattle.suri_base.specs.Falls.{falls};

    ghost size_decreases = { λ a h. falls a };
}

impl Segment {
    /// A node with all numbers 0, and without links.
    ///
    /// It fails only where no memory is left.
    pub fn blank(alloc: Global) -> Result<Box<Segment>, NoMemory>
        ensures numbers { IfOk result (λ node. node_of node.value ≡ blank) }
        ensures alone { IfOk result (λ node. IsAlone node.value) }
    {
        let node = Segment {
            no: 0,
            first: 0,
            at: 0,
            len: 0,
            reach: 0,
            height: 0,
            less: None,
            more: None,
        };
        Ok(Box::new(alloc, node)?)
    }

    /// The node after it, where it stands in a chain.
    pub fn next(&self) -> Option<&Segment>
        ensures { nodes_from self.now ≡ node_of self.now ∷ nodes_at (option_copied result) }
    {
        match &self.more {
            Some(node) => Some(node),
            None => None,
        }
    }
}
