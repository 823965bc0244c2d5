//! A chain of nodes.
ghost use Rattle.std.specs.Option.{option_copied};
ghost use Rattle.std.specs.Prelude.{◌≡◌, [], ◌∷◌, IsTrue, ◌↔◌, MatchOption};
ghost use Rattle.suri_base.specs.Chain.{node_of, nodes_at, IsAlone};

use crate::segment::Segment;
use std::marker::Model;

/// Nodes in a chain, linked by `more`. Contracts see the list of what the nodes say, the front node's first.
pub struct Segments {
    head: Option<Box<Segment>>,
}

impl Model for Segments {
    ghost use Rattle.std.specs.Prelude.{List};
    ghost use Rattle.suri_base.specs.Node.{Node};

    ghost Value = { List Node };

    ghost use Rattle.suri_base.specs.Chain.{nodes, IsChain};
    ghost use Rattle.suri_base.specs.Linked.{behind};

    ghost view = { λ s. nodes (behind s.head) };

    ghost invariant = { λ s. IsChain (behind s.head) };
}

impl Segments {
    /// A chain without a node.
    pub fn new() -> Segments
        ensures { result ≡ [] }
    {
        Segments { head: None }
    }

    /// Whether the chain has no node.
    pub fn is_empty(&self) -> bool
        ensures { IsTrue result ↔ (self.now ≡ []) }
    {
        self.head.is_none()
    }

    /// The front node; none where the chain is empty.
    pub fn front(&self) -> Option<&Segment>
        ensures { nodes_at (option_copied result) ≡ self.now }
    {
        self.head.as_deref()
    }

    /// Puts the node in front.
    pub fn push(&mut self, mut node: Box<Segment>)
        requires { IsAlone node.value }
        ensures { self.new ≡ node_of node.value ∷ self.old }
    {
        node.more = self.head.take();
        self.head = Some(node);
    }

    /// Takes the front node out, without links. `None` comes exactly where the chain is empty.
    pub fn pop(&mut self) -> Option<Box<Segment>>
        ensures { MatchOption result ((self.old ≡ []) × (self.new ≡ [])) (λ node. IsAlone node.value × (self.old ≡ node_of node.value ∷ self.new)) }
    {
        let mut node = self.head.take()?;
        self.head = node.more.take();
        Some(node)
    }
}

// The chain is taken apart in a loop: dropping its head would go one call deeper for each node.
impl Drop for Segments {
    fn drop(mut self) {
        while let Some(node) = self.pop() {
            drop(node);
        }
        let Segments { head: _ } = self;
    }
}
