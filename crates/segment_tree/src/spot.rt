//! What a node says of the bytes that it stands for.
ghost use Rattle.std.specs.Prelude.{◌≡◌};
ghost use Rattle.suri_base.specs.Chain.{node_of, IsAlone};
ghost use Rattle.segment_tree.specs.Order.{before};
ghost use Rattle.segment_tree.specs.Spots.{spot_of};

use suri_base::Segment;

/// Payload bytes that wait: where they stand in the stream, and in the capture's bytes.
#[derive(Clone, Copy, Debug, PartialEq, Eq)]
pub struct Spot {
    /// The number of the frame that has them, from 1.
    pub no: u32,
    /// The offset in the stream of the first of them.
    pub first: u32,
    /// The place of that one in the capture's bytes.
    pub at: u32,
    /// How many there are.
    pub len: u32,
}

impl Spot {
    /// What a node says.
    pub fn of(node: &Segment) -> Spot
        ensures { result ≡ spot_of (node_of node.now) }
    {
        Spot {
            no: node.no,
            first: node.first,
            at: node.at,
            len: node.len,
        }
    }

    /// Writes it into a node.
    pub fn write(self, node: &mut Segment)
        ensures says { spot_of (node_of node.new) ≡ self }
        ensures alone { IsAlone node.old → IsAlone node.new }
    {
        node.no = self.no;
        node.first = self.first;
        node.at = self.at;
        node.len = self.len;
    }
}

/// Whether one node stands before another: it begins earlier, or with the same offset it has the less number.
pub(crate) fn is_before(node: &Segment, other: &Segment) -> bool
    ensures { result ≡ before (spot_of (node_of node.now)) (spot_of (node_of other.now)) }
{
    node.first < other.first || node.first == other.first && node.no < other.no
}
