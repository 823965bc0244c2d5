//! Where a test can hold a role between two of its steps.

/// Called by each role between its steps.
///
/// A test's gate can hold a role there, and so force an order of steps. The engine's own gate is
/// `OpenGate`.
pub trait Gate {
    /// Role `role` has come to point `point` of round `round`. The points (this project's own):
    ///
    /// - 1: the role's round begins,
    /// - 2: all packets of a batch have been looked up,
    /// - 3: all of the batch's closes are made,
    /// - 4: the role's round ends.
    ///
    /// A worker comes to points 2 and 3 once for each of its batches; the manager and the recycler
    /// come to points 1 and 4 alone. Nothing is promised of the call but that it is safe.
    fn at(&self, role: u32, round: u32, point: u8);
}

/// A gate that holds nobody: each call returns at once.
#[derive(Clone, Copy, Debug)]
pub struct OpenGate;

impl Gate for OpenGate {
    fn at(&self, _role: u32, _round: u32, _point: u8) {}
}
