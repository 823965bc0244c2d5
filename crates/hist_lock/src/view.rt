//! What a seat of the lock's table knows, and what lies in the slot.
use std::alloc::Global;
use std::collections::LinkedList;
use std::snapshot::Snapshot;
use suri_base::Entry;

/// What a seat knows. It exists in proofs alone: no value of it is made. Histories stand with the newest entry first.
pub struct View<N, F> {
    /// The fixed part of the machine with which the lock was made, and how many roles there are. A seat that is spent has none.
    pub about: Option<(F, u32)>,
    /// The roles of the seat, each with the entries that it made.
    pub roles: LinkedList<(u32, LinkedList<Entry<N>>)>,
    /// The history that the seat has seen.
    pub seen: LinkedList<Entry<N>>,
    /// The histories that were noted when seats were joined.
    pub noted: LinkedList<LinkedList<Entry<N>>>,
    /// The whole history, while the seat has the turn.
    pub whole: Option<LinkedList<Entry<N>>>,
}

/// What lies in the slot: the machine and the entries of its history, in the order of time.
///
/// The machine stays in one place, so that a turn moves a few words out of the slot and back, whatever the machine's size.
#[derive(Drop)]
pub struct Home<A, N> {
    pub machine: Box<A>,
    pub entries: Vec<Entry<N>, Global>,
}

/// What the table is told once, when it is made: the machine as it then was, and how many roles there are.
#[derive(Drop)]
pub struct About<A> {
    pub machine: Snapshot<A>,
    pub roles: u32,
}
