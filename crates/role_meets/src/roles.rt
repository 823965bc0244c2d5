//! The roles of a round.
use role_steps::{Manager, Recycler, Worker};

/// A role that runs beside others in each round.
#[derive(Drop)]
pub enum Part<'c> {
    Work(Worker<'c>),
    Manage(Manager<'c>),
    Recycle(Recycler<'c>),
}

/// A role of the rounds, and whether memory was refused to it.
#[derive(Drop)]
pub struct Role<'c> {
    pub part: Part<'c>,
    pub failed: bool,
}
