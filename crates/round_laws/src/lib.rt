//! What holds between two rounds of a run, and that it goes on from round to round.
#![tactic(auto)]

mod laws;

pub use laws::{
    roles_may_play, rounds_begin, rounds_go_on, runs_are_named_soon, runs_go_by_rounds,
    runs_leave_before,
};
