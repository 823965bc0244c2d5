//! What every lawful trail of a run says, over every order of the roles' steps.
//!
//! There is no code here but functions that do nothing, whose contracts are the laws.
#![tactic(auto)]

mod laws;

pub use laws::{
    enough_are_out, next_calls_may_be_made, objects_come_back, packets_are_counted_once,
    refusals_have_causes, roles_make_a_trail, rounds_make_a_script, runs_have_ends,
    tables_are_read,
};
