//! A run of the engine over a capture: all rounds, each with its roles beside each other in threads, and the end.
#![tactic(auto)]

mod end;
mod hands;
mod play;
mod quiet;
mod rounds;
mod run;
#[cfg(test)]
mod test_gate;
#[cfg(test)]
mod test_notes;
#[cfg(test)]
mod test_runs;
#[cfg(test)]
mod tests;
mod works;

pub use quiet::quiet_runs_are_plain;
pub use run::{run_capture, run_with};
