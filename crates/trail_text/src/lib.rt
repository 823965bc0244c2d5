//! The audit text of a trail: what the machines of a run went through, a line for each entry.
#![tactic(auto)]

mod fault;
mod lines;
mod notes;
mod pieces;
mod putting;
mod reading;
mod reading_entries;
mod reading_heads;
mod reading_lines;
mod reading_notes;
mod reading_parts;
#[cfg(test)]
mod reading_tests;
#[cfg(test)]
mod tests;
mod values;
mod words;
mod writing;

pub use fault::TrailFault;
pub use reading::read_trail;
pub use writing::trail_text;
