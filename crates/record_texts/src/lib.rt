//! The lines of many records, made by several threads.
//!
//! The text of a record is its flow line, and then its netflow lines where they are asked for. Threads make the texts
//! of pieces of the records, and what is handed out has them in the order of the records.
#![tactic(auto)]

mod lines;
mod pieces;
#[cfg(test)]
mod test_lines;
#[cfg(test)]
mod tests;

pub use pieces::texts;
