//! The lines that are written of a capture: a flow line and netflow lines for each flow record, and the stats line; or
//! the summary line, which stands in place of all these.
//!
//! Each line is one JSON object without spaces, its keys in order of bytes (after the EVE output of Suricata 7; the
//! order of the keys and some of the fields are this project's own), and a line feed. A text is handed out as bytes,
//! as a sink takes them.
#![tactic(auto)]

mod address;
mod digits;
mod fields;
mod flow;
mod names;
mod netflow;
mod parts;
mod session;
mod stats;
mod streams;
mod summary;
mod tally;
#[cfg(test)]
mod test_texts;
#[cfg(test)]
mod tests;
mod time;
mod totals;

pub use flow::flow_text;
pub use netflow::netflow_text;
pub use stats::stats_text;
pub use summary::summary_text;
pub use tally::Tally;
