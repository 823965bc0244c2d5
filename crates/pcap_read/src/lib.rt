//! Reads classic capture files (the pcap format, version 2.4) into frames.
#![tactic(auto)]

mod capture;
mod fault;
mod header;
mod reading;
mod records;
#[cfg(test)]
mod tests;

pub use capture::Frames;
pub use fault::PcapFault;
pub use reading::frames;
