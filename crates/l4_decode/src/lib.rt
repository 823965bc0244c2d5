//! Reads transport headers: TCP (RFC 9293), UDP (RFC 768) and ICMP (RFC 792, RFC 4443).
#![tactic(auto)]

mod icmp;
mod reading;
mod tcp;
#[cfg(test)]
mod tests;
mod udp;
mod view;

pub use reading::l4;
pub use view::L4View;
