//! Reads IP headers: IPv4 (RFC 791) and IPv6 with its extension headers (RFC 8200).
#![tactic(auto)]

mod extensions;
mod ipv4;
mod ipv6;
mod reading;
#[cfg(test)]
mod tests;
mod view;

pub use reading::ip;
pub use view::IpView;
