//! What a transport header says.
use suri_base::{IcmpFacts, TcpFacts};

/// What a transport header says, and where its payload stands.
#[derive(Clone, Copy, Debug, PartialEq, Eq)]
pub struct L4View {
    /// The source port of TCP and UDP; 0 for ICMP.
    pub sport: u16,
    /// The destination port, likewise.
    pub dport: u16,
    /// There for TCP alone.
    pub tcp: Option<TcpFacts>,
    /// There for ICMP alone.
    pub icmp: Option<IcmpFacts>,
    /// The place of the first payload byte; the end of the bytes where there is no payload.
    pub pay_at: u32,
    /// How many payload bytes were captured; 0 for ICMP.
    pub pay_len: u32,
}
