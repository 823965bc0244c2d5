//! IP versions, and the protocols above IP that bear flows, by their numbers (IANA, 'Assigned Internet Protocol Numbers').

/// IP version 4 (RFC 791, section 3.1).
pub const IPV4: u8 = 4;

/// IP version 6 (RFC 8200, section 3).
pub const IPV6: u8 = 6;

/// ICMP of IP version 4 (RFC 792).
pub const ICMP: u8 = 1;

/// TCP (RFC 9293).
pub const TCP: u8 = 6;

/// UDP (RFC 768).
pub const UDP: u8 = 17;

/// ICMP of IP version 6 (RFC 4443).
pub const ICMPV6: u8 = 58;
