//! The control bits of a TCP header, as they stand in its fourteenth byte (RFC 9293, section 3.1).

/// No more data from the sender.
pub const FIN: u8 = 0x01;

/// Synchronise sequence numbers: the first segment of each end has it.
pub const SYN: u8 = 0x02;

/// Reset the connection.
pub const RST: u8 = 0x04;

/// Push.
pub const PSH: u8 = 0x08;

/// The acknowledgement number is there.
pub const ACK: u8 = 0x10;

/// The urgent pointer is there.
pub const URG: u8 = 0x20;

/// Congestion was seen (RFC 3168, section 6.1).
pub const ECE: u8 = 0x40;

/// The sender slowed down (RFC 3168, section 6.1).
pub const CWR: u8 = 0x80;
