//! What an IP header says.

/// What an IP header says, and where its payload stands.
#[derive(Clone, Copy, Debug, PartialEq, Eq)]
pub struct IpView {
    /// The IP version, 4 or 6.
    pub version: u8,
    /// The source address: the 32-bit number of an IPv4 address, the 128-bit number of an IPv6 address.
    pub src: u128,
    /// The destination address, likewise.
    pub dst: u128,
    /// The TTL of IPv4 or the hop limit of IPv6.
    pub ttl: u8,
    /// The number of the protocol of the payload, behind all extension headers.
    pub proto: u8,
    /// The place of the first payload byte.
    pub pay_at: u32,
    /// How many payload bytes were captured, padding behind the packet left out.
    pub pay_len: u32,
    /// How many payload bytes the header states; never fewer than were captured.
    pub stated: u32,
}
