//! The header of a capture file.
ghost use Rattle.std.specs.Prelude.{◌≡◌, ◌+◌, ◌≤◌, IfOk, length};
ghost use Rattle.pcap_read.specs.Header.{IsRead, field, header_of, header_under};

use crate::fault::PcapFault;
use byteorder::{BigEndian, ByteOrder, LittleEndian};

/// The length of the file header, in bytes.
pub const HEADER_LEN: usize = 24;

// The places of its fields. The magic number stands first.
const MAGIC_LEN: usize = 4;

const MAJOR_AT: usize = 4;

const MINOR_AT: usize = 6;

const LINK_AT: usize = 20;

// The magic numbers: the first four bytes as a big-endian number.
const MAGIC_NG: u32 = 0x0a0d_0d0a;

const MAGIC_LITTLE_MICROS: u32 = 0xd4c3_b2a1;

const MAGIC_BIG_MICROS: u32 = 0xa1b2_c3d4;

const MAGIC_LITTLE_NANOS: u32 = 0x4d3c_b2a1;

const MAGIC_BIG_NANOS: u32 = 0xa1b2_3c4d;

// The units of a time's fraction, in nanoseconds.
const MICROSECOND: u32 = 1000;

const NANOSECOND: u32 = 1;

/// The byte order of a file's numbers.
#[derive(Clone, Copy, Debug)]
pub enum Order {
    Big,
    Little,
}

impl Order {
    /// The 16-bit number at a place.
    pub fn half(self, bytes: &[u8], at: usize) -> u16
        requires { at + 2 ≤ length bytes.now }
        ensures { result ≡ field self 2 at bytes.now }
    {
        match self {
            Order::Big => BigEndian::read_u16(&bytes[at..]),
            Order::Little => LittleEndian::read_u16(&bytes[at..]),
        }
    }

    /// The 32-bit number at a place.
    pub fn word(self, bytes: &[u8], at: usize) -> u32
        requires { at + 4 ≤ length bytes.now }
        ensures { result ≡ field self 4 at bytes.now }
    {
        match self {
            Order::Big => BigEndian::read_u32(&bytes[at..]),
            Order::Little => LittleEndian::read_u32(&bytes[at..]),
        }
    }
}

/// What the file header says of the records.
#[derive(Clone, Copy, Debug)]
pub struct Header {
    pub order: Order,
    /// The unit of a time's fraction, in nanoseconds: 1,000 or 1.
    pub unit: u32,
    /// The link type: 1, 101 or 113.
    pub link: u32,
}

// The header behind a magic number that means this order and this unit.
fn read_under(order: Order, unit: u32, bytes: &[u8]) -> Result<Header, PcapFault>
    requires { unit ≤ 1000 }
    ensures value { result ≡ header_under order unit bytes.now }
    ensures read { IfOk result (IsRead bytes.now) }
{
    if bytes.len() < HEADER_LEN {
        return Err(PcapFault::Short);
    }
    let major = order.half(bytes, MAJOR_AT);
    let minor = order.half(bytes, MINOR_AT);
    if !(major == 2 && minor == 4) {
        return Err(PcapFault::Version(major, minor));
    }
    let field = order.word(bytes, LINK_AT);
    // The upper 16 bits tell of a frame check sequence, which this project ignores.
    let link = field % 0x1_0000;
    if link == 1 || link == 101 || link == 113 {
        Ok(Header { order, unit, link })
    } else {
        Err(PcapFault::Link(field))
    }
}

/// Reads the file header.
pub fn read_header(bytes: &[u8]) -> Result<Header, PcapFault>
    ensures value { result ≡ header_of bytes.now }
    ensures read { IfOk result (IsRead bytes.now) }
{
    if bytes.len() < MAGIC_LEN {
        return Err(PcapFault::Short);
    }
    match BigEndian::read_u32(bytes) {
        MAGIC_NG => Err(PcapFault::Ng),
        MAGIC_LITTLE_MICROS => read_under(Order::Little, MICROSECOND, bytes),
        MAGIC_BIG_MICROS => read_under(Order::Big, MICROSECOND, bytes),
        MAGIC_LITTLE_NANOS => read_under(Order::Little, NANOSECOND, bytes),
        MAGIC_BIG_NANOS => read_under(Order::Big, NANOSECOND, bytes),
        magic => Err(PcapFault::Magic(magic)),
    }
}
