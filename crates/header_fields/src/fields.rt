//! Numbers of two, four and sixteen bytes.
ghost use Rattle.std.specs.Prelude.{◌≡◌, ◌+◌, ◌≤◌, length};
ghost use Rattle.header_fields.specs.Fields.{IsReadBack, number_at};

use byteorder::{BigEndian, ByteOrder};

/// The 16-bit number at a place.
#[tactic(auto, unfolding(crate::specs::Fields::number_at))]
pub fn half_at(bytes: &[u8], at: usize) -> u16
    requires { at + 2 ≤ length bytes.now }
    ensures value { result ≡ number_at 2 at bytes.now }
    // What a number is spelled as there is read as that number.
    ensures spelled { IsReadBack 2 at bytes.now result }
{
    BigEndian::read_u16(&bytes[at..])
}

/// The 32-bit number at a place.
#[tactic(auto, unfolding(crate::specs::Fields::number_at))]
pub fn word_at(bytes: &[u8], at: usize) -> u32
    requires { at + 4 ≤ length bytes.now }
    ensures value { result ≡ number_at 4 at bytes.now }
    ensures spelled { IsReadBack 4 at bytes.now result }
{
    BigEndian::read_u32(&bytes[at..])
}

/// The 128-bit number at a place.
#[tactic(auto, unfolding(crate::specs::Fields::number_at))]
pub fn address_at(bytes: &[u8], at: usize) -> u128
    requires { at + 16 ≤ length bytes.now }
    ensures value { result ≡ number_at 16 at bytes.now }
    ensures spelled { IsReadBack 16 at bytes.now result }
{
    BigEndian::read_u128(&bytes[at..])
}
