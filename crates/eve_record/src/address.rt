//! The text of addresses.
ghost use Rattle.eve_record.specs.Address.{address_text, dotted, eight_groups, four_groups, padded_hex};
ghost use Rattle.std.specs.Str.{IsAscii};
ghost use Rattle.std.specs.Prelude.{◌≡◌, ◌+◌, ◌≤◌, ◌++◌, decimal};
ghost use Rattle.arrayvec.specs.ArrayString.{array_string_len};

use crate::digits::{ascii_text, two_hex};
use arrayvec::ArrayString;
use itoa::Buffer;

// Appends a decimal number.
fn push_decimal(text: &mut ArrayString<39>, n: u8)
    requires { array_string_len text.old + 3 ≤ 39 }
    ensures bytes { text.new.bytes ≡ text.old.bytes ++ decimal n }
    ensures len { array_string_len text.new ≤ array_string_len text.old + 3 }
{
    text.push_str(Buffer::new().format(n));
}

// Four decimal numbers with dots between them.
fn ipv4_text(address: u128) -> ArrayString<39>
    ensures { result.bytes ≡ dotted address }
{
    let mut text = ArrayString::new();
    push_decimal(&mut text, (address / 0x100_0000 % 0x100) as u8);
    text.push_str(".");
    push_decimal(&mut text, (address / 0x1_0000 % 0x100) as u8);
    text.push_str(".");
    push_decimal(&mut text, (address / 0x100 % 0x100) as u8);
    text.push_str(".");
    push_decimal(&mut text, (address % 0x100) as u8);
    text
}

// Four lower-case hexadecimal digits.
#[tactic(auto, using(crate::proofs::Hexadecimals::four_hex_digits))]
fn group(n: u16) -> [u8; 4]
    ensures { result ≡ padded_hex 4 n }
{
    let high = two_hex((n / 0x100) as u8);
    let low = two_hex((n % 0x100) as u8);
    [high[0], high[1], low[0], low[1]]
}

// Four such groups, with colons between them.
fn groups(n: u64) -> [u8; 19]
    ensures value { result ≡ four_groups n }
    ensures ascii { IsAscii result }
{
    let a = group((n / 0x1_0000_0000_0000) as u16);
    let b = group((n / 0x1_0000_0000 % 0x1_0000) as u16);
    let c = group((n / 0x1_0000 % 0x1_0000) as u16);
    let d = group((n % 0x1_0000) as u16);
    [
        a[0], a[1], a[2], a[3], b':', b[0], b[1], b[2], b[3], b':', c[0], c[1], c[2], c[3], b':',
        d[0], d[1], d[2], d[3],
    ]
}

// Eight such groups: no zeros are left out.
#[tactic(auto, unfolding(crate::specs::Address::eight_groups))]
fn ipv6_text(address: u128) -> ArrayString<39>
    ensures { result.bytes ≡ eight_groups address }
{
    let high = groups((address / 0x1_0000_0000_0000_0000) as u64);
    let low = groups((address % 0x1_0000_0000_0000_0000) as u64);
    let mut text = ArrayString::new();
    text.push_str(ascii_text(&high));
    text.push_str(":");
    text.push_str(ascii_text(&low));
    text
}

/// The text of an address of this IP version: four decimal numbers with dots for version 4, else eight
/// groups of four lower-case hexadecimal digits with colons.
#[tactic(auto, unfolding(crate::specs::Address::address_text))]
pub fn ip_text(version: u8, address: u128) -> ArrayString<39>
    ensures { result.bytes ≡ address_text version address }
{
    if version == 4 {
        ipv4_text(address)
    } else {
        ipv6_text(address)
    }
}
