//! Numbers in a fixed count of digits, and the text that such bytes are.
ghost use Rattle.eve_record.specs.Address.{padded_decimal, padded_hex};
ghost use Rattle.std.specs.Fmt.{digit_glyph};
ghost use Rattle.std.specs.Prelude.{◌≡◌, ◌+◌, ◌/◌, ◌%◌, ◌<◌, [], ◌∷◌, false};
ghost use Rattle.std.specs.Str.{IsAscii};

/// The text of ASCII bytes.
#[tactic(auto, using(crate::proofs::Decimals::ascii_is_utf8))]
pub fn ascii_text(bytes: &[u8]) -> &str
    requires { IsAscii bytes.now }
    ensures { result.now ≡ bytes.now }
{
    match str::from_utf8(bytes) {
        Ok(text) => text,
        Err(_) => unreachable!(),
    }
}

/// A number below 100 in two decimal digits.
#[tactic(auto, using(crate::proofs::Decimals::two_digits))]
pub fn two(n: u8) -> [u8; 2]
    requires { n < 100 }
    ensures value { result ≡ padded_decimal 2 n }
    ensures digits { result ≡ (48 + n / 10) ∷ (48 + n % 10) ∷ [] }
{
    [b'0' + n / 10, b'0' + n % 10]
}

// A hexadecimal digit in lower case.
fn glyph(n: u8) -> u8
    requires { n < 16 }
    ensures value { result ≡ digit_glyph false n }
    ensures ascii { result < 128 }
{
    if n < 10 { b'0' + n } else { b'a' + (n - 10) }
}

/// A byte in two lower-case hexadecimal digits.
#[tactic(auto, using(crate::proofs::Hexadecimals::two_hex_digits))]
pub fn two_hex(n: u8) -> [u8; 2]
    ensures value { result ≡ padded_hex 2 n }
    ensures digits { result ≡ digit_glyph false (n / 16) ∷ digit_glyph false (n % 16) ∷ [] }
    ensures ascii { IsAscii result }
{
    [glyph(n / 16), glyph(n % 16)]
}
