//! A text, read line by line.
ghost use Rattle.std.specs.Prelude.{◌≡◌, [], ◌∷◌, ◌↔◌, ◌+◌, ◌-◌, ◌<◌, ◌^◌, IsTrue, MatchOption, length};
ghost use Rattle.trail_text.specs.Faults.{whole_lines};
ghost use Rattle.trail_text.specs.Pieces.{pieces};
ghost use Rattle.trail_text.specs.Reading.{last_piece};

use memchr::memchr;
use std::marker::Model;

/// The lines that are left of a text. Contracts see them as a list, beside what stands behind the last line feed and the number of the next line.
#[derive(Drop)]
pub struct Lines<'a> {
    // What is left of the text.
    text: &'a [u8],
    // The number of the next line, from 1.
    no: u32,
}

impl<'a> Model for Lines<'a> {
    ghost use Rattle.std.specs.Prelude.{◌+◌, ◌<◌, ◌^◌, length};
    ghost use Rattle.trail_text.specs.Faults.{whole_lines};
    ghost use Rattle.trail_text.specs.Pieces.{pieces};
    ghost use Rattle.trail_text.specs.Reading.{Reading, last_piece};

    ghost Value = { Reading };

    ghost view = { λ l. record { lines = whole_lines l.text.now; tail = last_piece (pieces 10 l.text.now); no = l.no } };

    ghost invariant = { λ l. l.no + length (whole_lines l.text.now) < 2 ^ 32 };
}

impl<'a> Lines<'a> {
    /// All lines of a text.
    pub fn of(text: &'a [u8]) -> Lines<'a>
        requires { length (whole_lines text.now) < 2 ^ 32 - 1 }
        ensures { result ≡ record { lines = whole_lines text.now; tail = last_piece (pieces 10 text.now); no = 1 } }
    {
        Lines { text, no: 1 }
    }

    /// The number of the next line, from 1.
    pub fn number(&self) -> u32
        ensures { result ≡ self.now.no }
    {
        self.no
    }

    /// Hands out the next line that ends with a line feed, without it.
    pub fn take(&mut self) -> Option<&'a [u8]>
        ensures { MatchOption result (self.old.lines ≡ []) (λ line. (self.old.lines ≡ line.now ∷ self.new.lines)
            × (self.new.tail ≡ self.old.tail) × (self.new.no ≡ self.old.no + 1)) }
    {
        let text = self.text;
        match memchr(b'\n', text) {
            None => None,
            Some(place) => {
                self.text = &text[place + 1..];
                self.no += 1;
                Some(&text[..place])
            }
        }
    }

    /// Whether nothing is left, so that the last line ended with a line feed.
    pub fn is_at_end(&self) -> bool
        ensures { IsTrue result ↔ (self.now.lines ≡ []) × (self.now.tail ≡ []) }
    {
        self.text.is_empty()
    }
}
