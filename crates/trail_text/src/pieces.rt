//! A text that is cut into pieces, one after another.
ghost use Rattle.std.specs.Prelude.{◌≡◌, [], ◌∷◌, IsTrue, ◌↔◌, List, ℕ, MatchOption};
ghost use Rattle.trail_text.specs.Pieces.{left, pieces};

use memchr::memchr;
use std::marker::Model;

/// The pieces that are left of a text that is cut at each of one byte. Contracts see them as a list.
#[derive(Drop)]
pub struct Pieces<'a> {
    // What is left of the text.
    text: &'a [u8],
    // The byte between two pieces.
    at: u8,
    // The last piece was handed out.
    done: bool,
}

impl<'a> Model for Pieces<'a> {
    ghost Value = { List (List ℕ) };

    ghost view = { λ p. left p.done p.at p.text.now };
}

impl<'a> Pieces<'a> {
    /// All pieces of a text.
    pub fn of(text: &'a [u8], at: u8) -> Pieces<'a>
        ensures { result ≡ pieces at text.now }
    {
        Pieces {
            text,
            at,
            done: false,
        }
    }

    /// Hands out the next piece.
    pub fn take(&mut self) -> Option<&'a [u8]>
        ensures { MatchOption result ((self.old ≡ []) × (self.new ≡ [])) (λ piece. self.old ≡ piece.now ∷ self.new) }
    {
        if self.done {
            return None;
        }
        let text = self.text;
        match memchr(self.at, text) {
            None => {
                self.done = true;
                Some(text)
            }
            Some(place) => {
                self.text = &text[place + 1..];
                Some(&text[..place])
            }
        }
    }

    /// Whether no piece is left.
    pub fn is_done(&self) -> bool
        ensures { IsTrue result ↔ (self.now ≡ []) }
    {
        self.done
    }
}
