//! The digest and the number of lines of a text that comes in pieces.
ghost use Rattle.eve_record.specs.SummaryLine.{Tallies, line_feeds, lines_in};
ghost use Rattle.sha1.specs.Sha1.{sha1};
ghost use Rattle.std.specs.Prelude.{◌≡◌, ◌≤◌, ◌++◌, List, [], length, ℕ};

use sha1::Sha1;

// How many lines end in a piece of a text.
fn line_feeds(piece: &[u8]) -> u64
    ensures value { result ≡ line_feeds piece.now }
    ensures few { result ≤ length piece.now }
{
    let mut count: u64 = 0;
    for byte in piece {
        if *byte == b'\n' {
            count += 1;
        }
    }
    count
}

/// A text that is added up piece by piece, and of which only its digest and the number of its lines are kept.
#[derive(Drop)]
pub struct Tally {
    hasher: Sha1,
    lines: u64,
}

impl Tally {
    /// The empty text.
    pub fn new() -> Tally
        ensures { Tallies result [] }
    {
        Tally {
            hasher: Sha1::new(),
            lines: 0,
        }
    }

    /// Adds a piece behind the text so far.
    pub fn add(&mut self, piece: &[u8])
        ensures { (text : List ℕ) → Tallies self.old text → Tallies self.new (text ++ piece.now) }
    {
        self.hasher.update(piece);
        self.lines = self.lines.saturating_add(line_feeds(piece));
    }

    /// The number of lines of the text, each of which ends with a line feed, and its digest.
    pub fn finish(self) -> (u64, [u8; 20])
        ensures { (text : List ℕ) → Tallies self text → (result.0 ≡ lines_in text) × (result.1 ≡ sha1 text) }
    {
        (self.lines, self.hasher.finalize())
    }
}
