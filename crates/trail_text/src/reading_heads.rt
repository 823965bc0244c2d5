//! The lines of the layout and those before the entries, read.
ghost use Rattle.std.specs.Prelude.{◌≡◌, ◌≤◌, ◌∷◌, [], List, ℕ, IfSome, codes, decimal};
ghost use Rattle.trail_text.specs.Bounds.{Fits, IsLaidOut, Lies};
ghost use Rattle.trail_text.specs.Lines.{layout_line, layout_numbers};
ghost use Rattle.trail_text.specs.Pieces.{Reads, Spells, Without, last};
ghost use Rattle.trail_text.specs.Words.{spaced};

use crate::pieces::Pieces;
use crate::values::is;
use crate::words::{next_number, one};
use suri_base::Layout;

// Reads a number within bounds.
fn next_bounded(words: &mut Pieces, least: u32, most: u32) -> Option<u32>
    ensures { Reads decimal (Lies least most) words.old words.new result }
{
    match next_number(words) {
        Some(n) if least <= n && n <= most => Some(n),
        _ => None,
    }
}

// Reads a number within bounds, where no word follows.
fn last_bounded(words: &mut Pieces, least: u32, most: u32) -> Option<u32>
    ensures { Spells (last decimal) (Lies least most) words.old result }
{
    match next_bounded(words, least, most) {
        Some(n) if words.is_done() => Some(n),
        _ => None,
    }
}

// Reads the numbers of workers, of packets in a batch and of frames in a round.
fn next_shares(words: &mut Pieces) -> Option<(u32, u32, u32)>
    ensures some { IfSome result (λ p. Lies 1 64 p.0 × Lies 1 256 p.1 × Lies 1 65536 p.2
        × (words.old ≡ decimal p.0 ∷ decimal p.1 ∷ decimal p.2 ∷ words.new)) }
    ensures each { (a b d : ℕ) (rest : List (List ℕ)) → Lies 1 64 a → Lies 1 256 b → Lies 1 65536 d
        → words.old ≡ decimal a ∷ decimal b ∷ decimal d ∷ rest → result ≡ Some (a, b, d) }
{
    let Some(workers) = next_bounded(words, 1, 64) else {
        return None;
    };
    let Some(batch) = next_bounded(words, 1, 256) else {
        return None;
    };
    let Some(round) = next_bounded(words, 1, 65_536) else {
        return None;
    };
    Some((workers, batch, round))
}

// Reads the numbers of rows and of flows.
fn next_table(words: &mut Pieces) -> Option<(u32, u32)>
    ensures some { IfSome result (λ p. Lies 1 4096 p.0 × Lies 1 1048576 p.1 × (p.0 ≤ p.1)
        × (words.old ≡ decimal p.0 ∷ decimal p.1 ∷ words.new)) }
    ensures each { (a b : ℕ) (rest : List (List ℕ)) → Lies 1 4096 a → Lies 1 1048576 b → a ≤ b
        → words.old ≡ decimal a ∷ decimal b ∷ rest → result ≡ Some (a, b) }
{
    let Some(rows) = next_bounded(words, 1, 4_096) else {
        return None;
    };
    match next_bounded(words, 1, 1_048_576) {
        Some(memcap) if rows <= memcap => Some((rows, memcap)),
        _ => None,
    }
}

// Reads the number of nodes, the percentage and the number of bytes, where no word follows.
fn limits(words: &mut Pieces) -> Option<(u32, u32, u32)>
    ensures some { IfSome result (λ p. Lies 0 1048576 p.0 × Lies 1 100 p.1 × Lies 0 1073741824 p.2
        × (words.old ≡ decimal p.0 ∷ decimal p.1 ∷ decimal p.2 ∷ [])) }
    ensures each { (a b d : ℕ) → Lies 0 1048576 a → Lies 1 100 b → Lies 0 1073741824 d
        → words.old ≡ decimal a ∷ decimal b ∷ decimal d ∷ [] → result ≡ Some (a, b, d) }
{
    let Some(segments) = next_bounded(words, 0, 1_048_576) else {
        return None;
    };
    let Some(recovery) = next_bounded(words, 1, 100) else {
        return None;
    };
    let Some(depth) = last_bounded(words, 0, 1_073_741_824) else {
        return None;
    };
    Some((segments, recovery, depth))
}

// Reads the numbers of a layout, where no word follows.
fn sizes(words: &mut Pieces) -> Option<Layout>
    ensures { Spells layout_numbers IsLaidOut words.old result }
{
    let Some((workers, batch, round)) = next_shares(words) else {
        return None;
    };
    let Some((rows, memcap)) = next_table(words) else {
        return None;
    };
    let Some((segments, recovery, depth)) = limits(words) else {
        return None;
    };
    Some(Layout {
        workers,
        batch,
        round,
        rows,
        memcap,
        segments,
        recovery,
        depth,
    })
}

// Reads the words of a layout.
fn layout(words: &mut Pieces) -> Option<Layout>
    ensures { Spells (λ l. codes "layout" ∷ layout_numbers l) IsLaidOut words.old result }
{
    match words.take() {
        Some(word) if is(word, "layout") => sizes(words),
        _ => None,
    }
}

// Reads the number behind the name and the number of a bucket, where no word follows.
fn numbered(words: &mut Pieces, number: u32) -> Option<u32>
    ensures { Spells (λ n. codes "bucket" ∷ decimal number ∷ decimal n ∷ []) Fits words.old result }
{
    match words.take() {
        Some(word) if is(word, "bucket") => {}
        _ => return None,
    }
    match next_number(words) {
        Some(n) if n == number => one(words),
        _ => None,
    }
}

// Reads the number behind a name, where no word follows.
fn named(words: &mut Pieces, name: &str) -> Option<u32>
    ensures { Spells (λ n. name.now ∷ decimal n ∷ []) Fits words.old result }
{
    match words.take() {
        Some(word) if is(word, name) => one(words),
        _ => None,
    }
}

/// Reads the line of a layout.
pub fn layout_of(line: &[u8]) -> Option<Layout>
    ensures { Spells layout_line IsLaidOut line.now result }
{
    let mut words = Pieces::of(line, b' ');
    layout(&mut words)
}

/// Reads how many entries follow the line of a pool, where it is the line of the pool with that name.
pub fn pool_count(line: &[u8], name: &str) -> Option<u32>
    requires { Without 32 name.now }
    ensures { Spells (λ n. spaced (name.now ∷ decimal n ∷ [])) Fits line.now result }
{
    let mut words = Pieces::of(line, b' ');
    named(&mut words, name)
}

/// Reads how many entries follow the line of a bucket, where it is the line of the bucket with that number.
pub fn bucket_count(line: &[u8], number: u32) -> Option<u32>
    ensures { Spells (λ n. spaced (codes "bucket" ∷ decimal number ∷ decimal n ∷ [])) Fits line.now result }
{
    let mut words = Pieces::of(line, b' ');
    numbered(&mut words, number)
}
