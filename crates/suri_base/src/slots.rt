//! What is kept of what became of the frames of a capture.
ghost use Rattle.std.specs.Prelude.{◌≡◌, ◌<◌, ◌≤◌, IfOk, Some, length, map, slice_get};
ghost use Rattle.suri_base.specs.Slot.{ArePieces, joined, packed};

use crate::memory::NoMemory;
use crate::seen::Seen;
use crate::slot::Slot;
use std::alloc::Global;
use std::marker::Model;

/// What is kept of what became of each frame, in pieces that may be made beside each other.
///
/// Contracts see the pieces one behind the other, as one list.
#[derive(Drop)]
pub struct Slots {
    pieces: Vec<Vec<Slot>>,
    size: usize,
}

impl Model for Slots {
    ghost use Rattle.std.specs.Prelude.{List, map, ◌≤◌};
    ghost use Rattle.suri_base.specs.Slot.{ArePieces, joined};
    ghost use Rattle.suri_base.specs.declared.slot.Slot.{Slot};

    ghost Value = { List Slot };

    ghost view = { λ s. joined (map (λ p. p.items) s.pieces.items) };

    ghost invariant = { λ s. (1 ≤ s.size) × ArePieces s.size (map (λ p. p.items) s.pieces.items) };
}

impl Slots {
    /// Puts pieces together, each of `size` slots but for the last that has some.
    pub fn of(pieces: Vec<Vec<Slot>>, size: usize) -> Slots
        requires size { 1 ≤ size }
        requires full { ArePieces size (map (λ p. p.items) pieces.items) }
        ensures { result ≡ joined (map (λ p. p.items) pieces.items) }
    {
        Slots { pieces, size }
    }

    /// Packs what became of some frames into one piece.
    ///
    /// # Errors
    ///
    /// `NoMemory`.
    pub fn pack(alloc: Global, seen: &[Seen]) -> Result<Slots, NoMemory>
        ensures { IfOk result (λ slots. slots ≡ map packed seen.now) }
    {
        let mut piece = Vec::with_capacity(alloc, seen.len())?;
        for one in seen {
            piece.push(Slot::of(one))?;
        }
        let pieces = Vec::from_array(alloc, [piece])?;
        Ok(Slots::of(pieces, seen.len().max(1)))
    }

    /// The slot at this place, from 0.
    pub fn get(&self, place: usize) -> &Slot
        requires { place < length self.now }
        ensures { slice_get self.now place ≡ Some result.now }
    {
        &self.pieces[place / self.size][place % self.size]
    }
}
