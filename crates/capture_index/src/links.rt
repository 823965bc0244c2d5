//! Which frame is the next one of each frame's key.
ghost use Rattle.capture_index.specs.Links.{AreAt, IsAt, Tells, linked, linked_before, linked_one};
ghost use Rattle.capture_index.specs.Pieces.{pieces_of};
ghost use Rattle.std.specs.Prelude.{◌≡◌, ◌+◌, ◌^◌, ◌<◌, ◌≤◌, [], ◌∷◌, ◌++◌, IfOk, List, OnOk, length, map};
ghost use Rattle.suri_base.specs.Slot.{packed};
ghost use Rattle.suri_base.specs.declared.seen.Seen.{Seen};

use crate::firsts::Firsts;
use std::alloc::{AllocError, Global};
use suri_base::Slot;

// Names in the slot of the frame of this number the next frame of its key, where the maps tell of the frames behind it.
fn link_one(firsts: &mut Firsts, no: u32, slot: &mut Slot) -> Result<(), AllocError>
    ensures value { (seen : Seen) (behind : List Seen) → slot.old ≡ packed seen → Tells firsts.old behind
        → OnOk result (slot.new ≡ packed (linked_one seen behind)) }
    ensures told { (seen : Seen) (behind : List Seen) → slot.old ≡ packed seen → IsAt no seen → Tells firsts.old behind
        → OnOk result (Tells firsts.new (seen ∷ behind)) }
{
    if let Some(key) = slot.key() {
        let next = firsts.put(key, no)?;
        slot.link(next);
    }
    Ok(())
}

// The same for the slots of some frames in file order, of which the first has this number.
fn link_part(firsts: &mut Firsts, first: u32, slots: &mut [Slot]) -> Result<(), AllocError>
    requires few { first + length slots.old < 2 ^ 32 }
    ensures value { (seen behind : List Seen) → slots.old ≡ map packed seen → AreAt first seen → Tells firsts.old behind
        → OnOk result (slots.new ≡ map packed (linked_before behind seen)) }
    ensures told { (seen behind : List Seen) → slots.old ≡ map packed seen → AreAt first seen → Tells firsts.old behind
        → OnOk result (Tells firsts.new (seen ++ behind)) }
{
    let mut place = slots.len();
    while place > 0 {
        place -= 1;
        link_one(firsts, first + place as u32, &mut slots[place])?;
    }
    Ok(())
}

/// Names in the slot of each frame the next frame that bears the same key, or 0, where each piece but the last has `size` slots.
///
/// One pass from the last frame to the first, with maps from each key to its first frame so far. The pieces are those of frames whose numbers
/// are those of their places, from 1.
pub fn link(
    alloc: Global,
    mut pieces: Vec<Vec<Slot>>,
    size: usize,
) -> Result<Vec<Vec<Slot>>, AllocError>
    requires size { 1 ≤ size }
    requires kept { (seen : List Seen) × (map (λ p. p.items) pieces.items ≡ pieces_of size seen) × (length seen ≤ 4194304) × AreAt 1 seen }
    ensures { (seen : List Seen) → map (λ p. p.items) pieces.items ≡ pieces_of size seen → AreAt 1 seen
        → IfOk result (λ v. map (λ p. p.items) v.items ≡ pieces_of size (linked seen)) }
{
    let mut firsts = Firsts::new(alloc);
    let mut piece = pieces.len();
    while piece > 0 {
        piece -= 1;
        let first = (piece * size) as u32 + 1;
        link_part(&mut firsts, first, &mut pieces[piece])?;
    }
    Ok(pieces)
}
