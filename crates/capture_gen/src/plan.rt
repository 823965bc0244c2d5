//! Whose turn each frame of a generated capture is.
ghost use Rattle.capture_gen.specs.Plan.{Planned, continued, following, one_more, planned};
ghost use Rattle.std.specs.Prelude.{◌≡◌, ◌+◌, IfOk, vec_len};

use crate::conversation::{after_draws, kind_from, steps_of};
use std::alloc::Global;
use suri_base::NoMemory;

// How many lanes send in turn.
const LANES: usize = 16;

/// A frame's place in a conversation.
#[derive(Clone, Copy, Debug, PartialEq, Eq)]
pub struct Turn {
    /// The state from which the conversation was drawn.
    pub origin: u64,
    /// Which of the conversation's frames it is, from 1.
    pub step: u8,
}

// The next turn of a lane that had this one last, unless its conversation has no step left.
fn following(turn: Turn) -> Option<Turn>
    ensures { result ≡ following turn }
{
    if turn.step < steps_of(kind_from(turn.origin)) {
        Some(Turn {
            origin: turn.origin,
            step: turn.step + 1,
        })
    } else {
        None
    }
}

// The next frame's turn, where its lane's conversation goes on.
fn continued(turns: &[Turn]) -> Option<Turn>
    ensures { result ≡ continued turns.now }
{
    if turns.len() < LANES {
        None
    } else {
        following(turns[turns.len() - LANES])
    }
}

// Adds the next frame's turn. It answers the state from which the next conversation is drawn.
fn add_turn(turns: &mut Vec<Turn>, x: u64) -> Result<u64, NoMemory>
    ensures { IfOk result (λ y. one_more (record { x = x; turns = turns.old.items }) ≡ record { x = y; turns = turns.new.items }) }
{
    match continued(turns) {
        Some(turn) => {
            turns.push(turn)?;
            Ok(x)
        }
        None => {
            turns.push(Turn { origin: x, step: 1 })?;
            Ok(after_draws(x))
        }
    }
}

/// The turns of so many frames under a seed.
pub fn plan(alloc: Global, seed: u64, frames: u32) -> Result<Vec<Turn>, NoMemory>
    ensures turns { IfOk result (λ turns. turns.items ≡ (planned seed frames).turns) }
    ensures len { IfOk result (λ turns. vec_len turns ≡ frames) }
{
    let mut turns = Vec::with_capacity(alloc, frames as usize)?;
    let mut x = seed;
    for _ in 0..frames {
        x = add_turn(&mut turns, x)?;
    }
    Ok(turns)
}
