//! The first frame of each key, among the frames from some place on.
ghost use Rattle.capture_index.specs.Links.{Tells};
ghost use Rattle.std.specs.Prelude.{◌≡◌, [], ◌∷◌, IfOk, List, OnOk};
ghost use Rattle.suri_base.specs.Capture.{next_in};
ghost use Rattle.suri_base.specs.declared.facts.Facts.{Facts};
ghost use Rattle.suri_base.specs.declared.seen.Seen.{Seen};
ghost use Rattle.suri_base.specs.declared.seen.Seen.TheVariants.{Bears};

use crate::by_key::{ByKey, ShortKey};
use std::alloc::{AllocError, Global};
use std::collections::HashMap;
use suri_base::Key;

/// The number of the first frame of each key. Most keys have addresses of 32 bits; their map is small, and so stays in the caches for longer.
#[derive(Drop)]
pub struct Firsts {
    short: HashMap<ShortKey, u32>,
    long: HashMap<ByKey, u32>,
}

impl Firsts {
    /// Of no frames.
    pub fn new(alloc: Global) -> Firsts
        ensures { Tells result [] }
    {
        Firsts {
            short: HashMap::new(alloc),
            long: HashMap::new(alloc),
        }
    }

    /// The first frame of a key behind the frame of this number, which bears the key: 0 where there is none. From then on the
    /// maps tell of this frame too.
    #[inline(always)]
    pub fn put(&mut self, key: Key, no: u32) -> Result<u32, AllocError>
        ensures value { (behind : List Seen) → Tells self.old behind → IfOk result (λ next. next ≡ next_in key behind) }
        ensures told { (f : Facts) (behind : List Seen) → f.key ≡ key → f.no ≡ no → Tells self.old behind → OnOk result (Tells self.new (Bears f ∷ behind)) }
    {
        let before = match ShortKey::of(&key) {
            Some(short) => self.short.insert(short, no)?,
            None => self.long.insert(ByKey { key }, no)?,
        };
        Ok(before.unwrap_or(0))
    }
}
