//! Why a text is no trail's.
ghost use Rattle.std.specs.Prelude.{◌≡◌};
ghost use Rattle.trail_text.specs.declared.fault.TrailFault.TheVariants.{NoMemory};

use std::alloc::{AllocError, AllocFailed};

/// Why a text is no trail's.
#[derive(Clone, Copy, Debug, PartialEq, Eq)]
pub enum TrailFault {
    /// The line of that number, from 1, can't stand there. A missing line counts as the one after the last.
    Line { no: u32 },
    /// No memory was left for the entries.
    NoMemory,
}

impl From<AllocError> for TrailFault {
    ghost from_gives = { λ _ e. e ≡ NoMemory };

    fn from(_: AllocError) -> TrailFault {
        TrailFault::NoMemory
    }
}

impl<T: Drop> From<AllocFailed<T>> for TrailFault {
    ghost from_gives = { λ _ e. e ≡ NoMemory };

    fn from(_: AllocFailed<T>) -> TrailFault {
        TrailFault::NoMemory
    }
}
