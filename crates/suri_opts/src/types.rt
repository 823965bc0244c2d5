//! What the words choose, and why they are refused.
ghost use Rattle.std.specs.Prelude.{◌≡◌};
ghost use Rattle.suri_opts.specs.declared.types.WordFault.TheVariants.{NoMemory};

use std::alloc::AllocError;
use suri_base::Layout;

/// What the words choose.
#[derive(Clone, Copy, Debug, PartialEq, Eq)]
pub struct Options {
    pub layout: Layout,
    /// How many flow objects are made before the run, at most `memcap`.
    pub prealloc: u32,
    /// The seed of the Community IDs.
    pub seed: u16,
    /// Whether netflow lines are written.
    pub netflow: bool,
    /// Whether the audit is written: what the machines of the run went through.
    pub audit: bool,
    /// The seed of a generated capture and its number of frames, where one is asked for.
    pub generate: Option<(u64, u32)>,
}

/// Why words are refused.
#[derive(Clone, Copy, Debug, PartialEq, Eq)]
pub enum WordFault {
    /// They are no command line of this program; a word that asks for help or for the version is none either.
    Refused,
    /// There are more buckets than flows may be.
    Rows { rows: u32, memcap: u32 },
    /// The seed of a generated capture stands without its number of frames, or the number without the seed, or the
    /// seed with a wish for the audit.
    Pair,
    /// There was no memory to read them.
    NoMemory,
}

impl From<AllocError> for WordFault {
    ghost from_gives = { λ _ e. e ≡ NoMemory };

    fn from(_: AllocError) -> WordFault {
        WordFault::NoMemory
    }
}
