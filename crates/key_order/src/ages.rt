//! Clocks, and runs among those of one clock.
ghost use Rattle.std.specs.Prelude.{◌≡◌, ℕ};
ghost use Rattle.std.specs.Ordering.{nat_cmp, ordering_then};
ghost use Rattle.key_order.specs.Ages.{age_cmp, age_of, clock_of};
ghost use Rattle.key_order.specs.declared.ages.Age as Aged;

/// A clock, and a run: 12 bytes, in their order.
#[derive(Clone, Copy, Debug, PartialEq, Eq, PartialOrd, Ord)]
pub struct Age {
    /// The clock divided by 2^32.
    pub high: u32,
    /// The rest.
    pub low: u32,
    pub run: u32,
}

impl Age {
    /// The age of a run at a clock.
    pub fn new(clock: u64, run: u32) -> Age
        ensures { result ≡ age_of clock run }
    {
        Age {
            high: (clock >> 32) as u32,
            low: (clock % (1 << 32)) as u32,
            run,
        }
    }

    /// The clock of an age.
    pub fn clock(self) -> u64
        ensures { result ≡ clock_of self }
    {
        u64::from(self.high) * (1 << 32) + u64::from(self.low)
    }
}

/// Ages stand in the order of their clocks, then in that of their runs. It does nothing.
pub fn tells_ages()
    ensures ages { (c r d s : ℕ) → age_cmp (age_of c r) (age_of d s) ≡ ordering_then (nat_cmp c d) (nat_cmp r s) }
    ensures clock { (c r : ℕ) → clock_of (age_of c r) ≡ c }
    ensures run { (c r : ℕ) → (age_of c r).run ≡ r }
    ensures order { (x y : Aged.Age) → ⟦<Age as Ord>⟧.cmp x y ≡ age_cmp x y }
{}
