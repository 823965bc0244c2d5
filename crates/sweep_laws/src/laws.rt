//! A law over the sweeps of a run and the looks after them. It is the contract of a function that does nothing.
ghost use Rattle.bucket_laws.specs.Places.{History};
ghost use Rattle.round_laws.specs.Rising.{WentByRounds};
ghost use Rattle.run_laws.specs.Setting.{IsSetup};
ghost use Rattle.run_rules.specs.Histories.{Histories, bucket_at};
ghost use Rattle.run_rules.specs.Lawful.{AreScripted};
ghost use Rattle.run_rules.specs.Setup.{Setup, fixed_at};
ghost use Rattle.std.specs.Prelude.{ℕ, ◌<◌, Bool, length};
ghost use Rattle.suri_base.specs.History.{Begins};
ghost use Rattle.sweep_laws.specs.Sweeping.{LooksMeetNoneExpired, NoneHasExpired, WasSwept};

/// Once a bucket was swept in a round, none of its linked runs has expired at the clock of that round by the sweep's table. No packet of an earlier
/// round is still to come then, so the sweep detached each run that had expired; and a run that takes a packet later has it by no lesser clock. So no
/// look of the next round meets a run that had expired.
pub fn sweeps_leave_none_expired()
    ensures after { (w : Setup) (t : Histories) (l : AreScripted w t) → IsSetup w → WentByRounds w t l → (b : ℕ) → b < length t.buckets
        → (past : History) → Begins past (bucket_at b t.buckets) → (round : ℕ) (emergency : Bool) → WasSwept round emergency past
        → NoneHasExpired (fixed_at w b) round emergency past }
    ensures looks { (w : Setup) (t : Histories) (l : AreScripted w t) → IsSetup w → WentByRounds w t l → (b : ℕ) → b < length t.buckets
        → LooksMeetNoneExpired (fixed_at w b) (bucket_at b t.buckets) }
{}
