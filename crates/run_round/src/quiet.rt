//! Laws over the runs of a capture that never were short of an object or of a node. Each is a clause of a function that does nothing.
ghost use Rattle.flow_object.specs.declared.outcome.FlowLine.{FlowLine};
ghost use Rattle.quiet_laws.specs.Counts.{ArePlainCounts};
ghost use Rattle.run_counts.specs.Counting.{IsStatsOf};
ghost use Rattle.run_round.specs.Accounts.{AccountsFor};
ghost use Rattle.run_round.specs.Quiet.{ArePlainRecords};
ghost use Rattle.run_rules.specs.Histories.{histories_of};
ghost use Rattle.run_rules.specs.Quiet.{IsQuiet};
ghost use Rattle.run_rules.specs.Setup.{Setup};
ghost use Rattle.run_stats.specs.declared.stats.Stats.{Stats};
ghost use Rattle.std.specs.Prelude.{◌≡◌, ℕ, List};
ghost use Rattle.suri_base.specs.Capture.{Captured};
ghost use Rattle.suri_base.specs.Trail.{Trailed};

/// Where neither pool was ever full, what a run reports of its capture is what the plain runs say, whatever its workers, batches, rounds and rows.
pub fn quiet_runs_are_plain()
    ensures records { (w : Setup) (t : Trailed) (lines : List FlowLine) → AccountsFor w t lines → IsQuiet (histories_of t)
        → ArePlainRecords w.layout.depth w.capture lines }
    ensures counts { (w : Setup) (t : Trailed) (lines : List FlowLine) → AccountsFor w t lines → IsQuiet (histories_of t)
        → (s : Stats) → IsStatsOf w.capture lines t s → ArePlainCounts w.capture lines s }
    // A capture has one list of such records.
    ensures once { (depth : ℕ) (c : Captured) (lines others : List FlowLine) → ArePlainRecords depth c lines → ArePlainRecords depth c others
        → lines ≡ others }
    // So two such runs of one capture have the same records, where they look at as many bytes of each stream.
    ensures alike { (w v : Setup) (t u : Trailed) (lines others : List FlowLine) → AccountsFor w t lines → AccountsFor v u others
        → IsQuiet (histories_of t) → IsQuiet (histories_of u) → w.capture ≡ v.capture → w.layout.depth ≡ v.layout.depth → lines ≡ others }
{}
