//! Laws over the histories of a run that never was short of an object or of a node. Each is a clause of a function that does nothing.
ghost use Rattle.bucket_laws.specs.Draining.{is_drained};
ghost use Rattle.bucket_laws.specs.Keys.{Piece, pieces};
ghost use Rattle.bucket_laws.specs.Places.{At, History, In};
ghost use Rattle.bucket_rules.specs.Row.{Off, detached, row};
ghost use Rattle.bucket_rules.specs.Rule.{IsLegal};
ghost use Rattle.bucket_rules.specs.declared.fixed.Fixed.{Fixed};
ghost use Rattle.flow_object.specs.Object.{no_stops};
ghost use Rattle.flow_object.specs.declared.outcome.FlowLine.{FlowLine};
ghost use Rattle.flow_pool.specs.Counting.{is_on};
ghost use Rattle.flow_sum.specs.Run.{Run, members};
ghost use Rattle.plain_runs.specs.Plain.{ArePlain, PlainRun, plain_runs_of, records_of};
ghost use Rattle.quiet_laws.specs.Calm.{IsCalm};
ghost use Rattle.quiet_laws.specs.Counts.{ArePlainCounts, CountsNoShortage};
ghost use Rattle.quiet_laws.specs.Pieces.{plain_of, runs_of};
ghost use Rattle.quiet_laws.specs.Plainly.{AreUncut, EndsPlainly};
ghost use Rattle.run_counts.specs.Adding.{AreRecordsOf};
ghost use Rattle.run_counts.specs.Counting.{AreHistoryCounts, IsStatsOf};
ghost use Rattle.run_laws.specs.Setting.{IsSetup};
ghost use Rattle.run_rules.specs.Histories.{Histories, bucket_at, histories_of};
ghost use Rattle.run_rules.specs.Lawful.{AreLegal, AreScripted};
ghost use Rattle.run_rules.specs.Quiet.{IsQuiet};
ghost use Rattle.run_rules.specs.Runs.{line_in, refusals_in, runs_in};
ghost use Rattle.run_rules.specs.Setup.{Setup};
ghost use Rattle.run_stats.specs.declared.stats.Stats.{Stats};
ghost use Rattle.std.specs.Prelude.{◌≡◌, ℕ, ◌<◌, ◌≤◌, Bool, true, false, List, [], length, map, reverse, Some};
ghost use Rattle.suri_base.specs.Capture.{Captured, IsCapture, packets_in};
ghost use Rattle.suri_base.specs.Clock.{clock_of};
ghost use Rattle.suri_base.specs.Dealing.{bucket_of};
ghost use Rattle.suri_base.specs.History.{Begins, entry};
ghost use Rattle.suri_base.specs.Trail.{Trailed};
ghost use Rattle.suri_base.specs.declared.entry.Entry.{Entry};
ghost use Rattle.suri_base.specs.declared.entry.PoolNote.TheVariants.{Mode};
ghost use Rattle.suri_base.specs.declared.entry.PoolNote.{PoolNote};
ghost use Rattle.suri_base.specs.declared.key.Key.{Key};

/// Where the pool of objects was never full, no emergency is ever on, and every reading of the mode tells so.
pub fn quiet_runs_have_no_emergency()
    ensures off { (t : Histories) → IsQuiet t → (past : List (Entry PoolNote)) → Begins past t.pool → is_on past ≡ false }
    ensures modes { (w : Setup) (t : Histories) → AreLegal w t → IsQuiet t → (role step : ℕ) (told : Bool) (past : List (Entry PoolNote))
        → At (entry role step (Mode told)) past t.pool → told ≡ false }
{}

/// Where neither pool was ever full, every look and every sweep goes by the normal table, and no bucket refuses, stops or evicts.
pub fn quiet_buckets_are_calm()
    ensures calm { (w : Setup) (t : Histories) → IsSetup w → AreScripted w t → IsQuiet t → (b : ℕ) → b < length t.buckets
        → IsCalm (bucket_at b t.buckets) }
    // So no frame is refused.
    ensures none { (w : Setup) (t : Histories) → IsSetup w → AreScripted w t → IsQuiet t → refusals_in t ≡ [] }
{}

/// Where the entries of a bucket are calm, its runs are cut as plain ones are.
pub fn calm_runs_end_plainly()
    // No packet of a run could have ended it before.
    ensures uncut { (s : Fixed) (history : History) (a : ℕ) → IsLegal s history → IsCalm history → AreUncut (row s a history).members }
    // After a drain each run was ended by the next packet of its key, or at the end of the capture.
    ensures ends { (s : Fixed) (history : History) (a : ℕ) (o : Off) (r : Run) → IsCapture s.capture → IsLegal s history → IsCalm history
        → is_drained history ≡ true → (row s a history).place ≡ detached o → (row s a history).members ≡ members r → EndsPlainly s r o }
    // No stream of it stopped.
    ensures stops { (s : Fixed) (history : History) (a : ℕ) → IsCalm history → (row s a history).stops ≡ no_stops }
{}

/// Where the entries of a bucket are calm, the packets of each of its keys are cut into plain runs.
pub fn calm_runs_are_plain()
    // The pieces of a key are its runs alone.
    ensures runs { (s : Fixed) (k : Key) (history : History) → IsCalm history → (p : Piece) → In p (pieces s k history) → 1 ≤ p.run }
    // After a drain they are, the newest first, the plain runs of all packets of the key.
    ensures plain { (s : Fixed) (k : Key) (history : History) → IsCapture s.capture → IsLegal s history → IsCalm history → is_drained history ≡ true
        → bucket_of k s.layout.rows ≡ s.number
        → plain_runs_of k (packets_in s.capture.seen) ≡ reverse (map (λ r. plain_of s.capture r) (runs_of (pieces s k history))) }
{}

/// Where neither pool was ever full, the records of a trail are those of the plain runs of the capture, whatever the workers, rounds, batches and rows.
pub fn quiet_records_are_plain()
    ensures same { (w : Setup) (t : Histories) → IsSetup w → AreScripted w t → IsQuiet t → (plain_runs : List PlainRun)
        → ArePlain (packets_in w.capture.seen) plain_runs
        → map (λ a. line_in w t a) (runs_in t)
        ≡ map (λ l. Some l) (records_of w.layout.depth w.capture.bytes (clock_of w.capture.frames) plain_runs) }
    // So the records made of it are those.
    ensures lines { (w : Setup) (t : Histories) → IsSetup w → AreScripted w t → IsQuiet t → (plain_runs : List PlainRun)
        → ArePlain (packets_in w.capture.seen) plain_runs → (lines : List FlowLine) → AreRecordsOf w t lines
        → lines ≡ records_of w.layout.depth w.capture.bytes (clock_of w.capture.frames) plain_runs }
    // Two such runs of one capture have the same records, where they look at as many bytes of each stream.
    ensures alike { (w v : Setup) (t u : Histories) → IsSetup w → IsSetup v → AreScripted w t → AreScripted v u → IsQuiet t → IsQuiet u
        → w.capture ≡ v.capture → w.layout.depth ≡ v.layout.depth → (lines others : List FlowLine) → AreRecordsOf w t lines → AreRecordsOf v u others
        → lines ≡ others }
{}

/// Where neither pool was ever full, the counts of a run are those of its capture and of its records, and nothing else.
pub fn quiet_counts_are_plain()
    ensures short { (w : Setup) (t : Histories) → IsSetup w → AreScripted w t → IsQuiet t → (s : Stats) → AreHistoryCounts t s → CountsNoShortage s }
    ensures counts { (w : Setup) (trail : Trailed) → IsSetup w → AreScripted w (histories_of trail) → IsQuiet (histories_of trail)
        → (lines : List FlowLine) (s : Stats) → IsStatsOf w.capture lines trail s → ArePlainCounts w.capture lines s }
    // A capture and its records have one list of such counts.
    ensures same { (c : Captured) (lines : List FlowLine) (s u : Stats) → ArePlainCounts c lines s → ArePlainCounts c lines u → s ≡ u }
    // So two such runs of one capture with the same records have the same counts.
    ensures alike { (w v : Setup) (trail other : Trailed) → IsSetup w → IsSetup v → AreScripted w (histories_of trail)
        → AreScripted v (histories_of other) → IsQuiet (histories_of trail) → IsQuiet (histories_of other) → w.capture ≡ v.capture
        → (lines : List FlowLine) (s u : Stats) → IsStatsOf w.capture lines trail s → IsStatsOf v.capture lines other u → s ≡ u }
    // No record is of a flow that was evicted, or that ended by a timeout of the emergency table.
    ensures forced { (w : Setup) (trail : Trailed) → IsSetup w → AreScripted w (histories_of trail) → IsQuiet (histories_of trail)
        → (lines : List FlowLine) (s : Stats) → AreRecordsOf w (histories_of trail) lines → IsStatsOf w.capture lines trail s
        → (s.forced ≡ 0) × (s.emergency ≡ 0) }
{}
