//! Laws of the counts of a run. Each is a clause of a function that does nothing.
ghost use Rattle.flow_object.specs.declared.outcome.FlowLine.{FlowLine};
ghost use Rattle.run_counts.specs.Adding.{AreRecordsOf, under_counters};
ghost use Rattle.run_counts.specs.Counting.{AreHistoryCounts, IsStatsOf, all_refusals};
ghost use Rattle.run_laws.specs.Setting.{IsSetup};
ghost use Rattle.run_rules.specs.Histories.{Histories, histories_of};
ghost use Rattle.run_rules.specs.Lawful.{AreScripted};
ghost use Rattle.run_rules.specs.Setup.{Setup};
ghost use Rattle.run_stats.specs.Counting.{IsCounted};
ghost use Rattle.run_stats.specs.declared.stats.Stats.{Stats};
ghost use Rattle.std.specs.Prelude.{◌≡◌, ◌+◌, ◌≤◌, List, length, sum_by};
ghost use Rattle.suri_base.specs.Capture.{packets_in};
ghost use Rattle.suri_base.specs.Trail.{Trailed};

/// The counts of a whole run add up: each frame is counted once, under a decoder counter, as a packet that was refused, or as a packet of one record.
pub fn counts_add_up()
    ensures histories { (w : Setup) (t : Histories) (lines : List FlowLine) (s : Stats) → IsSetup w → AreScripted w t → AreRecordsOf w t lines
        → IsCounted w.capture lines s → AreHistoryCounts t s → s.frames ≡ under_counters s + s.no_flow + s.packets }
    ensures trail { (w : Setup) (t : Trailed) (lines : List FlowLine) (s : Stats) → IsSetup w → AreScripted w (histories_of t) → AreRecordsOf w (histories_of t) lines
        → IsStatsOf w.capture lines t s → s.frames ≡ under_counters s + s.no_flow + s.packets }
    // So no more packets are refused, and no more are in records, than the capture has frames.
    ensures refused { (w : Setup) (t : Trailed) → IsSetup w → AreScripted w (histories_of t) → all_refusals t.buckets ≤ length w.capture.frames }
    ensures recorded { (w : Setup) (t : Histories) (lines : List FlowLine) → IsSetup w → AreScripted w t → AreRecordsOf w t lines
        → sum_by (λ l. l.sums.ts.pkts + l.sums.tc.pkts) lines ≤ length w.capture.frames }
    // Nor have the records more bytes than the packets of the capture.
    ensures bytes { (w : Setup) (t : Histories) (lines : List FlowLine) → IsSetup w → AreScripted w t → AreRecordsOf w t lines
        → sum_by (λ l. l.sums.ts.bytes + l.sums.tc.bytes) lines ≤ sum_by (λ f. f.len) (packets_in w.capture.seen) }
{}
