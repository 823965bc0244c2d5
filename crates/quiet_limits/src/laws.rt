//! The law of wide limits, as the contract of a function that does nothing.
ghost use Rattle.quiet_limits.specs.Payloads.{tcp_payloads};
ghost use Rattle.run_laws.specs.Setting.{IsSetup};
ghost use Rattle.run_rules.specs.Histories.{Histories};
ghost use Rattle.run_rules.specs.Lawful.{AreScripted};
ghost use Rattle.run_rules.specs.Quiet.{IsQuiet, is_full, is_short};
ghost use Rattle.run_rules.specs.Setup.{Setup};
ghost use Rattle.std.specs.Prelude.{◌≡◌, ◌≤◌, All, false, length};
ghost use Rattle.suri_base.specs.Capture.{packets_in};

/// Where the limits are at least what the capture could ask for, a run is quiet, whatever the workers, rounds, batches and rows, and in
/// whatever order the roles had the locks.
pub fn wide_limits_are_quiet()
    // The pool of objects is asked at most once for each frame that bears a flow: with as many objects it never is full.
    ensures objects { (w : Setup) (t : Histories) → IsSetup w → AreScripted w t → length (packets_in w.capture.seen) ≤ w.layout.memcap
        → All (λ e. is_full e.note ≡ false) t.pool }
    // A node is asked for at most once for each TCP segment with payload.
    ensures nodes { (w : Setup) (t : Histories) → IsSetup w → AreScripted w t → length (tcp_payloads w.capture.seen) ≤ w.layout.segments
        → All (λ e. is_short e.note ≡ false) t.segments }
    // So with as many of both neither pool ever is full.
    ensures quiet { (w : Setup) (t : Histories) → IsSetup w → AreScripted w t → length (packets_in w.capture.seen) ≤ w.layout.memcap
        → length (tcp_payloads w.capture.seen) ≤ w.layout.segments → IsQuiet t }
{}
