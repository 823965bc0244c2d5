//! Whether a flow has expired.
ghost use Rattle.std.specs.Prelude.{◌≡◌, ◌^◌, ◌<◌, List, ℕ};
ghost use Rattle.flow_expiry.specs.Expiry.{expired, object_expired};
ghost use Rattle.flow_object.specs.Standing.{StandsFor};
ghost use Rattle.flow_sum.specs.Run.{Run};
ghost use Rattle.suri_base.specs.declared.app.App.{App};

use flow_object::FlowObj;
use timeout_table::{expired, timeout};

/// Whether the flow of an object has expired at a clock: it was silent for longer than its timeout, which its protocol
/// and class tell, by the timeouts of `emergency` or by the normal ones (this project's own table).
///
/// The clock is the capture clock, in nanoseconds since 1970-01-01T00:00:00 UTC.
#[tactic(auto, using(crate::proofs::Objects::expired_run))]
pub fn has_expired(obj: &FlowObj, clock: u64, emergency: bool) -> bool
    requires { obj.now.sums.last_clock < 2 ^ 63 }
    ensures told { result ≡ object_expired obj.now clock emergency }
    // It is so of each run that the object stands for.
    ensures run { (bytes : List ℕ) (r : Run) (judged : List App) → StandsFor obj.now bytes r judged
        → result ≡ expired r clock emergency }
{
    let sums = obj.sums();
    expired(
        sums.last_clock,
        clock,
        timeout(sums.key.proto, obj.class(), emergency),
    )
}
