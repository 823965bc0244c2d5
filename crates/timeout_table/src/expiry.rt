//! When a flow has expired.
ghost use Rattle.std.specs.Prelude.{◌≡◌, ◌+◌, ◌^◌, ◌<◌, ◌↔◌, IsTrue};
ghost use Rattle.timeout_table.specs.Expiry.{has_expired};

/// Whether a flow has expired: it was silent for longer than its timeout, and not just as long.
///
/// `last` is the capture clock at its last packet and `clock` the clock now, both in nanoseconds since
/// 1970-01-01T00:00:00 UTC; `timeout` is in nanoseconds.
pub fn expired(last: u64, clock: u64, timeout: u64) -> bool
    requires { last + timeout < 2 ^ 64 }
    ensures value { result ≡ has_expired last clock timeout }
    ensures longer { IsTrue result ↔ (last + timeout < clock) }
{
    clock > last + timeout
}
