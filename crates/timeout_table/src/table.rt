//! The timeouts.
ghost use Rattle.std.specs.Prelude.{◌≡◌, ◌*◌, ◌^◌, ◌≤◌, length};
ghost use Rattle.suri_base.specs.Protocols.{is_tcp};
ghost use Rattle.timeout_table.specs.Table.{rows_for, seconds_of, timeout_of};

use suri_base::protocol::TCP;
use tcp_session::Class;

/// A second, in nanoseconds.
const SECOND: u64 = 1_000_000_000;

// In seconds: the timeouts of TCP, and of all other protocols.
#[tactic(auto, unfolding(crate::specs::Table::rows_for))]
fn seconds(is_tcp: bool, class: Class, emergency: bool) -> u64
    ensures value { result ≡ seconds_of is_tcp emergency class }
    ensures at_most_an_hour { result ≤ 3600 }
{
    match (is_tcp, emergency, class) {
        (true, false, Class::New) => 60,
        (true, false, Class::Established) => 3_600,
        (true, false, Class::Closed) => 120,
        (true, true, Class::New) => 10,
        (true, true, Class::Established) => 300,
        (true, true, Class::Closed) => 20,
        (false, false, Class::New) => 30,
        (false, false, Class::Established | Class::Closed) => 300,
        (false, true, Class::New) => 10,
        (false, true, Class::Established | Class::Closed) => 100,
    }
}

/// How long a flow of this protocol (its IP protocol number) and class may be silent, in nanoseconds;
/// from the shorter timeouts in `emergency`, when flows have run out (this project's own table).
#[tactic(auto, using(crate::proofs::Once::one_row))]
pub fn timeout(proto: u8, class: Class, emergency: bool) -> u64
    ensures value { result ≡ timeout_of proto class emergency }
    ensures one_row { length (rows_for (is_tcp proto) emergency) ≡ 1 }
    ensures at_most_an_hour { result ≤ 3600 * 10 ^ 9 }
{
    seconds(proto == TCP, class, emergency) * SECOND
}
