//! Whether a packet reuses the key of a flow.
ghost use Rattle.std.specs.Prelude.{◌≡◌, List, ℕ};
ghost use Rattle.flow_expiry.specs.Expiry.{is_closed, object_reused, opens, reuses};
ghost use Rattle.flow_object.specs.Standing.{StandsFor};
ghost use Rattle.flow_sum.specs.Run.{Run};
ghost use Rattle.suri_base.specs.declared.app.App.{App};

use flow_object::FlowObj;
use suri_base::tcp_flag::{ACK, RST, SYN};
use suri_base::{Facts, TcpFacts};
use tcp_session::Class;

// Whether a packet opens a connection: TCP with SYN, and with neither ACK nor RST (RFC 9293, section 3.5).
fn opens(tcp: Option<TcpFacts>) -> bool
    ensures { result ≡ opens tcp }
{
    match tcp {
        None => false,
        Some(tcp) => tcp.flags & (SYN | RST | ACK) == SYN,
    }
}

fn is_closed(class: Class) -> bool
    ensures { result ≡ is_closed class }
{
    match class {
        Class::New | Class::Established => false,
        Class::Closed => true,
    }
}

/// Whether a packet opens a connection, and the flow of an object, whose key it has, is closed: so it is the first of
/// a new connection by the same key.
#[tactic(auto, using(crate::proofs::Objects::reused_run))]
pub fn reuses_key(obj: &FlowObj, facts: &Facts) -> bool
    ensures told { result ≡ object_reused obj.now facts.now }
    // It is so of each run that the object stands for.
    ensures run { (bytes : List ℕ) (r : Run) (judged : List App) → StandsFor obj.now bytes r judged
        → result ≡ reuses r facts.now }
{
    opens(facts.tcp) && is_closed(obj.class())
}
