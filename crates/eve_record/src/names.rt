//! The names that stand in lines.
ghost use Rattle.eve_record.specs.FlowLine.{class_text, reason_text, state_text};
ghost use Rattle.eve_record.specs.Parts.{proto_text};
ghost use Rattle.std.specs.Prelude.{◌≡◌};

use suri_base::Reason;
use suri_base::protocol::{ICMP, TCP, UDP};
use tcp_session::{Class, State};

/// The name of a reason why a flow ended.
pub fn reason_name(reason: Reason) -> &'static str
    ensures { result.now ≡ reason_text reason }
{
    match reason {
        Reason::Timeout => "timeout",
        Reason::TcpReuse => "tcp_reuse",
        Reason::Forced => "forced",
        Reason::Shutdown => "shutdown",
    }
}

/// The name of a class of flows.
pub fn class_name(class: Class) -> &'static str
    ensures { result.now ≡ class_text class }
{
    match class {
        Class::New => "new",
        Class::Established => "established",
        Class::Closed => "closed",
    }
}

/// The name of a state of a TCP session, after RFC 9293, section 3.3.2.
pub fn state_name(state: State) -> &'static str
    ensures { result.now ≡ state_text state }
{
    match state {
        State::Nothing => "none",
        State::SynSent => "syn_sent",
        State::SynRecv => "syn_recv",
        State::Established => "established",
        State::FinWait1 => "fin_wait1",
        State::FinWait2 => "fin_wait2",
        State::TimeWait => "time_wait",
        State::CloseWait => "close_wait",
        State::LastAck => "last_ack",
        State::Closed => "closed",
    }
}

/// The name of a protocol that bears flows, by its number. The one that is left is the ICMP of IPv6.
pub fn proto_name(proto: u8) -> &'static str
    ensures { result.now ≡ proto_text proto }
{
    match proto {
        TCP => "TCP",
        UDP => "UDP",
        ICMP => "ICMP",
        _ => "IPv6-ICMP",
    }
}
