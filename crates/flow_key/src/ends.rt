//! The two ends of a packet, in the order in which it was sent.
ghost use Rattle.std.specs.Prelude.{◌≡◌, ◌||◌};
ghost use Rattle.flow_key.specs.Ends.{destination_end, is_one_way, source_end};
ghost use Rattle.suri_base.specs.Keys.{is_at_most};

use crate::pairs::counterpart;
use packet_decode::View;
use suri_base::End;

/// The two ends of a packet.
#[derive(Clone, Copy, Debug)]
pub struct Ends {
    pub source: End,
    pub destination: End,
    /// Whether the ends are an ordered pair.
    pub one_way: bool,
}

// Whether an end is at most another, by address and then by port.
fn at_most(end: &End, other: &End) -> bool
    ensures { result ≡ is_at_most end.now other.now }
{
    end.addr < other.addr || end.addr == other.addr && end.port <= other.port
}

/// Whether the source is the first end of the key.
pub fn is_source_first(ends: &Ends) -> bool
    ensures { result ≡ (ends.now.one_way || is_at_most ends.now.source ends.now.destination) }
{
    ends.one_way || at_most(&ends.source, &ends.destination)
}

/// The ends of a packet. Those of ICMP have its type and the counterpart of the type as their ports, or
/// type and code where the type has no counterpart.
pub fn ends_of(view: &View) -> Ends
    ensures source { result.source ≡ source_end view.now }
    ensures destination { result.destination ≡ destination_end view.now }
    ensures one_way { result.one_way ≡ is_one_way view.now }
{
    let (sport, dport, one_way) = match view.l4.icmp {
        None => (view.l4.sport, view.l4.dport, false),
        Some(icmp) => match counterpart(view.ip.version, icmp.kind) {
            Some(answer) => (u16::from(icmp.kind), u16::from(answer), false),
            None => (u16::from(icmp.kind), u16::from(icmp.code), true),
        },
    };
    Ends {
        source: End {
            addr: view.ip.src,
            port: sport,
        },
        destination: End {
            addr: view.ip.dst,
            port: dport,
        },
        one_way,
    }
}
