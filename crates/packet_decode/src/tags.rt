//! EtherTypes and VLAN tags (IEEE 802.1Q, section 9.5).
ghost use Rattle.std.specs.Prelude.{◌≡◌, ◌+◌, ◌^◌, ◌<◌, ◌≤◌, ◌⊎◌, IfOk, length};
ghost use Rattle.packet_decode.specs.Tags.{AreTags, behind_type, is_tag, network_of, with_id};

use header_fields::half_at;
use suri_base::{Counter, Vlans};

// The EtherTypes that are read: tags of customers and of providers, IPv4 and IPv6.
const CUSTOMER_TAG: u16 = 0x8100;

const PROVIDER_TAG: u16 = 0x88a8;

const IPV4: u16 = 0x0800;

const IPV6: u16 = 0x86dd;

// The most tags of a frame, this project's own limit.
const MAX_TAGS: u8 = 3;

// A tag's length behind its EtherType: the id with its priority, and the next EtherType.
const TAG_LEN: usize = 4;

const ID_AT: usize = 0;

const NEXT_AT: usize = 2;

// One more than the greatest id. The upper four bits are the priority and the drop eligibility.
const IDS: u16 = 4096;

/// What the link layer says of the IP packet that it carries, at the frame's end.
#[derive(Clone, Copy, Debug)]
pub struct Network {
    /// The ids of the VLAN tags.
    pub vlans: Vlans,
    /// The IP version, 4 or 6.
    pub version: u8,
    /// How many bytes of the packet were captured, padding included.
    pub len: usize,
}

/// No tags.
pub fn no_tags() -> Vlans
    ensures value { result ≡ record { count = 0; first = 0; second = 0; third = 0 } }
    ensures tags { AreTags result }
{
    Vlans {
        count: 0,
        first: 0,
        second: 0,
        third: 0,
    }
}

// The tags with one more inside them.
fn with_tag(vlans: Vlans, id: u16) -> Vlans
    requires tags { AreTags vlans }
    requires few { vlans.count < 3 }
    requires id { id < 2 ^ 12 }
    ensures value { result ≡ with_id vlans id }
    ensures tags { AreTags result }
{
    let count = vlans.count + 1;
    match vlans.count {
        0 => Vlans {
            count,
            first: id,
            ..vlans
        },
        1 => Vlans {
            count,
            second: id,
            ..vlans
        },
        _ => Vlans {
            count,
            third: id,
            ..vlans
        },
    }
}

// Whether an EtherType is that of a tag.
fn is_tag_type(ethertype: u16) -> bool
    ensures { result ≡ is_tag ethertype }
{
    ethertype == CUSTOMER_TAG || ethertype == PROVIDER_TAG
}

/// Walks past the tags behind a first EtherType to the IP packet.
pub fn read_tags(first: u16, bytes: &[u8]) -> Result<Network, Counter>
    ensures network { result ≡ network_of (behind_type 3 first bytes.now) }
    ensures tags { IfOk result (λ network. AreTags network.vlans) }
    ensures version { IfOk result (λ network. (network.version ≡ 4) ⊎ (network.version ≡ 6)) }
    ensures inside { IfOk result (λ network. network.len ≤ length bytes.now) }
{
    let mut vlans = no_tags();
    let mut ethertype = first;
    let mut rest = bytes;
    while is_tag_type(ethertype) {
        if vlans.count == MAX_TAGS {
            return Err(Counter::VlanDeep);
        }
        if rest.len() < TAG_LEN {
            return Err(Counter::VlanSmall);
        }
        vlans = with_tag(vlans, half_at(rest, ID_AT) % IDS);
        ethertype = half_at(rest, NEXT_AT);
        rest = &rest[TAG_LEN..];
    }
    let len = rest.len();
    match ethertype {
        IPV4 => Ok(Network {
            vlans,
            version: 4,
            len,
        }),
        IPV6 => Ok(Network {
            vlans,
            version: 6,
            len,
        }),
        _ => Err(Counter::Ethertype),
    }
}
