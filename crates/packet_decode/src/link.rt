//! Link headers.
ghost use Rattle.std.specs.Prelude.{◌≡◌, ◌≤◌, ◌⊎◌, IfOk, length};
ghost use Rattle.packet_decode.specs.Frame.{carried_by, raw_packet_of};
ghost use Rattle.packet_decode.specs.Tags.{AreTags, network_of};

use crate::tags::{Network, no_tags, read_tags};
use header_fields::half_at;
use suri_base::Counter;

// The link types with a header, as the capture file numbers them.
const ETHERNET: u32 = 1;

const COOKED: u32 = 113;

// Their headers' lengths, in bytes, and the places of the EtherType.
const ETHERNET_LEN: usize = 14;

const ETHERNET_TYPE_AT: usize = 12;

const COOKED_LEN: usize = 16;

const COOKED_TYPE_AT: usize = 14;

// The IP packet of a frame without a link header: its first four bits are the version.
fn read_raw(bytes: &[u8]) -> Result<Network, Counter>
    ensures network { result ≡ network_of (raw_packet_of bytes.now) }
    ensures tags { IfOk result (λ network. AreTags network.vlans) }
    ensures version { IfOk result (λ network. (network.version ≡ 4) ⊎ (network.version ≡ 6)) }
    ensures inside { IfOk result (λ network. network.len ≤ length bytes.now) }
{
    if bytes.is_empty() {
        return Err(Counter::IpSmall);
    }
    let version = bytes[0] / 16;
    if version == 4 || version == 6 {
        let vlans = no_tags();
        let len = bytes.len();
        Ok(Network {
            vlans,
            version,
            len,
        })
    } else {
        Err(Counter::IpVersion)
    }
}

/// Walks past the link header and the tags to the IP packet.
#[tactic(auto, unfolding(crate::specs::Frame::carried_by))]
pub fn read_link(link: u32, bytes: &[u8]) -> Result<Network, Counter>
    ensures network { result ≡ network_of (carried_by link bytes.now) }
    ensures tags { IfOk result (λ network. AreTags network.vlans) }
    ensures version { IfOk result (λ network. (network.version ≡ 4) ⊎ (network.version ≡ 6)) }
    ensures inside { IfOk result (λ network. network.len ≤ length bytes.now) }
{
    match link {
        ETHERNET => {
            if bytes.len() < ETHERNET_LEN {
                return Err(Counter::LinkSmall);
            }
            read_tags(half_at(bytes, ETHERNET_TYPE_AT), &bytes[ETHERNET_LEN..])
        }
        COOKED => {
            if bytes.len() < COOKED_LEN {
                return Err(Counter::LinkSmall);
            }
            read_tags(half_at(bytes, COOKED_TYPE_AT), &bytes[COOKED_LEN..])
        }
        _ => read_raw(bytes),
    }
}
