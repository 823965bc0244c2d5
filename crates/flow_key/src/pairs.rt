//! ICMP messages that answer one another.
ghost use Rattle.std.specs.Prelude.{◌≡◌, ℕ, Some};
ghost use Rattle.flow_key.specs.Pairs.{counterpart_in, counterpart_of, icmp_pairs, icmp_pairs_of_ipv6};

use suri_base::protocol::IPV4;

// Types of ICMP (RFC 792; RFC 950, appendix I; RFC 1256, section 3).
const ECHO: u8 = 8;

const ECHO_REPLY: u8 = 0;

const ROUTER_ADVERTISEMENT: u8 = 9;

const ROUTER_SOLICITATION: u8 = 10;

const TIMESTAMP: u8 = 13;

const TIMESTAMP_REPLY: u8 = 14;

const INFORMATION: u8 = 15;

const INFORMATION_REPLY: u8 = 16;

const ADDRESS_MASK: u8 = 17;

const ADDRESS_MASK_REPLY: u8 = 18;

// Types of ICMP over IPv6 (RFC 4443, section 4; RFC 2710, section 3; RFC 4861, section 4; RFC 4620,
// section 4; RFC 6275, section 6.5 and 6.6).
const ECHO_6: u8 = 128;

const ECHO_REPLY_6: u8 = 129;

const LISTENER_QUERY_6: u8 = 130;

const LISTENER_REPORT_6: u8 = 131;

const ROUTER_SOLICITATION_6: u8 = 133;

const ROUTER_ADVERTISEMENT_6: u8 = 134;

const NEIGHBOR_SOLICITATION_6: u8 = 135;

const NEIGHBOR_ADVERTISEMENT_6: u8 = 136;

const NODE_QUERY_6: u8 = 139;

const NODE_RESPONSE_6: u8 = 140;

const HOME_AGENT_REQUEST_6: u8 = 144;

const HOME_AGENT_REPLY_6: u8 = 145;

// The counterpart of a type of ICMP over IPv4.
fn counterpart_over_ipv4(kind: u8) -> Option<u8>
    ensures { result ≡ counterpart_in icmp_pairs kind }
{
    match kind {
        ECHO => Some(ECHO_REPLY),
        ECHO_REPLY => Some(ECHO),
        TIMESTAMP => Some(TIMESTAMP_REPLY),
        TIMESTAMP_REPLY => Some(TIMESTAMP),
        INFORMATION => Some(INFORMATION_REPLY),
        INFORMATION_REPLY => Some(INFORMATION),
        ROUTER_SOLICITATION => Some(ROUTER_ADVERTISEMENT),
        ROUTER_ADVERTISEMENT => Some(ROUTER_SOLICITATION),
        ADDRESS_MASK => Some(ADDRESS_MASK_REPLY),
        ADDRESS_MASK_REPLY => Some(ADDRESS_MASK),
        _ => None,
    }
}

// The counterpart of a type of ICMP over IPv6.
fn counterpart_over_ipv6(kind: u8) -> Option<u8>
    ensures { result ≡ counterpart_in icmp_pairs_of_ipv6 kind }
{
    match kind {
        ECHO_6 => Some(ECHO_REPLY_6),
        ECHO_REPLY_6 => Some(ECHO_6),
        LISTENER_QUERY_6 => Some(LISTENER_REPORT_6),
        LISTENER_REPORT_6 => Some(LISTENER_QUERY_6),
        ROUTER_SOLICITATION_6 => Some(ROUTER_ADVERTISEMENT_6),
        ROUTER_ADVERTISEMENT_6 => Some(ROUTER_SOLICITATION_6),
        NEIGHBOR_SOLICITATION_6 => Some(NEIGHBOR_ADVERTISEMENT_6),
        NEIGHBOR_ADVERTISEMENT_6 => Some(NEIGHBOR_SOLICITATION_6),
        NODE_QUERY_6 => Some(NODE_RESPONSE_6),
        NODE_RESPONSE_6 => Some(NODE_QUERY_6),
        HOME_AGENT_REQUEST_6 => Some(HOME_AGENT_REPLY_6),
        HOME_AGENT_REPLY_6 => Some(HOME_AGENT_REQUEST_6),
        _ => None,
    }
}

/// The counterpart of an ICMP type over this IP version: what answers it, or what it answers.
#[tactic(auto, unfolding(crate::specs::Pairs::counterpart_of))]
pub fn counterpart(version: u8, kind: u8) -> Option<u8>
    ensures value { result ≡ counterpart_of version kind }
    // The counterpart of the counterpart is the type itself.
    ensures symmetric { (other : ℕ) → result ≡ Some other → counterpart_of version other ≡ Some kind }
{
    if version == IPV4 {
        counterpart_over_ipv4(kind)
    } else {
        counterpart_over_ipv6(kind)
    }
}
