//! What the lines of a flow record have in common.
ghost use Rattle.eve_record.specs.Fields.{WritesFields, WritesIf, count};
ghost use Rattle.eve_record.specs.Parts.{
  app_data,
  client_end,
  direction_of,
  flag_data,
  flag_fields,
  flags_text,
  line_front,
  line_source,
  port_data,
  receiver,
  sender,
  server_end,
  vlan_data,
};
ghost use Rattle.serde_json.specs.Data.{string};
ghost use Rattle.std.specs.Prelude.{◌≡◌, ◌≤◌, OnOk, Some, codes, option_map};

use crate::digits::{ascii_text, two_hex};
use crate::fields::{close_list, count, key, number, open_list, text, truth};
use crate::names::proto_name;
use flow_object::FlowLine;
use flow_sum::{Dir, Sums};
use json::Writer;
use suri_base::protocol::{TCP, UDP};
use suri_base::tcp_flag::{ACK, CWR, ECE, FIN, PSH, RST};
use suri_base::{App, End, IcmpFacts, NoMemory, Side, Vlans, Way};

/// What a line is made of: a flow record, and the texts that were made of it for the direction or both directions of
/// which the line tells. A line of both goes from the client to the server.
#[derive(Drop)]
pub struct Parts<'a> {
    pub line: &'a FlowLine,
    /// The Community ID of the flow.
    pub community: &'a str,
    /// The address of who sends.
    pub source: &'a str,
    /// The address of who receives.
    pub dest: &'a str,
    /// The time of the first packet.
    pub start: &'a str,
    /// The time of the last packet.
    pub end: &'a str,
}

// The end that is the client.
fn client(sums: &Sums) -> End
    ensures { result ≡ client_end sums.now }
{
    if sums.client.is(Side::FromA) {
        sums.key.a
    } else {
        sums.key.b
    }
}

// The end that is the server.
fn server(sums: &Sums) -> End
    ensures { result ≡ server_end sums.now }
{
    if sums.client.is(Side::FromA) {
        sums.key.b
    } else {
        sums.key.a
    }
}

/// The end that sends the packets of a direction.
pub fn source(sums: &Sums, way: Way) -> End
    ensures { result ≡ sender sums.now way }
{
    match way {
        Way::ToServer => client(sums),
        Way::ToClient => server(sums),
    }
}

/// The end that receives them.
pub fn dest(sums: &Sums, way: Way) -> End
    ensures { result ≡ receiver sums.now way }
{
    match way {
        Way::ToServer => server(sums),
        Way::ToClient => client(sums),
    }
}

/// What is counted of them.
pub fn direction(sums: &Sums, way: Way) -> Dir
    ensures { result ≡ direction_of sums.now way }
{
    match way {
        Way::ToServer => sums.ts,
        Way::ToClient => sums.tc,
    }
}

// Writes a port, for TCP and UDP.
fn write_port(out: &mut Writer, key: &str, proto: u8, port: u16) -> Result<(), NoMemory>
    ensures { OnOk result (WritesIf key.now (port_data proto port)
        out.old out.new) }
{
    if proto == TCP || proto == UDP {
        count(out, key, u64::from(port))
    } else {
        Ok(())
    }
}

// Writes the application protocol, where one was seen.
fn write_app(out: &mut Writer, app: App) -> Result<(), NoMemory>
    ensures { OnOk result (WritesIf (codes "app_proto") (app_data app)
        out.old out.new) }
{
    match app {
        App::None => Ok(()),
        App::Http => text(out, "app_proto", "http"),
        App::Tls => text(out, "app_proto", "tls"),
        App::Ssh => text(out, "app_proto", "ssh"),
        App::Dns => text(out, "app_proto", "dns"),
    }
}

/// Writes the code of an ICMP header (RFC 792; RFC 4443, section 2.1), where there is one.
pub fn write_code(out: &mut Writer, icmp: Option<IcmpFacts>) -> Result<(), NoMemory>
    ensures { OnOk result (WritesIf (codes "icmp_code") (option_map (λ i. count i.code) icmp)
        out.old out.new) }
{
    match icmp {
        None => Ok(()),
        Some(icmp) => count(out, "icmp_code", u64::from(icmp.code)),
    }
}

/// Writes its type, where there is one.
pub fn write_kind(out: &mut Writer, icmp: Option<IcmpFacts>) -> Result<(), NoMemory>
    ensures { OnOk result (WritesIf (codes "icmp_type") (option_map (λ i. count i.kind) icmp)
        out.old out.new) }
{
    match icmp {
        None => Ok(()),
        Some(icmp) => count(out, "icmp_type", u64::from(icmp.kind)),
    }
}

// Writes the ids of three VLAN tags.
fn write_three(out: &mut Writer, vlans: &Vlans) -> Result<(), NoMemory>
    requires { 3 ≤ vlans.now.count }
    ensures { OnOk result (WritesIf (codes "vlan") (vlan_data vlans.now)
        out.old out.new) }
{
    key(out, "vlan")?;
    open_list(out)?;
    number(out, u64::from(vlans.first))?;
    number(out, u64::from(vlans.second))?;
    number(out, u64::from(vlans.third))?;
    close_list(out)
}

/// Writes the VLAN ids, where there is a tag (IEEE 802.1Q, section 9.6).
pub fn write_vlans(out: &mut Writer, vlans: &Vlans) -> Result<(), NoMemory>
    ensures { OnOk result (WritesIf (codes "vlan") (vlan_data vlans.now)
        out.old out.new) }
{
    match vlans.count {
        0 => Ok(()),
        1 => {
            key(out, "vlan")?;
            open_list(out)?;
            number(out, u64::from(vlans.first))?;
            close_list(out)
        }
        2 => {
            key(out, "vlan")?;
            open_list(out)?;
            number(out, u64::from(vlans.first))?;
            number(out, u64::from(vlans.second))?;
            close_list(out)
        }
        _ => write_three(out, vlans),
    }
}

/// Writes a field that is a byte of TCP flags.
pub fn write_flags(out: &mut Writer, key: &str, flags: u8) -> Result<(), NoMemory>
    ensures { OnOk result (WritesIf key.now (Some (string (flags_text flags)))
        out.old out.new) }
{
    text(out, key, ascii_text(&two_hex(flags)))
}

/// Writes the field of a flag, where it is among the flags.
pub fn write_flag(out: &mut Writer, key: &str, flag: u8, flags: u8) -> Result<(), NoMemory>
    ensures { OnOk result
        (WritesIf key.now (flag_data flag flags) out.old out.new) }
{
    truth(out, key, flags & flag == flag)
}

/// Writes the fields of the flags from ACK to RST, in order of their keys.
pub fn write_flag_fields(out: &mut Writer, flags: u8) -> Result<(), NoMemory>
    ensures { OnOk result
        (WritesFields (flag_fields flags) out.old out.new) }
{
    write_flag(out, "ack", ACK, flags)?;
    write_flag(out, "cwr", CWR, flags)?;
    write_flag(out, "ecn", ECE, flags)?;
    write_flag(out, "fin", FIN, flags)?;
    write_flag(out, "psh", PSH, flags)?;
    write_flag(out, "rst", RST, flags)
}

/// Writes the fields with which a line begins whose event has this name.
pub fn write_front(
    out: &mut Writer,
    parts: &Parts<'_>,
    way: Way,
    event: &str,
) -> Result<(), NoMemory>
    ensures { OnOk result (WritesFields
        (line_front parts.now.line.now way parts.now.community.now parts.now.dest.now event.now)
        out.old out.new) }
{
    let sums = &parts.line.sums;
    write_app(out, parts.line.app)?;
    text(out, "community_id", parts.community)?;
    text(out, "dest_ip", parts.dest)?;
    write_port(out, "dest_port", sums.key.proto, dest(sums, way).port)?;
    text(out, "event_type", event)
}

/// Writes the fields of the protocol and of who sends.
pub fn write_source(out: &mut Writer, parts: &Parts<'_>, way: Way) -> Result<(), NoMemory>
    ensures { OnOk result (WritesFields
        (line_source parts.now.line.now way parts.now.source.now)
        out.old out.new) }
{
    let sums = &parts.line.sums;
    text(out, "proto", proto_name(sums.key.proto))?;
    text(out, "src_ip", parts.source)?;
    write_port(out, "src_port", sums.key.proto, source(sums, way).port)
}
