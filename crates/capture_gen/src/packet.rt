//! The packets of a generated capture.
ghost use Rattle.capture_gen.specs.Packet.{
  addresses,
  body,
  from_client,
  ip_header,
  packet,
  ping_message,
  ping_type,
  ports,
  protocol_of,
  query_datagram,
  query_flags,
  web_segment,
};
ghost use Rattle.std.specs.Prelude.{◌≡◌, ◌<◌, ◌≤◌, ◌++◌, OnOk, length};

use crate::conversation::{Conversation, Kind};
use crate::web::{Segment, payload_size, segment_of, write_payload};
use suri_base::NoMemory;

// The ports of the servers.
const HTTP: u16 = 80;

const DOMAIN: u16 = 53;

// Writes the addresses of who sends and who receives.
fn write_addresses(
    out: &mut Vec<u8>,
    lane: u8,
    c: &Conversation,
    from_client: bool,
) -> Result<(), NoMemory>
    ensures { OnOk result (out.new.items ≡ out.old.items ++ addresses lane c.now from_client) }
{
    if from_client {
        out.extend_from_slice(&[10, 0, lane, c.client, 192, 0, 2, c.server])?;
    } else {
        out.extend_from_slice(&[192, 0, 2, c.server, 10, 0, lane, c.client])?;
    }
    Ok(())
}

// Writes the ports of who sends and who receives, where the server has this one.
#[tactic(auto, using(std::proofs::lemmas::List::append_assoc))]
fn write_ports(
    out: &mut Vec<u8>,
    service: u16,
    c: &Conversation,
    from_client: bool,
) -> Result<(), NoMemory>
    ensures { OnOk result (out.new.items ≡ out.old.items ++ ports service c.now from_client) }
{
    let (sender, receiver) = if from_client {
        (c.port, service)
    } else {
        (service, c.port)
    };
    out.extend_from_slice(&sender.to_be_bytes())?;
    out.extend_from_slice(&receiver.to_be_bytes())?;
    Ok(())
}

// Writes a header before a body of this size.
#[tactic(auto, using(std::proofs::lemmas::List::append_assoc))]
fn write_ip_header(
    out: &mut Vec<u8>,
    lane: u8,
    c: &Conversation,
    from_client: bool,
    protocol: u8,
    size: u16,
) -> Result<(), NoMemory>
    requires { size < 600 }
    ensures { OnOk result (out.new.items ≡ out.old.items ++ ip_header lane c.now from_client protocol size) }
{
    out.extend_from_slice(&[0x45, 0])?;
    out.extend_from_slice(&(20 + size).to_be_bytes())?;
    out.extend_from_slice(&[0, 0, 0x40, 0, 64, protocol, 0, 0])?;
    write_addresses(out, lane, c, from_client)
}

// Writes a segment to or from port 80.
#[tactic(auto, using(std::proofs::lemmas::List::append_assoc))]
fn write_web(out: &mut Vec<u8>, c: &Conversation, s: &Segment) -> Result<(), NoMemory>
    requires { c.now.size < 400 }
    ensures { OnOk result (out.new.items ≡ out.old.items ++ web_segment c.now s.now) }
{
    write_ports(out, HTTP, c, s.from_client)?;
    out.extend_from_slice(&s.seq.to_be_bytes())?;
    out.extend_from_slice(&s.ack.to_be_bytes())?;
    out.extend_from_slice(&[0x50, s.flags, 0xff, 0xff, 0, 0, 0, 0])?;
    write_payload(out, c.size, s.payload)
}

// Writes the flags of a question, or of its answer.
fn write_query_flags(out: &mut Vec<u8>, step: u8) -> Result<(), NoMemory>
    ensures { OnOk result (out.new.items ≡ out.old.items ++ query_flags step) }
{
    if step == 1 {
        out.extend_from_slice(&[0x01, 0x00])?;
    } else {
        out.extend_from_slice(&[0x81, 0x80])?;
    }
    Ok(())
}

// Writes a datagram to or from port 53.
#[tactic(auto, using(std::proofs::lemmas::List::append_assoc))]
fn write_query(out: &mut Vec<u8>, c: &Conversation, step: u8) -> Result<(), NoMemory>
    ensures { OnOk result (out.new.items ≡ out.old.items ++ query_datagram c.now step) }
{
    write_ports(out, DOMAIN, c, step == 1)?;
    out.extend_from_slice(&[0, 29, 0, 0, 0x12, 0x34])?;
    write_query_flags(out, step)?;
    out.extend_from_slice(&[0, 1, 0, 0, 0, 0, 0, 0, 3, 0x77, 0x77, 0x77, 0, 0, 1, 0, 1])?;
    Ok(())
}

// The type of an echo, or of its reply.
fn ping_type(step: u8) -> u8
    ensures { result ≡ ping_type step }
{
    if step == 1 { 8 } else { 0 }
}

// Writes an echo, or its reply.
#[tactic(auto, using(std::proofs::lemmas::List::append_assoc))]
fn write_ping(out: &mut Vec<u8>, step: u8) -> Result<(), NoMemory>
    ensures { OnOk result (out.new.items ≡ out.old.items ++ ping_message step) }
{
    out.extend_from_slice(&[ping_type(step), 0, 0, 0, 0, 1, 0, 1])?;
    out.extend_from_slice(&[0; 56])?;
    Ok(())
}

// Writes what a packet bears at a step of a conversation.
fn write_body(out: &mut Vec<u8>, c: &Conversation, step: u8) -> Result<(), NoMemory>
    requires { c.now.size < 400 }
    ensures { OnOk result (out.new.items ≡ out.old.items ++ body c.now c.now.kind step) }
{
    match c.kind {
        Kind::Web => write_web(out, c, &segment_of(c.size, step)),
        Kind::Query => write_query(out, c, step),
        Kind::Ping => write_ping(out, step),
    }
}

/// How many bytes that is.
pub fn body_size(c: &Conversation, step: u8) -> u16
    requires { c.now.size < 400 }
    ensures value { result ≡ length (body c.now c.now.kind step) }
    ensures small { result < 600 }
{
    match c.kind {
        Kind::Web => 20 + payload_size(c.size, segment_of(c.size, step).payload),
        Kind::Query => 29,
        Kind::Ping => 64,
    }
}

// Whether the client sends this step.
fn from_client(c: &Conversation, step: u8) -> bool
    ensures { result ≡ from_client c.now c.now.kind step }
{
    match c.kind {
        Kind::Web => segment_of(c.size, step).from_client,
        Kind::Query | Kind::Ping => step == 1,
    }
}

// The protocol's number.
fn protocol_of(kind: Kind) -> u8
    ensures { result ≡ protocol_of kind }
{
    match kind {
        Kind::Web => 6,
        Kind::Query => 17,
        Kind::Ping => 1,
    }
}

/// Writes the packet of a step.
#[tactic(auto, using(std::proofs::lemmas::List::append_assoc))]
pub fn write_packet(out: &mut Vec<u8>, lane: u8, c: &Conversation, step: u8) -> Result<(), NoMemory>
    requires { c.now.size < 400 }
    ensures { OnOk result (out.new.items ≡ out.old.items ++ packet lane c.now step) }
{
    let size = body_size(c, step);
    let from_client = from_client(c, step);
    write_ip_header(out, lane, c, from_client, protocol_of(c.kind), size)?;
    write_body(out, c, step)
}
