//! What is kept of what became of a frame.
ghost use Rattle.std.specs.Prelude.{◌≡◌, ℕ, Option};
ghost use Rattle.suri_base.specs.Capture.{IsSeenOf, bears_segment, linked_to, key_in};
ghost use Rattle.suri_base.specs.Slot.{packed, slot_facts, slot_key, unpacked};
ghost use Rattle.suri_base.specs.declared.frame.Frame.{Frame};
ghost use Rattle.suri_base.specs.Protocols as protocols;
ghost use Rattle.suri_base.specs.declared.seen.Seen.{Seen};
ghost use Rattle.suri_base.specs.declared.seen.Seen.TheVariants.{Bears, Counted};

use crate::address::Address;
use crate::counter::Counter;
use crate::facts::{Facts, IcmpFacts, TcpFacts};
use crate::fnv::hash;
use crate::frame::Frame;
use crate::key::{End, Key, Side, Vlans};
use crate::protocol::{ICMP, ICMPV6, IPV4, IPV6, TCP};
use crate::seen::Seen;

/// What is kept of what became of a frame, with the hash of its key: all but what the frame and its clock tell.
///
/// It is half as large as a `Seen`. Contracts see it as `packed` of what became of the frame.
#[derive(Clone, Copy, Debug)]
pub struct Slot {
    a_addr: Address,
    b_addr: Address,
    // All 0 where the protocol isn't TCP.
    tcp: TcpFacts,
    pub(crate) hash: u32,
    pub(crate) len: u32,
    pub(crate) pay_at: u32,
    pub(crate) pay_len: u32,
    next: u32,
    vlans: Vlans,
    a_port: u16,
    b_port: u16,
    // All 0 where the protocol isn't ICMP.
    icmp: IcmpFacts,
    version: u8,
    proto: u8,
    one_way: bool,
    side: Side,
    ttl: u8,
    // Where the frame bears no flow; the rest is 0 then.
    pub(crate) counter: Option<Counter>,
}

// What is kept of a TCP header that isn't there.
const NO_TCP: TcpFacts = TcpFacts {
    seq: 0,
    ack: 0,
    flags: 0,
};

// What is kept of an ICMP header that isn't there.
const NO_ICMP: IcmpFacts = IcmpFacts { kind: 0, code: 0 };

// What is kept of a frame that bears no flow.
#[inline(always)]
#[tactic(auto, unfolding(crate::specs::Slot::packed))]
fn blank(counter: Counter) -> Slot
    ensures { result ≡ packed (Counted counter) }
{
    let none = Address::of(0);
    Slot {
        counter: Some(counter),
        hash: 0,
        vlans: Vlans {
            count: 0,
            first: 0,
            second: 0,
            third: 0,
        },
        version: 0,
        proto: 0,
        one_way: false,
        a_addr: none,
        a_port: 0,
        b_addr: none,
        b_port: 0,
        side: Side::FromA,
        ttl: 0,
        len: 0,
        tcp: NO_TCP,
        icmp: NO_ICMP,
        pay_at: 0,
        pay_len: 0,
        next: 0,
    }
}

// What is kept of a frame that bears a flow.
#[inline(always)]
#[tactic(auto, unfolding(crate::specs::Slot::packed))]
fn filled(facts: &Facts) -> Slot
    ensures { result ≡ packed (Bears facts.now) }
{
    let key = &facts.key;
    Slot {
        counter: None,
        hash: hash(key),
        vlans: key.vlans,
        version: key.version,
        proto: key.proto,
        one_way: key.one_way,
        a_addr: Address::of(key.a.addr),
        a_port: key.a.port,
        b_addr: Address::of(key.b.addr),
        b_port: key.b.port,
        side: facts.side,
        ttl: facts.ttl,
        len: facts.len,
        tcp: facts.tcp.unwrap_or(NO_TCP),
        icmp: facts.icmp.unwrap_or(NO_ICMP),
        pay_at: facts.pay_at,
        pay_len: facts.pay_len,
        next: facts.next,
    }
}

// Whether the protocol is the ICMP of this IP version.
fn is_icmp(version: u8, proto: u8) -> bool
    ensures { result ≡ protocols.is_icmp version proto }
{
    matches!((version, proto), (IPV4, ICMP) | (IPV6, ICMPV6))
}

impl Slot {
    /// What is kept of what became of a frame.
    #[inline(always)]
    pub fn of(seen: &Seen) -> Slot
        ensures value { result ≡ packed seen.now }
        // Whatever frame and clock it is of, it is read back from it.
        ensures kept { (size : ℕ) (frame : Frame) (clock : ℕ) → IsSeenOf size frame clock seen.now → unpacked frame clock result ≡ seen.now }
    {
        match seen {
            Seen::Bears(facts) => filled(facts),
            Seen::Counted(counter) => blank(*counter),
        }
    }

    /// Whether the frame bears a TCP segment with payload.
    pub fn bears_segment(&self) -> bool
        ensures { (frame : Frame) (clock : ℕ) → result ≡ bears_segment (unpacked frame clock self.now) }
    {
        self.counter.is_none() && self.proto == TCP && self.pay_len > 0
    }

    // The key it keeps; of no meaning where the frame bears no flow.
    #[inline(always)]
    fn kept_key(&self) -> Key
        ensures { result ≡ slot_key self.now }
    {
        Key {
            vlans: self.vlans,
            version: self.version,
            proto: self.proto,
            one_way: self.one_way,
            a: End {
                addr: self.a_addr.number(),
                port: self.a_port,
            },
            b: End {
                addr: self.b_addr.number(),
                port: self.b_port,
            },
        }
    }

    // The facts of the frame it is of; of no meaning where the frame bears no flow.
    #[inline(always)]
    fn kept_facts(&self, frame: &Frame, clock: u64) -> Facts
        ensures { result ≡ slot_facts frame.now clock self.now }
    {
        Facts {
            no: frame.no,
            time: frame.time,
            clock,
            key: self.kept_key(),
            side: self.side,
            len: self.len,
            ttl: self.ttl,
            tcp: (self.proto == TCP).then_some(self.tcp),
            icmp: is_icmp(self.version, self.proto).then_some(self.icmp),
            pay_at: self.pay_at,
            pay_len: self.pay_len,
            next: self.next,
        }
    }

    /// What became of the frame, whose clock is in nanoseconds since 1970-01-01T00:00:00 UTC.
    #[inline(always)]
    pub fn seen(&self, frame: &Frame, clock: u64) -> Seen
        ensures { result ≡ unpacked frame.now clock self.now }
    {
        match self.counter {
            Some(counter) => Seen::Counted(counter),
            None => Seen::Bears(self.kept_facts(frame, clock)),
        }
    }

    /// The key of the frame; none where it bears no flow.
    #[inline(always)]
    pub fn key(&self) -> Option<Key>
        ensures { (seen : Seen) → self.now ≡ packed seen → result ≡ key_in seen }
    {
        match self.counter {
            Some(_) => None,
            None => Some(self.kept_key()),
        }
    }

    /// Names the next frame with the same key, or 0. Where the frame bears no flow, nothing is changed.
    #[inline(always)]
    pub fn link(&mut self, next: u32)
        ensures { (seen : Seen) → self.old ≡ packed seen → self.new ≡ packed (linked_to next seen) }
    {
        match self.counter {
            None => self.next = next,
            Some(_) => {}
        }
    }
}
