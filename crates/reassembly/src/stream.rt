//! The stream of one direction of a TCP run.
ghost use Rattle.std.specs.Prelude.{◌≡◌, ◌≢◌, ℕ, ◌+◌, ◌<◌, [], ◌∷◌, List, length, None, Some, IsSome, IsTrue, ◌↔◌};
ghost use Rattle.suri_base.specs.Chain.{IsAlone};
ghost use Rattle.suri_base.specs.declared.stream.Offer.TheVariants.{NeedsSegment};
ghost use Rattle.reassembly.specs.Kept.{AllLieIn, Asks, IsBlank, LiesIn, Stands, Tells, held, newest_of};
ghost use Rattle.reassembly.specs.Members.{Member, line_of, member, offer_of};

use crate::chain::{move_all, release};
use crate::digest::take_digest;
use crate::offset::{opening, placed, sequence};
use crate::stretch::{answer, take_stretches};
use segment_tree::{SegmentTree, Spot};
use sha1::Sha1;
use std::marker::Model;
use std::mem;
use suri_base::{Offer, Segment, Segments, StreamLine, TcpFacts};

/// The stream of one direction of a TCP run: the bytes that its segments, the members, bring from the base on, where
/// the earliest member wins that has a byte (this project's own rule over RFC 9293, section 3.4).
///
/// Contracts see its setting and what it keeps. Which members these are of is said by relations: `Stands` once each
/// member was settled, `Asks` while the newest still needs a node.
#[derive(Drop)]
pub struct Stream {
    // Offsets from this one on are not looked at.
    depth: u32,
    // The sequence number at offset 0.
    base: Option<u32>,
    // How many bytes came without a gap. They were digested.
    frontier: u32,
    // Where the frontier is 0 it holds no byte.
    hasher: Sha1,
    // The nodes of members that begin beyond the frontier.
    waiting: SegmentTree,
    // The nodes that no longer wait.
    freed: Segments,
    // The frame at which it was stopped, or 0.
    stop: u32,
    // The member that needs a node.
    asked: Option<Spot>,
}

impl Model for Stream {
    ghost use Rattle.reassembly.specs.Kept.{KeptStream};

    ghost Value = { KeptStream };

    ghost use Rattle.std.specs.Prelude.{length};
    ghost use Rattle.segment_tree.specs.Order.{newest_first};

    ghost view = { λ s. record {
      depth = s.depth;
      base = s.base;
      frontier = s.frontier;
      hasher = s.hasher;
      waiting = newest_first s.waiting;
      freed = length s.freed;
      stop = s.stop;
      asked = s.asked;
    } };

    ghost use Rattle.std.specs.Prelude.{◌≡◌, []};
    ghost use Rattle.std.specs.Option.{IfSome};
    ghost use Rattle.reassembly.specs.Nodes.{MayWait};
    ghost use Rattle.sha1.specs.Sha1.{Holds};

    ghost invariant = { λ s. IfSome s.asked (λ spot. MayWait s.waiting spot) × (s.frontier ≡ 0 → Holds s.hasher []) };
}

impl Stream {
    /// A stream without base, byte, stop or node. `depth` is its setting: offsets from this one on are not looked at, and
    /// with 0 none is.
    pub fn blank(depth: u32) -> Stream
        ensures { IsBlank depth result }
    {
        Stream {
            depth,
            base: None,
            frontier: 0,
            hasher: Sha1::new(),
            waiting: SegmentTree::new(),
            freed: Segments::new(),
            stop: 0,
            asked: None,
        }
    }

    /// How many bytes it has: those that came without a gap, below the depth.
    pub fn bytes(&self) -> u32
        ensures { result ≡ self.now.frontier }
    {
        self.frontier
    }

    /// Whether the member that was offered last needs a node, and neither `store` nor `stop` settled it.
    pub fn asks(&self) -> bool
        ensures { IsTrue result ↔ IsSome self.now.asked }
    {
        self.asked.is_some()
    }

    /// The number of the frame at which it was stopped, from 1, or 0.
    pub fn stopped_at(&self) -> u32
        ensures { result ≡ self.now.stop }
    {
        self.stop
    }

    /// Offers the next member: the number of its frame, its TCP header, its payload with the place of this in the
    /// capture's bytes, and these bytes, in which the payloads of the members before it lie too. The earlier members were
    /// settled and have lesser frame numbers, of which the least is 1.
    ///
    /// - `Stopped` comes where the stream was stopped.
    /// - `Nothing` comes where it wasn't, and an earlier member has each byte that lies at offsets from 0 to the depth.
    /// - `InOrder` comes where such a byte is new and the member begins at or before the frontier. This then moves to the
    ///   first offset that no member has, and the nodes that it passed are free.
    /// - `NeedsSegment` comes where such a byte is new and the member begins beyond the frontier. `store` or `stop` is to
    ///   settle it.
    pub fn offer(
        &mut self,
        no: u32,
        tcp: &TcpFacts,
        payload: &[u8],
        pay_at: u32,
        bytes: &[u8],
    ) -> Offer
        requires payload { LiesIn bytes.now pay_at payload.now }
        requires known { (members : List Member) × Stands self.old members × AllLieIn bytes.now members × (newest_of members < no) }
        ensures settings { self.new.depth ≡ self.old.depth }
        ensures stop { self.new.stop ≡ self.old.stop }
        ensures nodes { held self.new ≡ held self.old }
        // A member that needs a node leaves nothing behind but the base and its own place.
        ensures kept { result ≡ NeedsSegment → self.new ≡ record self.old { base = self.new.base; asked = self.new.asked } }
        ensures payload { result ≡ NeedsSegment → 0 < length payload.now }
        // The answer is that to this member, seen from those before it.
        ensures offer { (members : List Member) → Stands self.old members → AllLieIn bytes.now members → newest_of members < no
            → result ≡ offer_of self.old.depth self.old.stop members (member no tcp.now pay_at payload.now) }
        // A stream of some members becomes that of these and this one, but where the member needs a node.
        ensures stands { (members : List Member) → Stands self.old members → AllLieIn bytes.now members → newest_of members < no
            → result ≢ NeedsSegment → Stands self.new (member no tcp.now pay_at payload.now ∷ members) }
        ensures asks { (members : List Member) → Stands self.old members → AllLieIn bytes.now members → newest_of members < no
            → result ≡ NeedsSegment → Asks self.new (member no tcp.now pay_at payload.now) members }
    {
        if self.stop != 0 {
            return Offer::Stopped;
        }
        let base = self.base.or(opening(tcp, payload));
        self.base = base;
        // Without a base there is no payload, whatever its offset.
        let (first, packet) = placed(self.depth, base.unwrap_or(0), sequence(tcp), payload);
        let offer = answer(&self.waiting, self.frontier, first, packet, bytes);
        match offer {
            Offer::NeedsSegment => {
                self.asked = Some(Spot {
                    no,
                    first,
                    at: pay_at,
                    len: packet.len() as u32,
                });
            }
            Offer::InOrder => {
                self.frontier = take_stretches(
                    &mut self.hasher,
                    &self.waiting,
                    self.frontier,
                    self.depth,
                    first,
                    packet,
                    bytes,
                );
                release(&mut self.waiting, &mut self.freed, self.frontier);
            }
            Offer::Nothing | Offer::Stopped => {}
        }
        offer
    }

    /// Stores the member that was offered last and needs a node in this one, which has no links.
    pub fn store(&mut self, mut node: Box<Segment>)
        requires asked { IsSome self.old.asked }
        requires alone { IsAlone node.value }
        ensures kept { (spot : Spot) → self.old.asked ≡ Some spot → self.new ≡ record self.old { asked = None; waiting = spot ∷ self.old.waiting } }
        ensures stands { (m : Member) (members : List Member) → Asks self.old m members → Stands self.new (m ∷ members) }
    {
        if let Some(spot) = self.asked {
            self.asked = None;
            spot.write(&mut node);
            self.waiting.insert(node);
        }
    }

    /// Stops the stream at the member that was offered last and needs a node: neither it nor a later one counts, and all
    /// nodes are free.
    pub fn stop(&mut self)
        requires asked { IsSome self.old.asked }
        ensures kept { (spot : Spot) → self.old.asked ≡ Some spot
            → self.new ≡ record self.old { asked = None; stop = spot.no; waiting = []; freed = length self.old.waiting + self.old.freed } }
        ensures stands { (m : Member) (members : List Member) → Asks self.old m members → Stands self.new (m ∷ members) }
    {
        if let Some(spot) = self.asked {
            self.asked = None;
            self.stop = spot.no;
            let waiting = mem::replace(&mut self.waiting, SegmentTree::new());
            move_all(&mut self.freed, waiting);
        }
    }

    /// Hands out the nodes that no longer wait, since the frontier passed them or the stream was stopped.
    pub fn freed(&mut self) -> Segments
        ensures freed { length result ≡ self.old.freed }
        ensures kept { self.new ≡ record self.old { freed = 0 } }
    {
        mem::replace(&mut self.freed, Segments::new())
    }

    /// Hands out all nodes, also those that wait. Where one waited, no member can be offered any more until `end`.
    pub fn all(&mut self) -> Segments
        ensures freed { length result ≡ held self.old }
        ensures kept { self.new ≡ record self.old { waiting = []; freed = 0 } }
    {
        let mut nodes = mem::replace(&mut self.freed, Segments::new());
        let waiting = mem::replace(&mut self.waiting, SegmentTree::new());
        move_all(&mut nodes, waiting);
        nodes
    }

    /// Tells how many bytes came without a gap, their digest, and the stop. Afterwards the stream is blank, with its setting.
    /// It holds no node.
    pub fn end(&mut self) -> StreamLine
        requires { held self.old ≡ 0 }
        ensures line { (members : List Member) → Tells self.old members → result ≡ line_of self.old.depth self.old.stop members }
        ensures blank { IsBlank self.old.depth self.new }
    {
        let line = StreamLine {
            bytes: self.frontier,
            digest: take_digest(&mut self.hasher, self.frontier),
            stop: self.stop,
        };
        self.base = None;
        self.frontier = 0;
        self.stop = 0;
        self.asked = None;
        line
    }
}
