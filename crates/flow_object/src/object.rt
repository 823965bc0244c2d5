//! What is kept of a flow.
ghost use Rattle.std.specs.Option.{is_some, option_to_list};
ghost use Rattle.std.specs.Prelude.{
  ◌≡◌,
  ◌≢◌,
  ℕ,
  ◌+◌,
  ◌<◌,
  ◌⊎◌,
  [],
  ◌∷◌,
  List,
  length,
  IfOk,
  IfSome,
  IsSome,
  Some,
  None,
  if◌then◌else◌,
};
ghost use Rattle.flow_object.specs.Object.{class_in, class_of_run, no_stops, nodes_in, state_after, stops_in};
ghost use Rattle.flow_object.specs.Standing.{AsksFor, IsBlankObject, StandsFor, stopped_at_newest};
ghost use Rattle.flow_object.specs.Streams.{first_offer, offer_in};
ghost use Rattle.flow_sum.specs.Run.{Run, alone, with_one_more};
ghost use Rattle.flow_sum.specs.Sums.{InRange, dir_of, way_of};
ghost use Rattle.reassembly.specs.Kept.{IsBlank, Tells};
ghost use Rattle.reassembly.specs.Members.{Member, line_of};
ghost use Rattle.segment_tree.specs.declared.spot.Spot.{Spot};
ghost use Rattle.suri_base.specs.App.{or_else, payload_of};
ghost use Rattle.suri_base.specs.Capture.{HasFacts};
ghost use Rattle.suri_base.specs.Chain.{IsAlone};
ghost use Rattle.suri_base.specs.declared.app.App.{App};
ghost use Rattle.suri_base.specs.declared.stream.Offer.TheVariants.{NeedsSegment};

use crate::direction::{offer, settle};
use flow_sum::{Dir, Sums};
use reassembly::Stream;
use std::alloc::Global;
use std::marker::Model;
use suri_base::{
    App, Capture, End, Facts, Key, NoMemory, Offer, Segment, Segments, Side, StreamLine, Vlans,
    Way, protocol,
};
use tcp_session::{Class, Session, State, class};

// What stands in place of a key before a packet came.
const NO_KEY: Key = Key {
    vlans: Vlans {
        count: 0,
        first: 0,
        second: 0,
        third: 0,
    },
    version: 0,
    proto: 0,
    one_way: false,
    a: End { addr: 0, port: 0 },
    b: End { addr: 0, port: 0 },
};

/// What is kept of a flow while its packets come: its sums, its TCP session, its verdict, and its two streams.
///
/// Contracts see its setting and what it keeps. Of which run this is, is said by relations: `StandsFor` once each packet
/// was settled, `AsksFor` while the newest still needs a node.
#[derive(Drop)]
pub struct FlowObj {
    depth: u32,
    sums: Sums,
    session: Session,
    app: App,
    ts: Stream,
    tc: Stream,
}

impl Model for FlowObj {
    ghost use Rattle.flow_object.specs.Object.{Object};

    ghost Value = { Object };

    ghost view = { λ o. record { depth = o.depth; sums = o.sums; state = o.session; app = o.app; ts = o.ts; tc = o.tc } };
}

// What is counted of one direction before a packet came.
fn no_packets() -> Dir
    ensures { result ≡ dir_of [] }
{
    Dir {
        pkts: 0,
        bytes: 0,
        start: 0,
        end: 0,
        flags: 0,
        min_ttl: 0,
        max_ttl: 0,
    }
}

// An object of no run, with this setting.
fn blank(depth: u32) -> FlowObj
    ensures { IsBlankObject depth result }
{
    FlowObj {
        depth,
        sums: Sums {
            first_no: 0,
            last_no: 0,
            last_clock: 0,
            key: NO_KEY,
            client: Side::FromA,
            icmp: None,
            ts: no_packets(),
            tc: no_packets(),
        },
        session: Session::new(),
        app: App::None,
        ts: Stream::blank(depth),
        tc: Stream::blank(depth),
    }
}

impl FlowObj {
    /// An object of no run, without nodes. `depth` is its setting: of each stream the offsets below it are looked at, and with 0
    /// none is. No call changes it.
    ///
    /// # Errors
    ///
    /// `NoMemory` where there is none for the object.
    pub fn new(alloc: Global, depth: u32) -> Result<Box<FlowObj>, NoMemory>
        ensures blank { IfOk result (λ b. IsBlankObject depth b.value) }
        ensures no_nodes { IfOk result (λ b. nodes_in b.value ≡ 0) }
    {
        Ok(Box::new(alloc, blank(depth))?)
    }

    /// Begins the run of this packet, whose facts are the capture's. Whatever the object held, which was no node, it is now that
    /// of the run of this one packet.
    ///
    /// The answer is that of its stream, and never that it needs a node. Packets of other protocols than TCP bring nothing.
    pub fn begin(&mut self, facts: &Facts, capture: &Capture) -> Offer
        requires facts { HasFacts capture.now facts.now.no facts.now }
        requires nodes { nodes_in self.old ≡ 0 }
        ensures settings { self.new.depth ≡ self.old.depth }
        ensures offer { result ≡ first_offer self.old.depth facts.now.pay_at (payload_of capture.now.bytes facts.now) facts.now }
        ensures stops { stops_in self.new ≡ no_stops }
        ensures no_nodes { nodes_in self.new ≡ 0 }
        ensures begun { StandsFor self.new capture.now.bytes (alone facts.now) [] }
    {
        self.sums = Sums::first(facts);
        self.session = Session::new();
        self.app = App::None;
        self.ts = Stream::blank(self.depth);
        self.tc = Stream::blank(self.depth);
        let way = self.sums.way(facts.side);
        let answer = match way {
            Way::ToServer => offer(&mut self.ts, facts, capture),
            Way::ToClient => offer(&mut self.tc, facts, capture),
        };
        self.follow(facts);
        answer
    }

    /// Takes the next packet of the run: one of its key, later in the file, that the counts have room for. Each packet before it was
    /// settled, and the capture is still the same.
    ///
    /// The answer is that of its stream. Where it needs a node, `settle` is to follow.
    pub fn absorb(&mut self, facts: &Facts, capture: &Capture) -> Offer
        requires facts { HasFacts capture.now facts.now.no facts.now }
        requires key { facts.now.key ≡ self.old.sums.key }
        requires later { self.old.sums.last_no < facts.now.no }
        requires to_server { InRange self.old.sums.ts facts.now }
        requires to_client { InRange self.old.sums.tc facts.now }
        requires known { (r : Run) × (judged : List App) × StandsFor self.old capture.now.bytes r judged }
        ensures settings { self.new.depth ≡ self.old.depth }
        ensures stops { stops_in self.new ≡ stops_in self.old }
        ensures nodes { nodes_in self.new ≡ nodes_in self.old }
        ensures offer { (r : Run) (judged : List App) → StandsFor self.old capture.now.bytes r judged
            → result ≡ offer_in self.old capture.now.bytes r facts.now }
        // An object of a run becomes that of the run with this packet, but where the packet needs a node.
        ensures stands { (r : Run) (judged : List App) → StandsFor self.old capture.now.bytes r judged → result ≢ NeedsSegment
            → StandsFor self.new capture.now.bytes (with_one_more facts.now r) judged }
        ensures asks { (r : Run) (judged : List App) → StandsFor self.old capture.now.bytes r judged → result ≡ NeedsSegment
            → AsksFor self.new capture.now.bytes (with_one_more facts.now r) judged }
        // Only a TCP packet with payload needs a node.
        ensures payload { result ≡ NeedsSegment → IsSome facts.now.tcp × (0 < facts.now.pay_len) }
        ensures asked { result ≡ NeedsSegment → IsSome self.new.ts.asked ⊎ IsSome self.new.tc.asked }
    {
        let way = self.sums.way(facts.side);
        let answer = match way {
            Way::ToServer => offer(&mut self.ts, facts, capture),
            Way::ToClient => offer(&mut self.tc, facts, capture),
        };
        self.sums.add(facts);
        self.follow(facts);
        answer
    }

    /// Settles the packet that came last and needs a node: it is stored in this one, which has no links, or stops its stream.
    pub fn settle(&mut self, node: Option<Box<Segment>>)
        requires asked { IsSome self.old.ts.asked ⊎ IsSome self.old.tc.asked }
        requires alone { IfSome node (λ n. IsAlone n.value) }
        ensures settings { self.new.depth ≡ self.old.depth }
        ensures nodes { nodes_in self.new ≡ nodes_in self.old + length (option_to_list node) }
        // Without a node the stop of that stream is the frame of the packet that needed it; with one no stop changes.
        ensures to_server { (spot : Spot) → self.old.ts.asked ≡ Some spot
            → (self.new.tc ≡ self.old.tc) × (self.new.ts.stop ≡ (if is_some node then self.old.ts.stop else spot.no)) }
        ensures to_client { (spot : Spot) → self.old.ts.asked ≡ None → self.old.tc.asked ≡ Some spot
            → (self.new.ts ≡ self.old.ts) × (self.new.tc.stop ≡ (if is_some node then self.old.tc.stop else spot.no)) }
        ensures stops { (bytes : List ℕ) (r : Run) (judged : List App) → AsksFor self.old bytes r judged
            → stops_in self.new ≡ (if is_some node then stops_in self.old else stopped_at_newest r (stops_in self.old)) }
        // An object that asks for a node for the newest packet of a run becomes that of the run.
        ensures stands { (bytes : List ℕ) (r : Run) (judged : List App) → AsksFor self.old bytes r judged
            → StandsFor self.new bytes r judged }
    {
        if self.ts.asks() {
            settle(&mut self.ts, node);
        } else {
            settle(&mut self.tc, node);
        }
    }

    /// Hands out all nodes, also those that wait.
    pub(crate) fn all(&mut self) -> Segments
        ensures nodes { length result ≡ nodes_in self.old }
        ensures kept { self.new ≡ record self.old { ts = record self.old.ts { waiting = []; freed = 0 }; tc = record self.old.tc { waiting = []; freed = 0 } } }
    {
        let mut nodes = self.ts.all();
        let mut others = self.tc.all();
        while let Some(node) = others.pop() {
            nodes.push(node);
        }
        nodes
    }

    /// Tells both streams, and makes them blank.
    pub(crate) fn end(&mut self) -> (StreamLine, StreamLine)
        requires { nodes_in self.old ≡ 0 }
        ensures to_server { (members : List Member) → Tells self.old.ts members → result.0 ≡ line_of self.old.ts.depth self.old.ts.stop members }
        ensures to_client { (members : List Member) → Tells self.old.tc members → result.1 ≡ line_of self.old.tc.depth self.old.tc.stop members }
        ensures settings { self.new.depth ≡ self.old.depth }
        ensures blank { IsBlank self.old.ts.depth self.new.ts × IsBlank self.old.tc.depth self.new.tc }
    {
        (self.ts.end(), self.tc.end())
    }

    /// Hands out the nodes that no longer wait. The object may be used on.
    pub fn freed(&mut self) -> Segments
        ensures freed { length result ≡ self.old.ts.freed + self.old.tc.freed }
        ensures kept { self.new ≡ record self.old { ts = record self.old.ts { freed = 0 }; tc = record self.old.tc { freed = 0 } } }
        ensures stands { (bytes : List ℕ) (r : Run) (judged : List App) → StandsFor self.old bytes r judged → StandsFor self.new bytes r judged }
    {
        let mut nodes = self.ts.freed();
        let mut others = self.tc.freed();
        while let Some(node) = others.pop() {
            nodes.push(node);
        }
        nodes
    }

    // Moves the session by a packet of the run.
    fn follow(&mut self, facts: &Facts)
        ensures { self.new ≡ record self.old { state = state_after facts.now.tcp (way_of self.old.sums.client facts.now.side) self.old.state } }
    {
        if let Some(tcp) = facts.tcp {
            let way = self.sums.way(facts.side);
            self.session.step(tcp.flags, way);
        }
    }

    /// Takes the verdict on a packet: the first that isn't `None` is kept.
    pub fn judge(&mut self, app: App)
        ensures kept { self.new ≡ record self.old { app = or_else self.old.app app } }
        // An object of some verdicts becomes that of these and this one.
        ensures stands { (bytes : List ℕ) (r : Run) (judged : List App) → StandsFor self.old bytes r judged → StandsFor self.new bytes r (app ∷ judged) }
    {
        if self.app == App::None {
            self.app = app;
        }
    }

    /// The verdict so far.
    pub fn app(&self) -> App
        ensures { result ≡ self.now.app }
    {
        self.app
    }

    /// The class of the flow, by which its timeout goes: that of the session for TCP; for other protocols `New`
    /// until both directions have a packet, then `Established` (this project's own rule).
    pub fn class(&self) -> Class
        ensures value { result ≡ class_in self.now }
        // It is the class of the run's packets.
        ensures of_run { (bytes : List ℕ) (r : Run) (judged : List App) → StandsFor self.now bytes r judged → result ≡ class_of_run r }
    {
        if self.sums.key.proto == protocol::TCP {
            class(self.session.state())
        } else if self.sums.ts.pkts == 0 || self.sums.tc.pkts == 0 {
            Class::New
        } else {
            Class::Established
        }
    }

    /// The state of its session.
    pub(crate) fn state(&self) -> State
        ensures { result ≡ self.now.state }
    {
        self.session.state()
    }

    /// What is counted of the run.
    pub fn sums(&self) -> &Sums
        ensures { result.now ≡ self.now.sums }
    {
        &self.sums
    }
}
