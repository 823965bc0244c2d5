//! A flow of a bucket.
ghost use Rattle.std.specs.Option.{is_some};
ghost use Rattle.std.specs.Prelude.{◌≡◌, ◌<◌, ◌≤◌, ◌^◌, ◌&&◌, ℕ, List, false, IfSome, OnOk, Some, length};
ghost use Rattle.suri_base.specs.Chain.{IsAlone};
ghost use Rattle.suri_base.specs.declared.app.App.{App};
ghost use Rattle.flow_expiry.specs.Expiry.{object_expired};
ghost use Rattle.flow_object.specs.Object.{nodes_in};
ghost use Rattle.flow_object.specs.Standing.{AsksFor, StandsFor};
ghost use Rattle.flow_sum.specs.Run.{Run};
ghost use Rattle.bucket_rules.specs.Row.{has, is_linked, is_none_of, off};
ghost use Rattle.bucket_flow.specs.Dues.{deadline_of};
ghost use Rattle.bucket_flow.specs.Flows.{is_due_held, swept_held, drained_held};
ghost use Rattle.bucket_flow.specs.Held.{
  Held,
  IsFine,
  Closed,
  Joined,
  IsMade,
  Settled,
  cut_at,
  ended_by,
  is_unused_held,
  off_by,
  gone_by,
  place_of,
};

use crate::facts::facts_of;
use flow_expiry::{has_expired, reuses_key};
use flow_object::{Ended, FlowObj};
use flow_uses::Uses;
use std::marker::Model;
use suri_base::{App, Capture, Facts, Key, NoMemory, Offer, Reason, Segment, Segments};
use timeout_table::timeout;

/// Why a flow was detached.
#[derive(Clone, Copy, Debug, PartialEq, Eq)]
pub struct Cause {
    pub reason: Reason,
    pub emergency: bool,
}

/// A flow of a bucket: linked, or detached for a cause.
#[derive(Drop)]
pub struct Flow {
    run: u32,
    off: Option<Cause>,
    obj: Box<FlowObj>,
    uses: Uses,
}

impl Model for Flow {
    ghost use Rattle.bucket_flow.specs.Held.{Held, IsSmall, place_of};

    ghost Value = { Held };

    ghost view = { λ f. record { run = f.run; place = place_of f.off; uses = f.uses.frames; room = f.uses.room; obj = f.obj.value } };

    // With it no count overflows, whatever the history is.
    ghost invariant = { λ f. IsSmall f.obj.value };
}

impl Flow {
    /// The flow that begins with a packet, in an object that is used again, and the answer of the packet's stream.
    pub fn begin(
        mut obj: Box<FlowObj>,
        uses: Uses,
        facts: &Facts,
        capture: &Capture,
    ) -> (Flow, Offer)
        requires facts { IsFine capture.now facts.now.no facts.now }
        requires nodes { nodes_in obj.value ≡ 0 }
        requires unused { (u : ℕ) → has uses.frames u ≡ false }
        requires room { 0 < uses.room }
        ensures { IsMade capture.now.bytes facts.now obj.value.depth result.1 result.0 }
    {
        let offer = obj.begin(facts, capture);
        let mut uses = uses;
        uses.begin_use(facts.no);
        let flow = Flow {
            run: facts.no,
            off: None,
            obj,
            uses,
        };
        (flow, offer)
    }

    /// The number of its first frame.
    pub fn run(&self) -> u32
        ensures { result ≡ self.now.run }
    {
        self.run
    }

    /// The key of its packets.
    pub fn key(&self) -> &Key
        ensures { result.now ≡ self.now.obj.sums.key }
    {
        &self.obj.sums().key
    }

    /// Whether it is linked.
    pub fn is_linked(&self) -> bool
        ensures { result ≡ is_linked self.now.place }
    {
        self.off.is_none()
    }

    /// Whether no frame uses it.
    pub fn is_free(&self) -> bool
        ensures { result ≡ is_none_of self.now.uses }
    {
        self.uses.count() == 0
    }

    /// Whether it is linked and no frame uses it.
    pub fn is_unused(&self) -> bool
        ensures { result ≡ is_unused_held self.now }
    {
        self.off.is_none() && self.uses.count() == 0
    }

    /// The clock at its last packet, in nanoseconds since 1970-01-01T00:00:00 UTC.
    pub fn last_clock(&self) -> u64
        ensures { result ≡ self.now.obj.sums.last_clock }
    {
        self.obj.sums().last_clock
    }

    /// The last clock at which it hasn't expired, by the timeouts of `emergency` or by the normal ones.
    pub fn deadline(&self, emergency: bool) -> u64
        ensures { result ≡ deadline_of emergency self.now }
    {
        let sums = self.obj.sums();
        sums.last_clock + timeout(sums.key.proto, self.obj.class(), emergency)
    }

    // Whether it had expired at a clock.
    fn had_expired(&self, clock: u64, emergency: bool) -> bool
        ensures { result ≡ object_expired self.now.obj clock emergency }
    {
        has_expired(&self.obj, clock, emergency)
    }

    /// Why a packet of its key detaches it, where it does.
    pub fn cut(&self, facts: &Facts, emergency: bool) -> Option<Cause>
        ensures { result ≡ cut_at self.now.obj facts.now emergency }
    {
        if self.had_expired(facts.clock, emergency) {
            Some(Cause {
                reason: Reason::Timeout,
                emergency,
            })
        } else if reuses_key(&self.obj, facts) {
            Some(Cause {
                reason: Reason::TcpReuse,
                emergency: false,
            })
        } else {
            None
        }
    }

    /// Takes a packet of its key. The answer is that of its stream: where it needs a node, `settle` is to follow.
    pub fn join(&mut self, facts: &Facts, capture: &Capture) -> Offer
        requires facts { IsFine capture.now facts.now.no facts.now }
        requires key { facts.now.key ≡ self.old.obj.sums.key }
        requires later { self.old.obj.sums.last_no < facts.now.no }
        requires room { 0 < self.old.room }
        requires new { has self.old.uses facts.now.no ≡ false }
        requires known { (r : Run) × (judged : List App) × StandsFor self.old.obj capture.now.bytes r judged }
        ensures { Joined capture.now.bytes facts.now result self.old self.new }
    {
        self.uses.begin_use(facts.no);
        self.obj.absorb(facts, capture)
    }

    /// Stores its newest packet in a node, or stops the stream of it there.
    pub fn settle(&mut self, node: Option<Box<Segment>>)
        requires asks { (bytes : List ℕ) × (r : Run) × (judged : List App) × AsksFor self.old.obj bytes r judged }
        requires alone { IfSome node (λ n. IsAlone n.value) }
        ensures { (bytes : List ℕ) → Settled bytes (is_some node) self.old self.new }
    {
        self.obj.settle(node);
    }

    // Whether it had expired at a clock, and no packet of its key comes among the first `start` frames after its last.
    fn is_due(&self, capture: &Capture, start: u32, clock: u64, emergency: bool) -> bool
        ensures { result ≡ is_due_held capture.now start clock emergency self.now }
    {
        if !self.had_expired(clock, emergency) {
            return false;
        }
        match facts_of(capture, self.obj.sums().last_no) {
            None => false,
            Some(facts) => facts.next == 0 || facts.next > start,
        }
    }

    /// It is detached where it is linked and due.
    pub fn sweep(&mut self, capture: &Capture, start: u32, clock: u64, emergency: bool)
        ensures { self.new ≡ swept_held capture.now start clock emergency self.old }
    {
        if self.is_linked() && self.is_due(capture, start, clock, emergency) {
            self.detach(Cause {
                reason: Reason::Timeout,
                emergency,
            });
        }
    }

    /// It is detached where it is linked, at the end of a capture with that last clock.
    pub fn drain(&mut self, clock: u64)
        ensures { self.new ≡ drained_held clock self.old }
    {
        if !self.is_linked() {
            return;
        }
        if self.had_expired(clock, false) {
            self.detach(Cause {
                reason: Reason::Timeout,
                emergency: false,
            });
        } else {
            self.detach(Cause {
                reason: Reason::Shutdown,
                emergency: false,
            });
        }
    }

    /// The use of a frame ends, with the verdict on it. Hands out the nodes that no longer wait.
    pub fn close(&mut self, no: u32, app: App) -> Segments
        ensures closed { Closed no app (length result) self.old self.new }
        ensures sums { self.new.obj.sums ≡ self.old.obj.sums }
        ensures state { self.new.obj.state ≡ self.old.obj.state }
        ensures few { length result < 2 ^ 32 }
    {
        self.obj.judge(app);
        self.uses.end_use(no);
        self.obj.freed()
    }

    /// It is detached.
    pub fn detach(&mut self, cause: Cause)
        ensures { self.new ≡ off_by cause self.old }
    {
        self.off = Some(cause);
    }

    /// It leaves, for that cause.
    pub fn end(self, cause: Cause) -> Ended
        ensures { result ≡ ended_by (off cause.reason cause.emergency) self }
    {
        let Flow {
            run,
            off: _,
            obj,
            uses: _,
        } = self;
        Ended {
            run,
            reason: cause.reason,
            emergency: cause.emergency,
            obj,
        }
    }

    /// The cause for which it was detached, where nothing uses it any more.
    pub fn gone(&self) -> Option<Cause>
        ensures { result ≡ gone_by self.now }
    {
        match self.off {
            Some(cause) if self.uses.count() == 0 => Some(cause),
            _ => None,
        }
    }

    /// Makes room for one more use, where there is none.
    pub fn reserve(&mut self) -> Result<(), NoMemory>
        ensures room { OnOk result (0 < self.new.room) }
        ensures kept { self.old.room ≤ self.new.room }
        ensures same { record self.new { room = 0 } ≡ record self.old { room = 0 } }
    {
        self.uses.reserve()
    }
}
