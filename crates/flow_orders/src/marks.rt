//! By what a flow stands in the orders.
ghost use Rattle.std.specs.Prelude.{◌≡◌, ◌+◌, ◌<◌, ◌^◌, ℕ, false, true, Some};
ghost use Rattle.flow_orders.specs.Flow.{Held, deadline_of, is_linked, is_unused_held};
ghost use Rattle.flow_orders.specs.Keys.{marks_of, times_in};

use bucket_flow::Flow;
use key_order::{Age, KeyPlace, place};
use suri_base::Key;

/// The keys under which a flow stands in four orders; none where it does not stand there.
#[derive(Clone, Copy, Debug, PartialEq, Eq)]
pub struct Marks {
    /// The place of its key, while it is linked.
    pub key: Option<KeyPlace>,
    /// The last clock at which it has not expired by the normal timeouts, while it is linked.
    pub due: Option<Age>,
    /// The same by the timeouts of an emergency.
    pub due_in_emergency: Option<Age>,
    /// The clock of its last packet, while it is linked and no frame uses it.
    pub unused: Option<Age>,
}

impl Marks {
    /// Those of an empty slot, and of a flow that is detached.
    pub fn none() -> Marks
        ensures empty { result ≡ marks_of None }
        ensures detached { (f : Held) → is_linked f.place ≡ false → result ≡ marks_of (Some f) }
    {
        Marks {
            key: None,
            due: None,
            due_in_emergency: None,
            unused: None,
        }
    }

    /// Those of a flow.
    pub fn of(flow: &Flow) -> Marks
        ensures { result ≡ marks_of (Some flow.now) }
    {
        if !flow.is_linked() {
            return Marks::none();
        }
        Marks::linked(
            flow.key(),
            flow.run(),
            flow.last_clock(),
            flow.deadline(false),
            flow.deadline(true),
            flow.is_unused(),
        )
    }

    /// Of those of a flow only its place among the unused.
    pub fn unused_of(flow: &Flow) -> Option<Age>
        ensures { result ≡ (marks_of (Some flow.now)).unused }
    {
        if flow.is_unused() {
            Some(Age::new(flow.last_clock(), flow.run()))
        } else {
            None
        }
    }

    /// Those of a linked flow, from its key, its run, the clock of its last packet and its two deadlines.
    pub fn linked(
        key: &Key,
        run: u32,
        last_clock: u64,
        due: u64,
        due_in_emergency: u64,
        is_unused: bool,
    ) -> Marks
        ensures { (f : Held) → is_linked f.place ≡ true → f.obj.sums.key ≡ key.now → f.run ≡ run → f.obj.sums.last_clock ≡ last_clock
            → deadline_of false f ≡ due → deadline_of true f ≡ due_in_emergency → is_unused_held f ≡ is_unused → result ≡ marks_of (Some f) }
    {
        Marks {
            key: Some(place(key)),
            due: Some(Age::new(due, run)),
            due_in_emergency: Some(Age::new(due_in_emergency, run)),
            unused: if is_unused {
                Some(Age::new(last_clock, run))
            } else {
                None
            },
        }
    }
}

/// Those marks of a flow that its packets change: all but the place of its key.
#[derive(Clone, Copy, Debug, PartialEq, Eq)]
pub struct Times {
    /// The last clock at which it has not expired by the normal timeouts, while it is linked.
    pub due: Option<Age>,
    /// The same by the timeouts of an emergency.
    pub due_in_emergency: Option<Age>,
    /// The clock of its last packet, while it is linked and no frame uses it.
    pub unused: Option<Age>,
}

impl Times {
    /// Those of a flow.
    pub fn of(flow: &Flow) -> Times
        ensures { result ≡ times_in (marks_of (Some flow.now)) }
    {
        if !flow.is_linked() {
            return Times {
                due: None,
                due_in_emergency: None,
                unused: None,
            };
        }
        let run = flow.run();
        Times {
            due: Some(Age::new(flow.deadline(false), run)),
            due_in_emergency: Some(Age::new(flow.deadline(true), run)),
            unused: Marks::unused_of(flow),
        }
    }
}
