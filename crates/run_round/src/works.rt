//! Workers beside each other.
ghost use Rattle.std.specs.Prelude.{◌≡◌, ℕ, ◌<◌, All, length, slice_index_or};

use std::sync::Wait;
use std::thread;
use std::thread::Threads;
use suri_outside::Gate;

/// What does its part of a work on what all share, and tells a gate how far it is.
pub trait Works<S> {
    ghost ready: { S → Self → Type 0 };

    ghost done: { S → Self → Self → Type 0 };

    fn work<R: Wait, G: Gate>(&mut self, rt: &R, shared: &S, gate: &G)
        requires { ready shared.now self.old }
        ensures { done shared.now self.old self.new };
}

// Each does its part in turn.
fn work_in_turn<S: Sync, T: Works<S> + Send, R: Threads + Wait + Sync, G: Gate + Sync>(
    rt: &R,
    shared: &S,
    gate: &G,
    workers: &mut [T],
)
    requires ready { All (λ w. T.ready shared.now w) workers.old }
    ensures length { length workers.new ≡ length workers.old }
    ensures done { (i : ℕ) (d : T) → i < length workers.old → T.done shared.now (slice_index_or workers.old i d) (slice_index_or workers.new i d) }
{
    thread::for_each_mut(rt, workers, 1, &|_, worker| worker.work(rt, shared, gate));
}

// The others do their parts each in a thread of its own, started by this one, while these do theirs in turn in this one.
#[cycle(works)]
fn work_beside<S: Sync, T: Works<S> + Send, R: Threads + Wait + Sync, G: Gate + Sync>(
    rt: &R,
    shared: &S,
    gate: &G,
    own: &mut [T],
    others: &mut [T],
)
    requires own { All (λ w. T.ready shared.now w) own.old }
    requires others { All (λ w. T.ready shared.now w) others.old }
    ensures own_length { length own.new ≡ length own.old }
    ensures others_length { length others.new ≡ length others.old }
    ensures own { (i : ℕ) (d : T) → i < length own.old → T.done shared.now (slice_index_or own.old i d) (slice_index_or own.new i d) }
    ensures others { (i : ℕ) (d : T) → i < length others.old → T.done shared.now (slice_index_or others.old i d) (slice_index_or others.new i d) }
{
    if others.is_empty() {
        work_in_turn(rt, shared, gate, own);
        return;
    }
    let (one, rest) = others.split_at_mut(1);
    start_one(rt, shared, gate, own, one, rest);
}

// One does its part in a thread of its own, while all others do theirs.
#[cycle(works)]
fn start_one<S: Sync, T: Works<S> + Send, R: Threads + Wait + Sync, G: Gate + Sync>(
    rt: &R,
    shared: &S,
    gate: &G,
    own: &mut [T],
    one: &mut [T],
    rest: &mut [T],
)
    requires own { All (λ w. T.ready shared.now w) own.old }
    requires one { All (λ w. T.ready shared.now w) one.old }
    requires rest { All (λ w. T.ready shared.now w) rest.old }
    ensures own_length { length own.new ≡ length own.old }
    ensures one_length { length one.new ≡ length one.old }
    ensures rest_length { length rest.new ≡ length rest.old }
    ensures own { (i : ℕ) (d : T) → i < length own.old → T.done shared.now (slice_index_or own.old i d) (slice_index_or own.new i d) }
    ensures one { (i : ℕ) (d : T) → i < length one.old → T.done shared.now (slice_index_or one.old i d) (slice_index_or one.new i d) }
    ensures rest { (i : ℕ) (d : T) → i < length rest.old → T.done shared.now (slice_index_or rest.old i d) (slice_index_or rest.new i d) }
{
    let mut front = ||
        requires { All (λ w. T.ready shared.now w) one.now }
        ensures length { length one.exit.now ≡ length one.entry.now }
        ensures done { (i : ℕ) (d : T) → i < length one.entry.now → T.done shared.entry.now (slice_index_or one.entry.now i d) (slice_index_or one.exit.now i d) }
    { work_in_turn(rt, shared, gate, one) };
    let mut back = ||
        requires { All (λ w. T.ready shared.now w) own.now × All (λ w. T.ready shared.now w) rest.now }
        ensures own_length { length own.exit.now ≡ length own.entry.now }
        ensures rest_length { length rest.exit.now ≡ length rest.entry.now }
        ensures own { (i : ℕ) (d : T) → i < length own.entry.now → T.done shared.entry.now (slice_index_or own.entry.now i d) (slice_index_or own.exit.now i d) }
        ensures rest { (i : ℕ) (d : T) → i < length rest.entry.now → T.done shared.entry.now (slice_index_or rest.entry.now i d) (slice_index_or rest.exit.now i d) }
    { work_beside(rt, shared, gate, own, rest) };
    thread::join_mut(rt, &mut front, &mut back);
}

/// Each does its part, in as many threads as are asked for: the first ones in turn in this thread, and each other in one of its own. With
/// one thread all take turns, in order. This thread starts all others itself, before it does its own part: so none waits for
/// another to be started, and where there are as many threads as workers, it does the part of the first.
pub fn all_work<S: Sync, T: Works<S> + Send, R: Threads + Wait + Sync, G: Gate + Sync>(
    rt: &R,
    shared: &S,
    gate: &G,
    workers: &mut [T],
    threads: usize,
)
    requires threads { 0 < threads }
    requires ready { All (λ w. T.ready shared.now w) workers.old }
    ensures length { length workers.new ≡ length workers.old }
    ensures done { (i : ℕ) (d : T) → i < length workers.old → T.done shared.now (slice_index_or workers.old i d) (slice_index_or workers.new i d) }
{
    let count = workers.len();
    if count == 0 {
        return;
    }
    let beside = (threads - 1).min(count - 1);
    let (own, others) = workers.split_at_mut(count - beside);
    work_beside(rt, shared, gate, own, others);
}
