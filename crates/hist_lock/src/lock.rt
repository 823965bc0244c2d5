//! A role's turn: one call on the machine, and one entry.
ghost use Rattle.std.specs.Prelude.{◌≡◌, ℕ, ◌<◌, true, List, [], ◌∷◌, length, All, IfOk, IfErr, Some, None, is_none};
ghost use Rattle.suri_base.specs.declared.entry.Entry.{Entry};
ghost use Rattle.suri_base.specs.History.{entry};
ghost use Rattle.hist_lock.specs.declared.view.Home.{Home};
ghost use Rattle.hist_lock.specs.Rule.{past_of, HasRole, turned, idle, entered, HasNext, IsTurn};
ghost use Rattle.hist_lock.specs.Passes.{IsOf, Stays, IsCall};
ghost use Rattle.hist_lock.specs.Locks.{lock_id, made_with, roles_of, IsPassOf, IsSamePass, role_of, seen_by, made_of};

use crate::law::{Count, Give, Take};
use crate::pass::Pass;
use crate::table::{HistLock, Refused};
use crate::view::{Home, View};
use atomic_table::Seat;
use std::hint::spin_loop;
use std::sync::Wait;
use std::sync::atomic::Ordering;
use suri_base::{Entry, Machine};

// The word that is 1 while a role has the turn.
pub(crate) const HELD: usize = 0;

// The word that is the length of the history.
pub(crate) const COUNT: usize = 1;

// The slot of the machine and its entries.
const SLOT: usize = 0;

// How often a role asks for the turn before it sleeps. A turn takes about a microsecond, and to sleep and be woken some fifty:
// so it asks for about as long as that.
const ASKS: u32 = 256;

// How often it pauses between two asks, so that these don't slow the role that has the turn.
const PAUSES: u32 = 4;

pub(crate) type LockSeat<M> = Seat<
    Option<Home<M, <M as Machine>::Note>>,
    View<<M as Machine>::Note, <M as Machine>::Fixed>,
>;

// Lets a moment pass.
fn pause() {
    for _ in 0..PAUSES {
        spin_loop();
    }
}

// Makes the call, and adds its entry to the history; or hands the call back where memory is refused.
fn turn<M: Machine>(
    home: &mut Home<M, M::Note>,
    role: u32,
    step: u64,
    call: M::Call,
) -> Result<M::Reply, M::Call>
    requires stands { M.stands home.old.machine.value (past_of home.old) }
    requires may { M.may (M.fixed home.old.machine.value) role (past_of home.old) call }
    ensures fixed { M.fixed home.new.machine.value ≡ M.fixed home.old.machine.value }
    ensures stands { M.stands home.new.machine.value (past_of home.new) }
    ensures ok { IfOk result (λ reply. (note : M.Note) × (past_of home.new ≡ entry role step note ∷ past_of home.old) × M.answers (M.fixed home.old.machine.value) (past_of home.old) role call reply note) }
    ensures err { IfErr result (λ c. (c ≡ call) × (past_of home.new ≡ past_of home.old)) }
{
    if home.entries.try_reserve(1).is_err() {
        return Err(call);
    }
    if home.machine.reserve(&call).is_err() {
        return Err(call);
    }
    let (reply, note) = home.machine.step(role, call);
    home.entries.push_reserved(Entry { role, step, note });
    Ok(reply)
}

impl<M: Machine> HistLock<M> {
    // Waits for the turn: asks for it a number of times, and then sleeps while another role has it.
    fn take_turn<R: Wait>(&self, rt: &R, seat: &mut LockSeat<M>)
        requires lock { IsOf (lock_id self.now) (M.fixed (made_with self.now)) (roles_of self.now) seat.old }
        requires idle { (length seat.old.me.1 ≡ 0) × (is_none seat.old.me.0.whole ≡ true) }
        requires role { (role : ℕ) × (made : List (Entry M.Note)) × HasRole seat.old.me.0 role made }
        ensures same { Stays seat.old seat.new }
        ensures turn { (h : Home M M.Note) × (seat.new.me ≡ (turned seat.old.me.0 (past_of h), (0, Some h) ∷ [])) × IsTurn M.fixed M.stands M.may M.answers (M.fixed (made_with self.now), (roles_of self.now)) seat.old.me.0 h }
    {
        let shared = &self.table.shared;
        let mut asks: u32 = 0;
        for _ in rt.forever() {
            // Who may sleep says so before it asks again: so the one that gives the turn back then sees it. Who was
            // woken says so too, since others may sleep still.
            let sleeps = asks >= ASKS;
            if sleeps {
                self.asleep.store(1, Ordering::SeqCst);
            }
            if shared.compare_exchange::<Take<M>>(seat, HELD, 0, 1) == 0 {
                return;
            }
            if sleeps {
                self.asleep.park(rt, 1);
            } else {
                asks += 1;
                pause();
            }
        }
        unreachable!()
    }

    // Takes the machine and its history out of the slot.
    pub(crate) fn lift(&self, seat: &mut LockSeat<M>) -> Home<M, M::Note>
        requires lock { seat.old.table_id ≡ lock_id self.now }
        requires slot { (h : Home M M.Note) × (seat.old.me.1 ≡ (0, Some h) ∷ []) }
        ensures same { Stays seat.old seat.new }
        ensures home { seat.old.me.1 ≡ (0, Some result) ∷ [] }
        ensures after { seat.new.me ≡ (seat.old.me.0, (0, None) ∷ []) }
    {
        let Some(home) = self.table.shared.exchange(seat, SLOT, None) else {
            unreachable!()
        };
        home
    }

    // Lays them back.
    fn lay(&self, seat: &mut LockSeat<M>, home: Home<M, M::Note>)
        requires lock { seat.old.table_id ≡ lock_id self.now }
        requires slot { seat.old.me.1 ≡ (0, None) ∷ [] }
        ensures same { Stays seat.old seat.new }
        ensures after { seat.new.me ≡ (seat.old.me.0, (0, Some home) ∷ []) }
    {
        let was = self.table.shared.exchange(seat, SLOT, Some(home));
        let None = was else { unreachable!() };
    }

    // Counts the entry that was added to what the seat carries.
    fn count_entry(&self, seat: &mut LockSeat<M>)
        requires lock { seat.old.table_id ≡ lock_id self.now }
        requires entry { (h : Home M M.Note) × (seat.old.me.1 ≡ (0, Some h) ∷ []) × HasNext M.may M.answers (M.fixed (made_with self.now)) seat.old.me.0 h }
        ensures same { Stays seat.old seat.new }
        ensures after { (h : Home M M.Note) → seat.old.me.1 ≡ (0, Some h) ∷ [] → seat.new.me ≡ (entered seat.old.me.0 (past_of h), (0, Some h) ∷ []) }
    {
        self.table.shared.fetch_add::<Count>(seat, COUNT, 1);
    }

    // Gives the turn back with what the seat carries, and wakes one that waits, where there is one.
    fn give_turn(&self, seat: &mut LockSeat<M>)
        requires lock { seat.old.table_id ≡ lock_id self.now }
        requires turn { (h : Home M M.Note) × (seat.old.me.1 ≡ (0, Some h) ∷ []) × (seat.old.me.0.whole ≡ Some (past_of h)) × (M.fixed h.machine.value ≡ M.fixed (made_with self.now)) × M.stands h.machine.value (past_of h) }
        ensures same { Stays seat.old seat.new }
        ensures after { seat.new.me ≡ (idle seat.old.me.0, []) }
    {
        self.table.shared.swap::<Give>(seat, HELD, 0);
        // One is woken at a time: until it asks again, turns are given back without a call to the kernel.
        if self.asleep.load(Ordering::SeqCst) == 1 && self.asleep.swap(0, Ordering::SeqCst) == 1 {
            self.asleep.wake_one();
        }
    }

    // Waits for the turn, and takes the machine and its history out of the slot.
    fn enter<R: Wait>(&self, rt: &R, seat: &mut LockSeat<M>) -> Home<M, M::Note>
        requires lock { IsOf (lock_id self.now) (M.fixed (made_with self.now)) (roles_of self.now) seat.old }
        requires idle { (length seat.old.me.1 ≡ 0) × (is_none seat.old.me.0.whole ≡ true) }
        requires role { (role : ℕ) × (made : List (Entry M.Note)) × HasRole seat.old.me.0 role made }
        ensures same { Stays seat.old seat.new }
        ensures after { seat.new.me ≡ (turned seat.old.me.0 (past_of result), (0, None) ∷ []) }
        ensures turn { IsTurn M.fixed M.stands M.may M.answers (M.fixed (made_with self.now), (roles_of self.now)) seat.old.me.0 result }
    {
        self.take_turn(rt, seat);
        self.lift(seat)
    }

    // Lays back what was taken out, with no entry more, and gives the turn back.
    fn leave(&self, seat: &mut LockSeat<M>, home: Home<M, M::Note>)
        requires lock { seat.old.table_id ≡ lock_id self.now }
        requires turn { (seat.old.me.1 ≡ (0, None) ∷ []) × (seat.old.me.0.whole ≡ Some (past_of home)) }
        requires home { (M.fixed home.machine.value ≡ M.fixed (made_with self.now)) × M.stands home.machine.value (past_of home) }
        ensures same { Stays seat.old seat.new }
        ensures after { seat.new.me ≡ (idle seat.old.me.0, []) }
    {
        self.lay(seat, home);
        self.give_turn(seat);
    }

    // Lays back what was taken out, with an entry more, counts the entry, and gives the turn back. The machine is laid back
    // first: which entry is counted is read off what the seat carries. No other thread sees the slot before the turn is given.
    fn leave_entered(&self, seat: &mut LockSeat<M>, home: Home<M, M::Note>)
        requires lock { seat.old.table_id ≡ lock_id self.now }
        requires slot { seat.old.me.1 ≡ (0, None) ∷ [] }
        requires entry { HasNext M.may M.answers (M.fixed (made_with self.now)) seat.old.me.0 home }
        requires home { (M.fixed home.machine.value ≡ M.fixed (made_with self.now)) × M.stands home.machine.value (past_of home) }
        ensures same { Stays seat.old seat.new }
        ensures after { seat.new.me ≡ (idle (entered seat.old.me.0 (past_of home)), []) }
    {
        self.lay(seat, home);
        self.count_entry(seat);
        self.give_turn(seat);
    }

    /// Waits for the turn, makes the call and gives the turn back. `step` is the number of the role's own step.
    ///
    /// It refuses only where no memory is left: then no entry was made, the pass is as before, and the call comes back.
    pub fn apply<R: Wait>(
        &self,
        rt: &R,
        pass: &mut Pass<M>,
        step: u64,
        call: M::Call,
    ) -> Result<M::Reply, Refused<M::Call>>
        requires lock { IsPassOf M.fixed self.now pass.old }
        requires may { M.may (M.fixed (made_with self.now)) (role_of pass.old) (seen_by pass.old) call }
        requires step { All (λ e. e.step < step) (made_of pass.old) }
        ensures lock { IsPassOf M.fixed self.now pass.new }
        ensures same { role_of pass.new ≡ role_of pass.old }
        ensures ok { IfOk result (λ reply. IsCall M.may M.answers (M.fixed (made_with self.now)) (roles_of self.now) (role_of pass.old) step call reply (seen_by pass.old) (made_of pass.old) (seen_by pass.new) (made_of pass.new)) }
        ensures refused { IfErr result (λ r. (r.call ≡ call) × IsSamePass pass.old pass.new) }
    {
        let mut home = self.enter(rt, &mut pass.seat);
        match turn(&mut home, pass.role, step, call) {
            Ok(reply) => {
                let seen = home.entries.len() as u64;
                self.leave_entered(&mut pass.seat, home);
                pass.seen = seen;
                Ok(reply)
            }
            Err(call) => {
                self.leave(&mut pass.seat, home);
                Err(Refused { call })
            }
        }
    }
}
