//! The pool.
ghost use Rattle.std.specs.Prelude.{◌≡◌, ◌<◌, ◌≤◌, ◌-◌, ℕ, min, All, IfOk, IsOk, OnOk, List, vec_len, vec_capacity, false};
ghost use Rattle.flow_object.specs.Object.{nodes_in};
ghost use Rattle.flow_pool.specs.Counting.{Answered, IsIdle, flows_out_after, is_on_after};
ghost use Rattle.flow_pool.specs.declared.calls.PoolCall.TheVariants as call;
ghost use Rattle.suri_base.specs.declared.entry.Entry.{Entry};
ghost use Rattle.suri_base.specs.declared.entry.PoolNote.{PoolNote};

use crate::calls::{PoolCall, PoolReply, PoolSetting};
use emergency_mode::Emergency;
use flow_object::FlowObj;
use std::alloc::Global;
use suri_base::{Machine, NoMemory, PoolNote};

/// At most `memcap` flow objects, of which some are out.
#[derive(Drop)]
pub struct FlowPool {
    memcap: u32,
    depth: u32,
    made: u32,
    objects: Vec<Box<FlowObj>>,
    emergency: Emergency,
    ghost few: { made ≤ memcap },
    ghost spare: { vec_len objects ≤ made },
    // An object that comes back has a place.
    ghost places: { made ≤ vec_capacity objects },
    ghost settings: { All (λ o. o.value.depth ≡ depth) objects.items },
    ghost no_nodes: { All (λ o. nodes_in o.value ≡ 0) objects.items },
    ghost cap: { emergency.memcap ≡ memcap },
}

impl FlowPool {
    ghost use Rattle.flow_pool.specs.Pool.{setting_of, out_in, on_in, made_of, spare_of};

    /// A pool of at most `memcap` objects whose streams have that `depth`, in bytes. The smaller number of `prealloc` and `memcap` is
    /// made here. Once all are out and one more is asked for, there is an emergency, until `recovery` percent aren't out.
    ///
    /// # Errors
    ///
    /// `NoMemory` where there is none for these objects.
    pub fn new(
        alloc: Global,
        memcap: u32,
        prealloc: u32,
        recovery: u32,
        depth: u32,
    ) -> Result<FlowPool, NoMemory>
        ensures setting { IfOk result (λ pool. setting_of pool ≡ record { memcap = memcap; recovery = recovery; depth = depth }) }
        ensures made { IfOk result (λ pool. made_of pool ≡ min prealloc memcap) }
        ensures spare { IfOk result (λ pool. spare_of pool ≡ min prealloc memcap) }
        ensures off { IfOk result (λ pool. on_in pool ≡ false) }
    {
        let made = prealloc.min(memcap);
        let mut objects = Vec::with_capacity(alloc, made as usize)?;
        for _ in 0..made {
            objects.push(FlowObj::new(alloc, depth)?)?;
        }
        Ok(FlowPool {
            memcap,
            depth,
            made,
            objects,
            emergency: Emergency::new(memcap, recovery),
        })
    }

    /// How many objects the pool has made.
    pub fn made(&self) -> u32
        ensures { result ≡ made_of self.now }
    {
        self.made
    }

    /// How many of them are spare.
    pub fn spare(&self) -> u32
        ensures { result ≡ spare_of self.now }
    {
        self.made - self.out()
    }

    // How many objects are out.
    fn out(&self) -> u32
        ensures value { result ≡ out_in self.now }
        ensures few { result ≤ self.now.memcap }
    {
        self.made - self.objects.len() as u32
    }

    // An object more, where none is spare and one may be made.
    fn reserve_one(&mut self) -> Result<(), NoMemory>
        ensures setting { setting_of self.new ≡ setting_of self.old }
        ensures out { out_in self.new ≡ out_in self.old }
        ensures on { on_in self.new ≡ on_in self.old }
        ensures kept { spare_of self.old ≤ spare_of self.new }
        ensures room { OnOk result (out_in self.new < self.new.memcap → 0 < spare_of self.new) }
        ensures succeeds { (out_in self.old < self.old.memcap → 0 < spare_of self.old) → IsOk result }
        ensures same { (out_in self.old < self.old.memcap → 0 < spare_of self.old) → self.new ≡ self.old }
    {
        if !self.objects.is_empty() || self.made == self.memcap {
            return Ok(());
        }
        let alloc = *self.objects.allocator();
        let count = self.made as usize + 1;
        if self.objects.reserve(count).is_err() {
            return Err(NoMemory);
        }
        let object = FlowObj::new(alloc, self.depth)?;
        let _ = self.objects.push(object);
        self.made += 1;
        Ok(())
    }

    // Takes an object for that frame, where one is left.
    fn take(&mut self, no: u32) -> (PoolReply, PoolNote)
        requires { out_in self.old < self.old.memcap → 0 < spare_of self.old }
        ensures setting { setting_of self.new ≡ setting_of self.old }
        ensures answer { Answered (setting_of self.old) (out_in self.old) (on_in self.old) (call.Take no) result.0 result.1 }
        ensures out { out_in self.new ≡ flows_out_after (out_in self.old) result.1 }
        ensures on { on_in self.new ≡ is_on_after (on_in self.old) result.1 }
    {
        let limit = self.memcap;
        match self.objects.pop() {
            Some(object) => (PoolReply::Obj(object), PoolNote::Took { no }),
            None => {
                self.emergency.full();
                (
                    PoolReply::Full { out: limit, limit },
                    PoolNote::Full {
                        no,
                        out: limit,
                        limit,
                    },
                )
            }
        }
    }

    // Keeps an object where one is out, and drops it where none is.
    fn put(&mut self, run: u32, obj: Box<FlowObj>) -> (PoolReply, PoolNote)
        requires { IsIdle (setting_of self.old) obj.value }
        ensures setting { setting_of self.new ≡ setting_of self.old }
        ensures answer { Answered (setting_of self.old) (out_in self.old) (on_in self.old) (call.Put run obj) result.0 result.1 }
        ensures out { out_in self.new ≡ flows_out_after (out_in self.old) result.1 }
        ensures on { on_in self.new ≡ is_on_after (on_in self.old) result.1 }
    {
        if self.out() > 0 {
            let _ = self.objects.push(obj);
        }
        (PoolReply::Done, PoolNote::Put { run })
    }

    // A round is over.
    fn over(&mut self, round: u32) -> (PoolReply, PoolNote)
        ensures setting { setting_of self.new ≡ setting_of self.old }
        ensures answer { Answered (setting_of self.old) (out_in self.old) (on_in self.old) (call.Over round) result.0 result.1 }
        ensures out { out_in self.new ≡ flows_out_after (out_in self.old) result.1 }
        ensures on { on_in self.new ≡ is_on_after (on_in self.old) result.1 }
    {
        let out = self.out();
        let ended = self.emergency.over(out);
        (PoolReply::Ended(ended), PoolNote::Over { round, ended })
    }
}

impl Machine for FlowPool {
    type Call = PoolCall;

    type Reply = PoolReply;

    type Note = PoolNote;

    type Fixed = PoolSetting;

    ghost use Rattle.flow_pool.specs.Counting.{AreAlike};
    ghost use Rattle.flow_pool.specs.Fixed.{one_note, one_reply};
    ghost use Rattle.flow_pool.specs.Pool.{setting_of, FlowPoolAnswers, FlowPoolCounts, FlowPoolMay, FlowPoolRoom};

    ghost fixed = { setting_of };

    ghost stands = { FlowPoolCounts };

    ghost room = { FlowPoolRoom };

    ghost may = { FlowPoolMay };

    ghost answers = { FlowPoolAnswers };

    ghost alike = { AreAlike };

    ghost may_stays = { λ s role past e call other legal may. may };

    ghost one_note = { λ s past role call r t n m both. one_note s past call r t n m both.2 both.3 };

    ghost one_reply = { λ s past role call r t n m both. one_reply s past call r t n m both.2 both.3 };

    fn reserve(&mut self, call: &PoolCall) -> Result<(), NoMemory>
        ensures fixed { setting_of self.new ≡ setting_of self.old }
        ensures stands { (past : List (Entry PoolNote)) → FlowPoolCounts self.old past → FlowPoolCounts self.new past }
        ensures back { (past : List (Entry PoolNote)) → FlowPoolCounts self.new past → FlowPoolCounts self.old past }
        ensures keeps { (other : PoolCall) → FlowPoolRoom self.old other → FlowPoolRoom self.new other }
        ensures ok { OnOk result (FlowPoolRoom self.new call.now) }
        // Where there is room, as where an object is spare, all are out, or none is asked for, it takes no memory.
        ensures succeeds { FlowPoolRoom self.old call.now → IsOk result }
        ensures same { FlowPoolRoom self.old call.now → self.new ≡ self.old }
    {
        match call {
            PoolCall::Take { .. } => self.reserve_one(),
            _ => Ok(()),
        }
    }

    fn step(&mut self, _role: u32, call: PoolCall) -> (PoolReply, PoolNote) {
        match call {
            PoolCall::Take { no } => self.take(no),
            PoolCall::Put { run, obj } => self.put(run, obj),
            PoolCall::Turn { run, no, obj } => {
                (PoolReply::Turned(obj), PoolNote::Turn { run, no })
            }
            PoolCall::Mode => {
                let on = self.emergency.on();
                (PoolReply::On(on), PoolNote::Mode { on })
            }
            PoolCall::Over { round } => self.over(round),
        }
    }
}
