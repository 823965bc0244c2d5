//! The mode.
ghost use Rattle.std.specs.Prelude.{◌≡◌, ◌≤◌, ◌&&◌, not, false, true};
ghost use Rattle.emergency_mode.specs.Mode.{Mode, ends};

use std::marker::Model;

/// Whether flows have run out, and too few are free again. Contracts see whether it is on, and its two settings.
#[derive(Drop)]
pub struct Emergency {
    memcap: u32,
    recovery: u32,
    on: bool,
}

impl Model for Emergency {
    ghost use Rattle.emergency_mode.specs.Mode.{Mode};

    ghost Value = { Mode };

    ghost view = { λ e. record { memcap = e.memcap; recovery = e.recovery; on = e.on } };
}

impl Emergency {
    /// It is off. Once on, it ends when `recovery` percent of `memcap` flows are free; above 100 it never does, unless `memcap` is 0.
    pub fn new(memcap: u32, recovery: u32) -> Emergency
        ensures { result ≡ record { memcap = memcap; recovery = recovery; on = false } }
    {
        Emergency {
            memcap,
            recovery,
            on: false,
        }
    }

    /// Whether it is on.
    pub fn on(&self) -> bool
        ensures { result ≡ self.now.on }
    {
        self.on
    }

    /// A flow was asked for, and none was left: it is on.
    pub fn full(&mut self)
        ensures { self.new ≡ record self.old { on = true } }
    {
        self.on = true;
    }

    /// A round is over, with `out` of the `memcap` flows out. Says whether the mode was on and ended.
    pub fn over(&mut self, out: u32) -> bool
        requires { out ≤ self.old.memcap }
        ensures value { result ≡ ends self.old out }
        ensures mode { self.new ≡ record self.old { on = self.old.on && not (ends self.old out) } }
    {
        let free = u64::from(self.memcap - out);
        let ended = self.on && free * 100 >= u64::from(self.recovery) * u64::from(self.memcap);
        if ended {
            self.on = false;
        }
        ended
    }
}
