//! Laws over the end of a run. Each is a clause of a function that does nothing.
ghost use Rattle.end_laws.specs.Ended.{HaveAllEnded, IsRunEnd, TookOver, lines_in};
ghost use Rattle.recycler.specs.Draining.{DrainedAll, MayDrainAll};
ghost use Rattle.role_meets.specs.declared.roles.Role.{Role};
ghost use Rattle.role_steps.specs.Roles.{setup_of};
ghost use Rattle.role_steps.specs.declared.roles.Recycler.{Recycler};
ghost use Rattle.role_steps.specs.declared.roles.Shared.{Shared};
ghost use Rattle.round_laws.specs.Between.{Between};
ghost use Rattle.run_rules.specs.Histories.{Histories};
ghost use Rattle.run_rules.specs.Setup.{rounds};
ghost use Rattle.std.specs.Prelude.{List, ◌++◌};

/// After the last round the end role may begin, with what waited for the recycler.
pub fn end_may_begin()
    ensures { (s : Shared) (roles : List Role) (e f : Recycler) → Between s (rounds (setup_of s)) roles e → TookOver s roles e f → MayDrainAll s f }
{}

/// When the end role is done and all locks have ended, the histories are those of a lawful trail, and there is a line for each run that was finished.
pub fn run_is_lawful()
    ensures { (s : Shared) (roles : List Role) (e f g : Recycler) (t : Histories) → Between s (rounds (setup_of s)) roles e → TookOver s roles e f → DrainedAll s f g
        → HaveAllEnded s roles g t → IsRunEnd (setup_of s) t (lines_in roles ++ g.lines.items) }
{}
