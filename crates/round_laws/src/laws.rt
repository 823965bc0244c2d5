//! Laws over the rounds of a run. Each is a clause of a function that does nothing.
ghost use Rattle.role_meets.specs.Meets.{MetAll};
ghost use Rattle.role_meets.specs.declared.roles.Role.{Role};
ghost use Rattle.role_steps.specs.Roles.{setup_of};
ghost use Rattle.role_steps.specs.declared.roles.Recycler.{Recycler};
ghost use Rattle.role_steps.specs.declared.roles.Shared.{Shared};
ghost use Rattle.round_laws.specs.Between.{Between};
ghost use Rattle.round_laws.specs.Cuts.{IsInRounds};
ghost use Rattle.round_laws.specs.Later.{ArePutLater};
ghost use Rattle.round_laws.specs.Leaving.{AreNamedSoon};
ghost use Rattle.round_laws.specs.Playing.{AllPlayed, AreHandedOn, MayPlay};
ghost use Rattle.round_laws.specs.Rising.{WentByRounds};
ghost use Rattle.run_laws.specs.Setting.{IsLayout, IsSetup};
ghost use Rattle.run_rules.specs.Histories.{Histories};
ghost use Rattle.run_rules.specs.Lawful.{AreScripted};
ghost use Rattle.run_rules.specs.Setup.{Setup, rounds};
ghost use Rattle.run_start.specs.Starting.{IsStarted};
ghost use Rattle.std.specs.Prelude.{◌≡◌, ℕ, suc, ◌*◌, ◌^◌, ◌<◌, ◌≤◌, List, length, slice_index_or};

/// Before the first round all holds that holds between two rounds.
pub fn rounds_begin()
    ensures { (w : Setup) (s : Shared) (roles : List Role) (e : Recycler) → IsStarted w s roles e → IsLayout w.layout → rounds w * w.layout.rows ≤ 2 ^ 24 → Between s 0 roles e }
{}

/// Where rounds are still to come, each role may begin the next.
pub fn roles_may_play()
    ensures { (s : Shared) (round : ℕ) (roles : List Role) (e : Recycler) → Between s round roles e → round < rounds (setup_of s)
        → (k : ℕ) (d : Role) → k < length roles → MayPlay s round (slice_index_or roles k d).part }
{}

/// After a round in which all roles played, met, and handed their hands on, the same holds one round later.
pub fn rounds_go_on()
    ensures { (s : Shared) (round : ℕ) (begun played met handed : List Role) (e f : Recycler) → Between s round begun e → round < rounds (setup_of s)
        → AllPlayed s round begun played → MetAll s played met e f → AreHandedOn met handed → Between s (suc round) handed f }
{}

/// The histories of a run with the cuts of all its rounds: in each bucket no entry is of an earlier round than an entry before it, and each stands
/// behind the sweeps of all rounds before its own. So whatever was done there in a round, its sweep too, stands before each look of the next one.
pub fn runs_go_by_rounds()
    ensures { (w : Setup) (t : Histories) (l : AreScripted w t) → IsSetup w → IsInRounds w t l.acts → WentByRounds w t l }
{}

/// What the recycler gives back after a round had left its bucket in that round; what the end role gives back, in the last round, or by a drain of
/// the end role itself.
pub fn runs_leave_before()
    ensures { (w : Setup) (t : Histories) (l : AreScripted w t) → IsSetup w → (i : IsInRounds w t l.acts) → ArePutLater w t l i }
{}

/// A run that left its bucket in a round is named by an entry of the pool soon: a worker turned its object in that round, the recycler put it back in
/// the next one, or the end role did after the last. What a worker turns had gone in the round of the packet for which it is turned.
pub fn runs_are_named_soon()
    ensures { (w : Setup) (t : Histories) (l : AreScripted w t) → IsSetup w → (i : IsInRounds w t l.acts) → AreNamedSoon w t l i }
{}
