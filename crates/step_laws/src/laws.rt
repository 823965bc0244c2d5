//! Laws on the steps of a run. Each is a clause of a function that does nothing.
ghost use Rattle.bucket_laws.specs.Leaving.{Gone, runs};
ghost use Rattle.bucket_laws.specs.Places.{At, In};
ghost use Rattle.run_rules.specs.Acts.{Act};
ghost use Rattle.run_rules.specs.Ending.{Ending, end_on};
ghost use Rattle.run_rules.specs.Histories.{Histories};
ghost use Rattle.run_rules.specs.Lawful.{AreScripted};
ghost use Rattle.run_rules.specs.Manager.{Sweep, manage};
ghost use Rattle.run_rules.specs.Serving.{serve};
ghost use Rattle.run_rules.specs.Setup.{Setup, ender, manager, recycler};
ghost use Rattle.run_rules.specs.SoFar.{AreLawfulSoFar, AreScriptedSoFar, OthersEnded};
ghost use Rattle.run_rules.specs.Worker.{Stand, after_act};
ghost use Rattle.std.specs.Prelude.{◌≡◌, ℕ, ◌<◌, List, length, Some};
ghost use Rattle.step_laws.specs.Adding.{IsAdded};
ghost use Rattle.step_laws.specs.Beginning.{IsUnbegun};
ghost use Rattle.step_laws.specs.Leaving.{IsOfEnd, IsOfRound, IsOfServed};
ghost use Rattle.step_laws.specs.Passing.{HasPassed, MayPass};
ghost use Rattle.step_laws.specs.Staying.{HasStepped};
ghost use Rattle.suri_base.specs.History.{entry};
ghost use Rattle.suri_base.specs.declared.entry.Entry.{Entry};
ghost use Rattle.suri_base.specs.declared.entry.PoolNote.{PoolNote};
ghost use Rattle.suri_base.specs.declared.entry.PoolNote.TheVariants.{Put};

/// A trail of which nothing is done yet is lawful so far.
pub fn runs_begin()
    ensures begins { (w : Setup) (t : Histories) → IsUnbegun w t → AreLawfulSoFar w t }
{}

/// What the script of a role does next, as one entry more, leaves a trail lawful so far, wherever the others stand.
pub fn steps_stay_lawful()
    ensures worker { (w : Setup) (t new : Histories) → (l : AreLawfulSoFar w t) → (role : ℕ) → role < w.layout.workers → (a : Act) (next : Stand)
        → after_act w (l.scripted.stands role) a ≡ Some next → IsAdded w role (length (l.scripted.acts role)) t new a → HasStepped w t new l role a }
    ensures manager { (w : Setup) (t new : Histories) → (l : AreLawfulSoFar w t) → (a : Act) (next : Sweep)
        → manage w l.scripted.sweep.task l.scripted.sweep a ≡ Some next → IsAdded w (manager w) (length (l.scripted.acts (manager w))) t new a → HasStepped w t new l (manager w) a }
    // Each object that the recycler puts is out.
    ensures recycler { (w : Setup) (t new : Histories) → (l : AreLawfulSoFar w t) → (a : Act) (next : List Gone)
        → serve l.scripted.waiting a ≡ Some next → IsAdded w (recycler w) (length (l.scripted.acts (recycler w))) t new a → HasStepped w t new l (recycler w) a }
    // The end role begins when all others have ended, and each object that it puts is out.
    ensures end { (w : Setup) (t new : Histories) → (l : AreLawfulSoFar w t) → (a : Act) (next : Ending)
        → OthersEnded w l.scripted.stands l.scripted.sweep l.scripted.served l.scripted.waiting → end_on w l.scripted.ending.queue l.scripted.ending a ≡ Some next
        → IsAdded w (ender w) (length (l.scripted.acts (ender w))) t new a → HasStepped w t new l (ender w) a }
{}

/// The hands of a round come to the recycler when every worker and the manager has ended it, unless it is the last.
pub fn rounds_pass()
    ensures passes { (w : Setup) (t : Histories) → (l : AreLawfulSoFar w t) → MayPass w t l → HasPassed w t l }
{}

/// What the recycler finishes, a worker or the manager had let go in a round before the last; what the end role finishes, in the last round, or
/// the end role itself, when it drained.
pub fn what_waits_has_left()
    ensures recycler { (w : Setup) (t : Histories) → (l : AreScripted w t) → (step run : ℕ) (past : List (Entry PoolNote))
        → At (entry (recycler w) step (Put run)) past t.pool → IsOfRound w t l.acts run }
    ensures end { (w : Setup) (t : Histories) → (l : AreScripted w t) → (step run : ℕ) (past : List (Entry PoolNote))
        → At (entry (ender w) step (Put run)) past t.pool → IsOfEnd w t l.acts step run }
    // And at any time so far: what waits for the recycler was let go in a round that every worker and the manager has ended.
    ensures waits { (w : Setup) (t : Histories) → (s : AreScriptedSoFar w t) → (run : ℕ) → In run (runs s.waiting) → IsOfServed w t s run }
    // When they have ended, what waits for the end role was let go in the last round, or by what the end role did so far.
    ensures remains { (w : Setup) (t : Histories) → (s : AreScriptedSoFar w t) → OthersEnded w s.stands s.sweep s.served s.waiting → (run : ℕ)
        → In run (runs s.ending.queue) → IsOfEnd w t s.acts (length (s.acts (ender w))) run }
{}
