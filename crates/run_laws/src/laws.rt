//! Laws over the histories of a whole run. Each is a clause of a function that does nothing.
ghost use Rattle.bucket_laws.specs.Keys.{IsCut, pieces};
ghost use Rattle.bucket_laws.specs.Leaving.{Gone};
ghost use Rattle.bucket_laws.specs.Places.{At, History, In};
ghost use Rattle.bucket_rules.specs.Row.{has, made};
ghost use Rattle.run_laws.specs.Calling.{MayAct};
ghost use Rattle.run_laws.specs.Causes.{IsForcedFor, IsRead, IsRefusedFor};
ghost use Rattle.run_laws.specs.Ends.{HasCause};
ghost use Rattle.run_laws.specs.Counts.{tally};
ghost use Rattle.run_laws.specs.Placing.{IsCountedOnce};
ghost use Rattle.run_laws.specs.Returning.{AreReturned, IsGivenBack};
ghost use Rattle.run_laws.specs.RoundEnd.{IsRoundEnd, next_queue, only_puts, put_in};
ghost use Rattle.run_rules.specs.Rounds.{EndedRounds, SweptRounds};
ghost use Rattle.run_laws.specs.Setting.{IsSetup};
ghost use Rattle.run_rules.specs.Acts.{Act, AreActs};
ghost use Rattle.run_rules.specs.Ending.{Ending, end_on, ending_after};
ghost use Rattle.run_rules.specs.Growing.{Grew};
ghost use Rattle.run_rules.specs.Histories.{Histories, bucket_at};
ghost use Rattle.run_rules.specs.Lawful.{AreLawful, AreLegal, AreScripted, PutsAreDue, left_over, waited};
ghost use Rattle.run_rules.specs.Manager.{Sweep, manage, manager_ended, new_manager, swept_after};
ghost use Rattle.run_rules.specs.Serving.{queue_after, serve};
ghost use Rattle.run_rules.specs.Setup.{Setup, ender, fixed_at, manager, recycler, roles, rounds, work_of};
ghost use Rattle.run_rules.specs.SoFar.{AreScriptedSoFar, OthersEnded};
ghost use Rattle.run_rules.specs.Worker.{Stand, after_act, ended, fresh, stand_after};
ghost use Rattle.std.specs.Prelude.{◌≡◌, ℕ, ◌+◌, ◌-◌, ◌<◌, ◌≤◌, Bool, true, List, [], ◌∷◌, ◌++◌, length, reverse, Some};
ghost use Rattle.flow_pool.specs.Counting.{flows_out};
ghost use Rattle.suri_base.specs.Capture.{packets_in};
ghost use Rattle.suri_base.specs.Dealing.{bucket_of};
ghost use Rattle.suri_base.specs.History.{entry};
ghost use Rattle.suri_base.specs.Keys.{key_list};
ghost use Rattle.suri_base.specs.declared.entry.BucketNote.TheVariants.{Found, Missing, Refused, Swept, Victim};
ghost use Rattle.suri_base.specs.declared.entry.Entry.{Entry};
ghost use Rattle.suri_base.specs.declared.entry.PoolNote.{PoolNote};
ghost use Rattle.suri_base.specs.declared.entry.PoolNote.TheVariants.{Put, Turn};
ghost use Rattle.suri_base.specs.declared.facts.Facts.{Facts};
ghost use Rattle.suri_base.specs.declared.key.Key.{Key};
ghost use Rattle.suri_base.specs.declared.stream.Offer.{Offer};

/// Every run gets its flow object once and gives it back once, after it left its bucket, and every node comes back.
pub fn objects_come_back()
    ensures all { (w : Setup) (t : Histories) → AreLawful w t → AreReturned t }
    // A role gives back what it had let go itself, or it is one of the two that finish what others let go.
    ensures put { (w : Setup) (t : Histories) → AreScripted w t → (role step run : ℕ) (past : List (Entry PoolNote))
        → At (entry role step (Put run)) past t.pool → IsGivenBack w t role step run }
    ensures turned { (w : Setup) (t : Histories) → AreScripted w t → (role step run f : ℕ) (past : List (Entry PoolNote))
        → At (entry role step (Turn run f)) past t.pool → IsGivenBack w t role step run }
{}

/// No packet is lost or counted twice.
pub fn packets_are_counted_once()
    // The packets of each key are cut, in file order, into the members of its runs and refused packets.
    ensures cut { (w : Setup) (t : Histories) → IsSetup w → AreScripted w t → (k : Key)
        → IsCut (fixed_at w (bucket_of k w.layout.rows)) k (bucket_at (bucket_of k w.layout.rows) t.buckets) (reverse (key_list k (packets_in w.capture.seen)))
        (pieces (fixed_at w (bucket_of k w.layout.rows)) k (bucket_at (bucket_of k w.layout.rows) t.buckets)) }
    // Each packet is a member of exactly one run or was refused, and not both.
    ensures once { (w : Setup) (t : Histories) → IsSetup w → AreScripted w t → (p : Facts) → In p (packets_in w.capture.seen) → IsCountedOnce w t p }
{}

/// Every run has an end: one entry detached it, for its reason, at the next packet of its key or where none was to come.
pub fn runs_have_ends()
    ensures cause { (w : Setup) (t : Histories) → IsSetup w → AreScripted w t → (b : ℕ) → b < length t.buckets → (a : ℕ)
        → has (made (bucket_at b t.buckets)) a ≡ true → HasCause w t b a }
{}

/// Each look and each sweep uses the table of the mode that its role last read, at the entry of the pool that it names.
pub fn tables_are_read()
    ensures found { (w : Setup) (t : Histories) → IsSetup w → AreScripted w t → (b : ℕ) → b < length t.buckets
        → (role step f : ℕ) (emergency : Bool) (seen run : ℕ) (said : Offer) (past : History)
        → At (entry role step (Found f emergency seen run said)) past (bucket_at b t.buckets) → IsRead t role step emergency seen }
    ensures missing { (w : Setup) (t : Histories) → IsSetup w → AreScripted w t → (b : ℕ) → b < length t.buckets
        → (role step f : ℕ) (emergency : Bool) (seen ended : ℕ) (past : History)
        → At (entry role step (Missing f emergency seen ended)) past (bucket_at b t.buckets) → IsRead t role step emergency seen }
    ensures swept { (w : Setup) (t : Histories) → IsSetup w → AreScripted w t → (b : ℕ) → b < length t.buckets
        → (role step round : ℕ) (emergency : Bool) (seen count : ℕ) (past : History)
        → At (entry role step (Swept round emergency seen count)) past (bucket_at b t.buckets) → IsRead t role step emergency seen }
{}

/// A packet is refused only where no object was left, its worker had none in hand, and every bucket had only flows in use.
pub fn refusals_have_causes()
    ensures refused { (w : Setup) (t : Histories) → IsSetup w → (l : AreScripted w t) → (b : ℕ) → b < length t.buckets → (role step f : ℕ) (past : History)
        → At (entry role step (Refused f)) past (bucket_at b t.buckets) → IsRefusedFor w t (l.acts role) role step f }
    // A run is evicted only where no object was left.
    ensures forced { (w : Setup) (t : Histories) → IsSetup w → AreScripted w t → (b : ℕ) → b < length t.buckets → (role step f run : ℕ) (past : History)
        → At (entry role step (Victim f run)) past (bucket_at b t.buckets) → IsForcedFor w t role step f }
{}

/// What each role did, as it saw the histories, makes a lawful trail, where each role ended its script and saw all of its own entries.
pub fn roles_make_a_trail()
    ensures lawful { (w : Setup) (t : Histories) (seen : ℕ → Histories) (acts : ℕ → List Act) (hands : ℕ → List (List Gone)) → AreLegal w t → PutsAreDue t.pool
        → ((role : ℕ) → role < roles w → Grew role (seen role) t × AreActs w (seen role) role (acts role))
        → ((role : ℕ) → role < w.layout.workers → ended (stand_after w (fresh (work_of w role)) (acts role)) ≡ Some (hands role))
        → manager_ended w (swept_after w new_manager (acts (manager w))) ≡ Some (hands (manager w))
        → queue_after (waited (manager w + 1) hands (rounds w - 1)) (acts (recycler w)) ≡ Some []
        → ending_after w (record { queue = left_over w hands; drained = 0 }) (acts (ender w)) ≡ Some (record { queue = []; drained = w.layout.rows })
        → AreLawful w t }
{}

/// At the end of a round at least as many flows are out as wait for the next one, so that each put of that round finds one out.
pub fn enough_are_out()
    ensures waits { (w : Setup) (t : Histories) (r : ℕ) → r + 1 ≤ rounds w → (l : IsRoundEnd w t (r + 1)) → PutsAreDue t.pool
        → length (next_queue w l.hands) ≤ flows_out t.pool }
    // A history that goes on with no more puts than flows were out keeps the rule.
    ensures puts { (since old : List (Entry PoolNote)) → PutsAreDue old → tally put_in since ≤ flows_out old → PutsAreDue (since ++ old) }
    // So the rule holds at the end of the first round, from the end of each round to the end of the next, and over the puts of the end role.
    ensures first { (w : Setup) (t : Histories) → IsRoundEnd w t 1 → PutsAreDue t.pool }
    ensures next { (w : Setup) (old new : Histories) (r : ℕ) → r + 2 ≤ rounds w → (l : IsRoundEnd w old (r + 1)) → (m : IsRoundEnd w new (r + 2)) → (h : ℕ → List Gone)
        → ((role : ℕ) → role < manager w + 1 → m.hands role ≡ h role ∷ l.hands role)
        → (since : List (Entry PoolNote)) → new.pool ≡ since ++ old.pool → PutsAreDue old.pool → PutsAreDue new.pool }
    ensures last { (w : Setup) (t : Histories) → AreScripted w t → (since old : List (Entry PoolNote)) → t.pool ≡ since ++ old → only_puts since ≡ true
        → PutsAreDue old → PutsAreDue t.pool }
{}

/// The rounds of a role follow one another to the end of its script.
pub fn rounds_make_a_script()
    // A worker that ended all rounds has ended its script, and so has the manager.
    ensures worker { (w : Setup) (role : ℕ) (acts : List Act) (hands : List (List Gone)) → EndedRounds w role (rounds w) acts hands
        → ended (stand_after w (fresh (work_of w role)) acts) ≡ Some hands }
    ensures manager { (w : Setup) (acts : List Act) (hands : List (List Gone)) → SweptRounds w (rounds w) acts hands
        → manager_ended w (swept_after w new_manager acts) ≡ Some hands }
    // What was served of a queue is served of a longer one, and what came behind it waits: so the recycler's rounds follow one another.
    ensures queue { (queue more left : List Gone) (acts : List Act) → queue_after queue acts ≡ Some left → queue_after (queue ++ more) acts ≡ Some (left ++ more) }
{}

/// What the script of a role does next may be called, wherever the others stand.
pub fn next_calls_may_be_made()
    ensures worker { (w : Setup) (t : Histories) → IsSetup w → (s : AreScriptedSoFar w t) → (role : ℕ) → role < w.layout.workers → (a : Act) (next : Stand)
        → after_act w (s.stands role) a ≡ Some next → MayAct w t role a }
    ensures manager { (w : Setup) (t : Histories) → IsSetup w → (s : AreScriptedSoFar w t) → (a : Act) (next : Sweep)
        → manage w s.sweep.task s.sweep a ≡ Some next → MayAct w t (manager w) a }
    ensures recycler { (w : Setup) (t : Histories) → IsSetup w → (s : AreScriptedSoFar w t) → (a : Act) (next : List Gone)
        → serve s.waiting a ≡ Some next → MayAct w t (recycler w) a }
    // The end role begins when all others have ended.
    ensures end { (w : Setup) (t : Histories) → IsSetup w → (s : AreScriptedSoFar w t) → (a : Act) (next : Ending)
        → OthersEnded w s.stands s.sweep s.served s.waiting → end_on w s.ending.queue s.ending a ≡ Some next → MayAct w t (ender w) a }
{}
