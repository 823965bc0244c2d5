//! Laws over the history of one bucket. Each is a clause of a function that does nothing.
ghost use Rattle.std.specs.Prelude.{◌≡◌, ℕ, ◌≤◌, ◌+◌, Bool, true, false, List, ◌∷◌, ◌++◌, length, reverse, sum_by, Some};
ghost use Rattle.bucket_laws.specs.Counts.{one_if, times_begun, times_left};
ghost use Rattle.bucket_laws.specs.Draining.{IsEmpty, is_drained};
ghost use Rattle.bucket_laws.specs.Ends.{HasEnd, NextFits, detaches, is_detached, next_of, times_detached};
ghost use Rattle.bucket_laws.specs.Keys.{Falls, IsCut, IsPlaced, answered, answers, pieces};
ghost use Rattle.bucket_laws.specs.Leaving.{AreRising, gone, runs, sum_nodes};
ghost use Rattle.bucket_laws.specs.Naming.{IsNamedByFirst, NamesHere, is_let_go_by, lets_many_go, names};
ghost use Rattle.bucket_laws.specs.Nodes.{all_freed, all_held, all_stored, all_taken, holds, taken_by, times_freed, times_stored, times_taken};
ghost use Rattle.bucket_laws.specs.Places.{At, History, In};
ghost use Rattle.bucket_rules.specs.Own.{is_refused, looked};
ghost use Rattle.bucket_rules.specs.Packets.{bearing, has_key};
ghost use Rattle.bucket_rules.specs.Row.{Off, detached, has, is_here, lets_go, made, row};
ghost use Rattle.bucket_rules.specs.Rule.{IsLegal, count_of};
ghost use Rattle.bucket_rules.specs.declared.fixed.Fixed.{Fixed};
ghost use Rattle.suri_base.specs.Capture.{IsCapture, packets_in};
ghost use Rattle.suri_base.specs.Dealing.{bucket_of};
ghost use Rattle.suri_base.specs.History.{Begins, entry};
ghost use Rattle.suri_base.specs.Keys.{key_list};
ghost use Rattle.suri_base.specs.declared.entry.BucketNote.{BucketNote};
ghost use Rattle.suri_base.specs.declared.entry.BucketNote.TheVariants.{Missing};
ghost use Rattle.suri_base.specs.declared.entry.Entry.{Entry};
ghost use Rattle.suri_base.specs.declared.facts.Facts.{Facts};
ghost use Rattle.suri_base.specs.declared.key.Key.{Key};

/// No entry names a run that left, and a run that left doesn't come back.
pub fn runs_left_are_let_alone()
    // What an entry names is in the bucket before it.
    ensures named { (s : Fixed) (history : History) → IsLegal s history → (e : Entry BucketNote) (past : History)
        → At e past history → NamesHere s past e.note }
    // A run that began and isn't in the bucket any more stays away.
    ensures gone { (s : Fixed) (since old : History) (a : ℕ) → IsLegal s (since ++ old) → has (made old) a ≡ true
        → is_here (row s a old) ≡ false → is_here (row s a (since ++ old)) ≡ false }
    // It stays as it was.
    ensures same { (s : Fixed) (since old : History) (a : ℕ) → IsLegal s (since ++ old) → has (made old) a ≡ true
        → is_here (row s a old) ≡ false → row s a (since ++ old) ≡ row s a old }
    // No later entry names it.
    ensures unnamed { (s : Fixed) (e : Entry BucketNote) (since old : History) (a : ℕ) → IsLegal s (e ∷ since ++ old)
        → has (made old) a ≡ true → is_here (row s a old) ≡ false → names e.note a ≡ false }
{}

/// Every run begins once and leaves once, or is still in the bucket.
pub fn runs_leave_once()
    ensures once { (s : Fixed) (history : History) (a : ℕ) → IsLegal s history → times_begun a history ≡ one_if (has (made history) a) }
    ensures balance { (s : Fixed) (history : History) (a : ℕ) → IsLegal s history
        → times_begun a history ≡ times_left s a history + one_if (is_here (row s a history)) }
    // Where it isn't a sweep or a drain, an entry lets go the run that it tells, and no other.
    ensures leaver { (s : Fixed) (e : Entry BucketNote) (past : History) (a : ℕ) → IsLegal s (e ∷ past)
        → lets_many_go e.note ≡ false → 1 ≤ a → lets_go s past e.note a ≡ is_let_go_by e.note a }
{}

/// The runs that an entry lets go are listed by their numbers, each with the nodes that it takes along.
pub fn leaving_runs_are_listed()
    ensures are { (s : Fixed) (past : History) (n : BucketNote) (a : ℕ) → IsLegal s past → has (runs (gone s past n)) a ≡ lets_go s past n a }
    ensures rise { (s : Fixed) (past : History) (n : BucketNote) → IsLegal s past → AreRising (runs (gone s past n)) }
    // So a sweep and a drain tell how many there are.
    ensures many { (s : Fixed) (past : History) (n : BucketNote) → length (gone s past n) ≡ count_of past (λ a. lets_go s past n a) }
    ensures nodes { (s : Fixed) (past : History) (n : BucketNote) → sum_nodes (gone s past n) ≡ sum_by (λ a. taken_by s a past n) (made past) }
{}

/// A drained bucket is empty and stays so.
pub fn drained_buckets_are_empty()
    // After a drain anywhere in the history every packet is done with, and no run is there.
    ensures empty { (s : Fixed) (history : History) → IsLegal s history → is_drained history ≡ true → IsEmpty s history }
    // So each run left as often as it began.
    ensures left { (s : Fixed) (history : History) (a : ℕ) → IsLegal s history → is_drained history ≡ true
        → times_begun a history ≡ times_left s a history }
    // No entry after it looks a packet up, or answers one; so no run begins.
    ensures quiet { (s : Fixed) (e : Entry BucketNote) (past : History) → IsLegal s (e ∷ past) → is_drained past ≡ true
        → (looked e.note ≡ 0) × (answers e.note ≡ 0) }
    ensures stays { (s : Fixed) (e : Entry BucketNote) (past : History) → IsLegal s (e ∷ past) → is_drained past ≡ true
        → made (e ∷ past) ≡ made past }
{}

/// Every node that was stored was freed by a close, left with its run, or is held by a run in the bucket.
pub fn nodes_come_back()
    ensures run { (s : Fixed) (history : History) (a : ℕ) → IsLegal s history
        → times_stored s a history ≡ times_freed a history + (times_taken s a history + holds (row s a history)) }
    ensures all { (s : Fixed) (history : History) → IsLegal s history
        → all_stored history ≡ all_freed history + (all_taken s history + all_held s history) }
    ensures drained { (s : Fixed) (history : History) → IsLegal s history → is_drained history ≡ true
        → all_stored history ≡ all_freed history + all_taken s history }
{}

/// The packets of a key are answered in file order: each joins a run, begins one or is refused.
pub fn packets_are_answered_in_order()
    ensures order { (s : Fixed) (k : Key) (history : History) → IsCapture s.capture → IsLegal s history → Falls (answered s k history) }
    // Each is a packet of the key.
    ensures listed { (s : Fixed) (k : Key) (history : History) (t : Facts) → In t (answered s k history)
        → In t (key_list k (packets_in s.capture.seen)) }
    // A drained bucket answered all packets of its keys, each once.
    ensures all { (s : Fixed) (k : Key) (history : History) → IsLegal s history → is_drained history ≡ true
        → bucket_of k s.layout.rows ≡ s.number → answered s k history ≡ reverse (key_list k (packets_in s.capture.seen)) }
    // So at each time before, those answered are the first ones of the key, and none is left out between.
    ensures first { (s : Fixed) (k : Key) (since old : History) → IsLegal s (since ++ old) → is_drained (since ++ old) ≡ true
        → bucket_of k s.layout.rows ≡ s.number
        → Begins (answered s k old) (reverse (key_list k (packets_in s.capture.seen))) }
{}

/// No packet is lost or counted twice: the packets of a key are cut, in their order, into the members of its runs and refused packets.
pub fn packets_are_cut()
    // So it is at each time with those that were answered.
    ensures answered { (s : Fixed) (k : Key) (history : History) → IsLegal s history
        → IsCut s k history (answered s k history) (pieces s k history) }
    // After a drain it is so with all packets of the key.
    ensures all { (s : Fixed) (k : Key) (history : History) → IsLegal s history → is_drained history ≡ true
        → bucket_of k s.layout.rows ≡ s.number
        → IsCut s k history (reverse (key_list k (packets_in s.capture.seen))) (pieces s k history) }
{}

/// Each packet that was answered is a member of one run, or was refused.
pub fn packets_are_counted_once()
    ensures placed { (s : Fixed) (k : Key) (history : History) (t : Facts) → IsLegal s history → In t (answered s k history)
        → IsPlaced s history t }
    // After a drain this holds of each packet of the bucket.
    ensures all { (s : Fixed) (history : History) (t : Facts) → IsLegal s history → is_drained history ≡ true
        → In t (packets_in s.capture.seen) → bucket_of t.key s.layout.rows ≡ s.number → IsPlaced s history t }
    // A member of a run is no member of another, and wasn't refused.
    ensures one { (s : Fixed) (history : History) (a b : ℕ) (t : Facts) → IsCapture s.capture → IsLegal s history
        → In t (row s a history).members → In t (row s b history).members → a ≡ b }
    ensures unrefused { (s : Fixed) (history : History) (a f : ℕ) (t : Facts) → IsCapture s.capture → IsLegal s history
        → In t (row s a history).members → bearing s.capture f ≡ Some t → is_refused f history ≡ false }
    // A run is named by the frame of its first packet.
    ensures first { (s : Fixed) (history : History) (a : ℕ) → IsLegal s history → has (made history) a ≡ true
        → IsNamedByFirst s a (row s a history).members }
    // The members of a run bear its key, and come in file order, each once.
    ensures key { (s : Fixed) (history : History) (a : ℕ) (t : Facts) → IsLegal s history → In t (row s a history).members
        → has_key (row s a history).members t.key ≡ true }
    ensures order { (s : Fixed) (history : History) (a : ℕ) → IsCapture s.capture → IsLegal s history → Falls (row s a history).members }
{}

/// Every run that packets can't join any more was detached by one entry, and its end is the one that this entry gives.
pub fn runs_have_ends()
    ensures end { (s : Fixed) (a : ℕ) (o : Off) (history : History) → IsLegal s history → (row s a history).place ≡ detached o
        → HasEnd s a history o }
    ensures once { (s : Fixed) (a : ℕ) (history : History) → IsLegal s history
        → times_detached s a history ≡ one_if (is_detached (row s a history).place) }
    // Every run that began and left has an end; after a drain, so has every run that began.
    ensures gone { (s : Fixed) (a : ℕ) (history : History) → has (made history) a ≡ true → is_here (row s a history) ≡ false
        → (o : Off) × ((row s a history).place ≡ detached o) }
    ensures all { (s : Fixed) (a : ℕ) (history : History) → IsLegal s history → is_drained history ≡ true
        → has (made history) a ≡ true → (o : Off) × ((row s a history).place ≡ detached o) }
    // A look that detaches a run comes at the next packet of its key or at a later one, and a drain after all of them.
    ensures next { (s : Fixed) (a : ℕ) (history : History) → IsCapture s.capture → IsLegal s history
        → (e : Entry BucketNote) (past : History) → At e past history → detaches s past e.note a ≡ true
        → NextFits e.note (next_of (row s a past).members) }
    // Where the bucket is drained in the end, it comes at just the next one.
    ensures looked { (s : Fixed) (a role step f : ℕ) (emergency : Bool) (seen ended : ℕ) (past history : History)
        → IsCapture s.capture → IsLegal s history → is_drained history ≡ true
        → At (entry role step (Missing f emergency seen ended)) past history
        → detaches s past (Missing f emergency seen ended) a ≡ true → next_of (row s a past).members ≡ f }
{}
