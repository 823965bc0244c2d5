//! Laws over the records of a whole run. Each is a clause of a function that does nothing.
ghost use Rattle.bucket_rules.specs.Row.{is_here, row};
ghost use Rattle.flow_object.specs.declared.outcome.FlowLine.{FlowLine};
ghost use Rattle.record_laws.specs.Telling.{HaveTold, told_below};
ghost use Rattle.role_steps.specs.Items.{IsLine, LinesOf};
ghost use Rattle.run_laws.specs.Setting.{IsSetup};
ghost use Rattle.run_rules.specs.Growing.{HasGrown};
ghost use Rattle.run_rules.specs.Histories.{Histories, bucket_at};
ghost use Rattle.run_rules.specs.Lawful.{AreLawful, AreScripted};
ghost use Rattle.run_rules.specs.Runs.{line_in, runs_in, verdicts_on};
ghost use Rattle.run_rules.specs.Setup.{Setup, fixed_at, roles};
ghost use Rattle.std.specs.List.Sorted.{IsNonDecreasingBy, IsPermutation};
ghost use Rattle.std.specs.Prelude.{◌≡◌, ℕ, ◌<◌, false, List, length, map, Some};

/// A line that was made of a run where it left, from what a role had seen then, is the record of the run by the whole trail.
pub fn lines_are_records()
    ensures line { (w : Setup) (seen t : Histories) → IsSetup w → AreScripted w t → HasGrown seen t → (a : ℕ) (l : FlowLine) → IsLine w seen a l
        → line_in w t a ≡ Some l }
    // It bears the number of the run.
    ensures number { (w : Setup) (seen t : Histories) → IsSetup w → AreScripted w t → HasGrown seen t → (a : ℕ) (l : FlowLine) → IsLine w seen a l
        → l.sums.first_no ≡ a }
    // What was told over the histories that a role had seen is told over the longer ones.
    ensures grow { (w : Setup) (seen t : Histories) → HasGrown seen t → (runs : List ℕ) (lines : List FlowLine) → LinesOf w seen runs lines
        → LinesOf w t runs lines }
    ensures lines { (w : Setup) (seen t : Histories) → IsSetup w → AreScripted w t → HasGrown seen t → (runs : List ℕ) (lines : List FlowLine)
        → LinesOf w seen runs lines → map (λ a. line_in w t a) runs ≡ map (λ l. Some l) lines }
    // The verdicts that were told at the closes of a run that left are those on its packets, in their order.
    ensures verdicts { (w : Setup) (t : Histories) → IsSetup w → AreScripted w t → (b : ℕ) → b < length t.buckets → (a : ℕ)
        → is_here (row (fixed_at w b) a (bucket_at b t.buckets)) ≡ false
        → (row (fixed_at w b) a (bucket_at b t.buckets)).judged ≡ verdicts_on w.capture.bytes (row (fixed_at w b) a (bucket_at b t.buckets)).members }
{}

/// The records that all roles told, in the order of their runs' numbers, are exactly one for each run of the trail.
pub fn records_are_whole()
    ensures whole { (w : Setup) (t : Histories) → IsSetup w → (l : AreLawful w t) → (told : ℕ → List FlowLine) → HaveTold w t l.scripted.acts told
        → (lines : List FlowLine) → IsPermutation (told_below (roles w) told) lines → IsNonDecreasingBy (λ x. x.sums.first_no) lines
        → map (λ x. Some x) lines ≡ map (λ a. line_in w t a) (runs_in t) }
{}
