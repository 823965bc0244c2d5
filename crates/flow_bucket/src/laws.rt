//! What every legal history of a bucket is.
ghost use Rattle.std.specs.Prelude.{◌≡◌, ℕ, List, ◌∷◌, false};
ghost use Rattle.suri_base.specs.declared.entry.Entry.{Entry};
ghost use Rattle.suri_base.specs.History.{Legal};
ghost use Rattle.bucket_rules.specs.declared.fixed.Fixed.{Fixed};
ghost use Rattle.suri_base.specs.declared.entry.BucketNote.{BucketNote};
ghost use Rattle.suri_base.specs.declared.entry.BucketNote.TheVariants.{Drained};
ghost use Rattle.bucket_rules.specs.Row.{row, after, is_here};
ghost use Rattle.bucket_rules.specs.Rule.{IsLegal, MayDrain};
ghost use Rattle.bucket_rules.specs.Sound.{IsSound};
ghost use Rattle.flow_bucket.specs.Stands.{BucketMay, BucketAnswers};

/// Each history that is legal for the machine keeps the rules of a bucket, and what follows from them. It does nothing.
pub fn keeps_rules()
    ensures rules { (s : Fixed) (past : List (Entry BucketNote)) → Legal (BucketMay s) (BucketAnswers s) past → IsLegal s past }
    ensures sound { (s : Fixed) (past : List (Entry BucketNote)) → Legal (BucketMay s) (BucketAnswers s) past → IsSound s past }
    // The end of the capture leaves no run in the bucket.
    ensures empty { (s : Fixed) (past : List (Entry BucketNote)) (role count : ℕ) → Legal (BucketMay s) (BucketAnswers s) past → MayDrain s past role
        → (a : ℕ) → is_here (after s a (Drained count) (row s a past)) ≡ false }
{}
