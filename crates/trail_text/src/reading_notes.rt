//! The words of the notes, read.
ghost use Rattle.std.specs.Prelude.{◌∷◌, codes};
ghost use Rattle.trail_text.specs.Bounds.{BucketFits, PoolFits, SegFits};
ghost use Rattle.trail_text.specs.Pieces.{Spells};
ghost use Rattle.trail_text.specs.Words.{bucket_words, pool_words, seg_words};

use crate::pieces::Pieces;
use crate::values::is;
use crate::words::{
    mode_number, mode_offer, number_app, number_app_ended, number_offer, number_truth, one,
    only_truth, three, two,
};
use suri_base::{BucketNote, PoolNote, SegNote};

/// Reads what the pool of segment nodes noted, where no word follows.
pub fn seg_note(words: &mut Pieces) -> Option<SegNote>
    ensures { Spells seg_words SegFits words.old result }
{
    let Some(name) = words.take() else {
        return None;
    };
    if is(name, "took") {
        one(words).map(|no| SegNote::Took { no })
    } else if is(name, "full") {
        three(words).map(|p| SegNote::Full {
            no: p.0,
            out: p.1,
            limit: p.2,
        })
    } else if is(name, "gave") {
        one(words).map(|count| SegNote::Gave { count })
    } else {
        None
    }
}

/// Reads what the pool of flow objects noted, where no word follows.
pub fn pool_note(words: &mut Pieces) -> Option<PoolNote>
    ensures { Spells pool_words PoolFits words.old result }
{
    let Some(name) = words.take() else {
        return None;
    };
    if is(name, "took") {
        one(words).map(|no| PoolNote::Took { no })
    } else if is(name, "full") {
        three(words).map(|p| PoolNote::Full {
            no: p.0,
            out: p.1,
            limit: p.2,
        })
    } else if is(name, "put") {
        one(words).map(|run| PoolNote::Put { run })
    } else if is(name, "turn") {
        two(words).map(|p| PoolNote::Turn { run: p.0, no: p.1 })
    } else if is(name, "mode") {
        only_truth(words).map(|on| PoolNote::Mode { on })
    } else if is(name, "over") {
        number_truth(words).map(|p| PoolNote::Over {
            round: p.0,
            ended: p.1,
        })
    } else {
        None
    }
}

// Reads what a bucket noted of a packet that joined a run, behind the name of the note.
fn found(words: &mut Pieces) -> Option<BucketNote>
    ensures { Spells bucket_words BucketFits (codes "found" ∷ words.old) result }
{
    let Some((no, emergency, seen, run, offer)) = mode_offer(words) else {
        return None;
    };
    Some(BucketNote::Found {
        no,
        emergency,
        seen,
        run,
        offer,
    })
}

// Reads what a bucket noted of a packet that no linked run takes, behind the name of the note.
fn missing(words: &mut Pieces) -> Option<BucketNote>
    ensures { Spells bucket_words BucketFits (codes "missing" ∷ words.old) result }
{
    let Some((no, emergency, seen, ended)) = mode_number(words) else {
        return None;
    };
    Some(BucketNote::Missing {
        no,
        emergency,
        seen,
        ended,
    })
}

// Reads what a bucket noted of a packet that is done with, behind the name of the note.
fn closed(words: &mut Pieces) -> Option<BucketNote>
    ensures { Spells bucket_words BucketFits (codes "closed" ∷ words.old) result }
{
    let Some((no, app, run, freed, ended)) = number_app_ended(words) else {
        return None;
    };
    Some(BucketNote::Closed {
        no,
        app,
        run,
        freed,
        ended,
    })
}

// Reads what a bucket noted of a refused packet that is done with, behind the name of the note.
fn idle(words: &mut Pieces) -> Option<BucketNote>
    ensures { Spells bucket_words BucketFits (codes "idle" ∷ words.old) result }
{
    let Some((no, app)) = number_app(words) else {
        return None;
    };
    Some(BucketNote::Idle { no, app })
}

// Reads what a bucket noted of runs that had expired, behind the name of the note.
fn swept(words: &mut Pieces) -> Option<BucketNote>
    ensures { Spells bucket_words BucketFits (codes "swept" ∷ words.old) result }
{
    let Some((round, emergency, seen, count)) = mode_number(words) else {
        return None;
    };
    Some(BucketNote::Swept {
        round,
        emergency,
        seen,
        count,
    })
}

/// Reads what a bucket noted, where no word follows.
pub fn bucket_note(words: &mut Pieces) -> Option<BucketNote>
    ensures { Spells bucket_words BucketFits words.old result }
{
    let Some(name) = words.take() else {
        return None;
    };
    if is(name, "found") {
        found(words)
    } else if is(name, "missing") {
        missing(words)
    } else if is(name, "made") {
        number_offer(words).map(|p| BucketNote::Made {
            no: p.0,
            offer: p.1,
        })
    } else if is(name, "refused") {
        one(words).map(|no| BucketNote::Refused { no })
    } else if is(name, "stored") {
        one(words).map(|no| BucketNote::Stored { no })
    } else if is(name, "stopped") {
        one(words).map(|no| BucketNote::Stopped { no })
    } else if is(name, "closed") {
        closed(words)
    } else if is(name, "idle") {
        idle(words)
    } else if is(name, "victim") {
        two(words).map(|p| BucketNote::Victim { no: p.0, run: p.1 })
    } else if is(name, "inuse") {
        two(words).map(|p| BucketNote::AllInUse {
            no: p.0,
            count: p.1,
        })
    } else if is(name, "swept") {
        swept(words)
    } else if is(name, "drained") {
        one(words).map(|count| BucketNote::Drained { count })
    } else {
        None
    }
}
