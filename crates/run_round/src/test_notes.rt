//! Entries of histories, in short, for the tests. Each begins with the number of its role and of the role's step.
use suri_base::{App, BucketNote, Entry, Offer, PoolNote};

pub(crate) fn entry<N>(role: u32, step: u64, note: N) -> Entry<N> {
    Entry { role, step, note }
}

pub(crate) fn mode(role: u32, step: u64, on: bool) -> Entry<PoolNote> {
    entry(role, step, PoolNote::Mode { on })
}

pub(crate) fn took(role: u32, step: u64, no: u32) -> Entry<PoolNote> {
    entry(role, step, PoolNote::Took { no })
}

pub(crate) fn full(role: u32, step: u64, no: u32, out: u32, limit: u32) -> Entry<PoolNote> {
    entry(role, step, PoolNote::Full { no, out, limit })
}

pub(crate) fn turn(role: u32, step: u64, run: u32, no: u32) -> Entry<PoolNote> {
    entry(role, step, PoolNote::Turn { run, no })
}

pub(crate) fn over(role: u32, step: u64, round: u32, ended: bool) -> Entry<PoolNote> {
    entry(role, step, PoolNote::Over { round, ended })
}

pub(crate) fn put(role: u32, step: u64, run: u32) -> Entry<PoolNote> {
    entry(role, step, PoolNote::Put { run })
}

pub(crate) fn found(
    role: u32,
    step: u64,
    no: u32,
    emergency: bool,
    seen: u64,
    run: u32,
    offer: Offer,
) -> Entry<BucketNote> {
    entry(
        role,
        step,
        BucketNote::Found {
            no,
            emergency,
            seen,
            run,
            offer,
        },
    )
}

pub(crate) fn missing(
    role: u32,
    step: u64,
    no: u32,
    emergency: bool,
    seen: u64,
    ended: u32,
) -> Entry<BucketNote> {
    entry(
        role,
        step,
        BucketNote::Missing {
            no,
            emergency,
            seen,
            ended,
        },
    )
}

pub(crate) fn made(role: u32, step: u64, no: u32, offer: Offer) -> Entry<BucketNote> {
    entry(role, step, BucketNote::Made { no, offer })
}

pub(crate) fn refused(role: u32, step: u64, no: u32) -> Entry<BucketNote> {
    entry(role, step, BucketNote::Refused { no })
}

pub(crate) fn stored(role: u32, step: u64, no: u32) -> Entry<BucketNote> {
    entry(role, step, BucketNote::Stored { no })
}

pub(crate) fn stopped(role: u32, step: u64, no: u32) -> Entry<BucketNote> {
    entry(role, step, BucketNote::Stopped { no })
}

pub(crate) fn closed(
    role: u32,
    step: u64,
    no: u32,
    run: u32,
    freed: u32,
    ended: bool,
) -> Entry<BucketNote> {
    entry(
        role,
        step,
        BucketNote::Closed {
            no,
            run,
            freed,
            ended,
            app: App::None,
        },
    )
}

pub(crate) fn idle(role: u32, step: u64, no: u32) -> Entry<BucketNote> {
    entry(role, step, BucketNote::Idle { no, app: App::None })
}

pub(crate) fn victim(role: u32, step: u64, no: u32, run: u32) -> Entry<BucketNote> {
    entry(role, step, BucketNote::Victim { no, run })
}

pub(crate) fn all_in_use(role: u32, step: u64, no: u32, count: u32) -> Entry<BucketNote> {
    entry(role, step, BucketNote::AllInUse { no, count })
}

pub(crate) fn swept(
    role: u32,
    step: u64,
    round: u32,
    emergency: bool,
    seen: u64,
    count: u32,
) -> Entry<BucketNote> {
    entry(
        role,
        step,
        BucketNote::Swept {
            round,
            emergency,
            seen,
            count,
        },
    )
}

pub(crate) fn drained(role: u32, step: u64, count: u32) -> Entry<BucketNote> {
    entry(role, step, BucketNote::Drained { count })
}
