//! Trails beside the text that the grammar has for them, each line written by hand.
use crate::trail_text;
use std::alloc::Global;
use std::test::Fail;
use suri_base::{App, BucketNote, Entry, Layout, Offer, PoolNote, SegNote, Trail};

// The entry of a role's step.
fn entry<N: Drop>(role: u32, step: u64, note: N) -> Entry<N> {
    Entry { role, step, note }
}

// The smallest layout.
const SMALLEST: Layout = Layout {
    workers: 1,
    batch: 1,
    round: 1,
    rows: 1,
    memcap: 1,
    segments: 0,
    recovery: 1,
    depth: 0,
};

// A layout of two rows, with each number another one.
const OTHER: Layout = Layout {
    workers: 3,
    batch: 256,
    round: 65_536,
    rows: 2,
    memcap: 1_048_576,
    segments: 4_097,
    recovery: 100,
    depth: 1_073_741_824,
};

// What the first bucket noted of frames that it met.
fn met(alloc: Global) -> Result<Vec<Entry<BucketNote>>, Fail> {
    let mut notes = Vec::new(alloc);
    notes.push(entry(
        1,
        21,
        BucketNote::Found {
            no: 31,
            emergency: true,
            seen: 41,
            run: 51,
            offer: Offer::InOrder,
        },
    ))?;
    notes.push(entry(
        2,
        22,
        BucketNote::Found {
            no: 32,
            emergency: false,
            seen: 42,
            run: 52,
            offer: Offer::Nothing,
        },
    ))?;
    notes.push(entry(
        3,
        23,
        BucketNote::Missing {
            no: 33,
            emergency: true,
            seen: 43,
            ended: 53,
        },
    ))?;
    notes.push(entry(
        4,
        24,
        BucketNote::Made {
            no: 34,
            offer: Offer::NeedsSegment,
        },
    ))?;
    notes.push(entry(
        5,
        25,
        BucketNote::Made {
            no: 35,
            offer: Offer::Stopped,
        },
    ))?;
    notes.push(entry(6, 26, BucketNote::Refused { no: 36 }))?;
    notes.push(entry(7, 27, BucketNote::Stored { no: 37 }))?;
    notes.push(entry(8, 28, BucketNote::Stopped { no: 38 }))?;
    Ok(notes)
}

// What the second bucket noted of frames that were done with, and of flows that left.
fn left(alloc: Global) -> Result<Vec<Entry<BucketNote>>, Fail> {
    let mut notes = Vec::new(alloc);
    notes.push(entry(
        1,
        1,
        BucketNote::Closed {
            no: 61,
            app: App::Http,
            run: 71,
            freed: 81,
            ended: true,
        },
    ))?;
    notes.push(entry(
        2,
        2,
        BucketNote::Closed {
            no: 62,
            app: App::None,
            run: 72,
            freed: 82,
            ended: false,
        },
    ))?;
    notes.push(entry(
        3,
        3,
        BucketNote::Idle {
            no: 63,
            app: App::Tls,
        },
    ))?;
    notes.push(entry(
        4,
        4,
        BucketNote::Idle {
            no: 64,
            app: App::Ssh,
        },
    ))?;
    notes.push(entry(
        5,
        5,
        BucketNote::Idle {
            no: 65,
            app: App::Dns,
        },
    ))?;
    notes.push(entry(6, 6, BucketNote::Victim { no: 66, run: 76 }))?;
    notes.push(entry(7, 7, BucketNote::AllInUse { no: 67, count: 77 }))?;
    notes.push(entry(
        8,
        8,
        BucketNote::Swept {
            round: 68,
            emergency: false,
            seen: 78,
            count: 88,
        },
    ))?;
    notes.push(entry(9, 9, BucketNote::Drained { count: 69 }))?;
    Ok(notes)
}

// What the pool of flow objects noted.
fn pooled(alloc: Global) -> Result<Vec<Entry<PoolNote>>, Fail> {
    let mut notes = Vec::new(alloc);
    notes.push(entry(0, 0, PoolNote::Took { no: 1 }))?;
    notes.push(entry(
        4_294_967_295,
        18_446_744_073_709_551_615,
        PoolNote::Full {
            no: 2,
            out: 3,
            limit: 4,
        },
    ))?;
    notes.push(entry(12, 10, PoolNote::Put { run: 5 }))?;
    notes.push(entry(13, 100, PoolNote::Turn { run: 6, no: 7 }))?;
    notes.push(entry(14, 109, PoolNote::Mode { on: true }))?;
    notes.push(entry(15, 110, PoolNote::Mode { on: false }))?;
    notes.push(entry(
        16,
        111,
        PoolNote::Over {
            round: 8,
            ended: true,
        },
    ))?;
    notes.push(entry(
        17,
        112,
        PoolNote::Over {
            round: 9,
            ended: false,
        },
    ))?;
    Ok(notes)
}

// What the pool of segment nodes noted.
fn segmented(alloc: Global) -> Result<Vec<Entry<SegNote>>, Fail> {
    let mut notes = Vec::new(alloc);
    notes.push(entry(18, 19, SegNote::Took { no: 20 }))?;
    notes.push(entry(
        21,
        22,
        SegNote::Full {
            no: 23,
            out: 24,
            limit: 25,
        },
    ))?;
    notes.push(entry(26, 27, SegNote::Gave { count: 28 }))?;
    Ok(notes)
}

#[test]
fn writes_an_empty_trail(rt: HostRuntime) -> Result<(), Fail> {
    let alloc = rt.alloc();
    let mut buckets = Vec::new(alloc);
    buckets.push(Vec::new(alloc))?;
    let trail = Trail {
        layout: SMALLEST,
        pool: Vec::new(alloc),
        segments: Vec::new(alloc),
        buckets,
    };
    let text = trail_text(alloc, &trail)?;
    assert_eq!(rt;
        text.as_str(),
        "suri-trail 1\nlayout 1 1 1 1 1 0 1 0\npool 0\nsegments 0\nbucket 0 0\n"
    );
    Ok(())
}

#[test]
fn writes_each_kind_of_entry(rt: HostRuntime) -> Result<(), Fail> {
    let alloc = rt.alloc();
    let mut buckets = Vec::new(alloc);
    buckets.push(met(alloc)?)?;
    buckets.push(left(alloc)?)?;
    let trail = Trail {
        layout: OTHER,
        pool: pooled(alloc)?,
        segments: segmented(alloc)?,
        buckets,
    };
    let text = trail_text(alloc, &trail)?;
    let want = "suri-trail 1\n\
        layout 3 256 65536 2 1048576 4097 100 1073741824\n\
        pool 8\n\
        0 0 took 1\n\
        4294967295 18446744073709551615 full 2 3 4\n\
        12 10 put 5\n\
        13 100 turn 6 7\n\
        14 109 mode 1\n\
        15 110 mode 0\n\
        16 111 over 8 1\n\
        17 112 over 9 0\n\
        segments 3\n\
        18 19 took 20\n\
        21 22 full 23 24 25\n\
        26 27 gave 28\n\
        bucket 0 8\n\
        1 21 found 31 1 41 51 inorder\n\
        2 22 found 32 0 42 52 nothing\n\
        3 23 missing 33 1 43 53\n\
        4 24 made 34 needs\n\
        5 25 made 35 stopped\n\
        6 26 refused 36\n\
        7 27 stored 37\n\
        8 28 stopped 38\n\
        bucket 1 9\n\
        1 1 closed 61 http 71 81 1\n\
        2 2 closed 62 none 72 82 0\n\
        3 3 idle 63 tls\n\
        4 4 idle 64 ssh\n\
        5 5 idle 65 dns\n\
        6 6 victim 66 76\n\
        7 7 inuse 67 77\n\
        8 8 swept 68 0 78 88\n\
        9 9 drained 69\n";
    assert_eq!(rt; text.as_str(), want);
    Ok(())
}
