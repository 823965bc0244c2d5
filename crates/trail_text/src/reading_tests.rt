//! Texts that are read back, and texts outside the grammar, each line written by hand.
use crate::{TrailFault, read_trail, trail_text};
use std::alloc::Global;
use std::test::Fail;

// A text in which each kind of entry stands.
const EACH_KIND: &str = "suri-trail 1\n\
    layout 3 256 65536 2 1048576 4097 100 1073741824\n\
    pool 6\n\
    0 0 took 1\n\
    4294967295 18446744073709551615 full 2 3 4\n\
    12 10 put 5\n\
    13 100 turn 6 7\n\
    14 109 mode 1\n\
    16 111 over 8 0\n\
    segments 3\n\
    18 19 took 20\n\
    21 22 full 23 24 25\n\
    26 27 gave 28\n\
    bucket 0 6\n\
    1 21 found 31 1 41 51 inorder\n\
    3 23 missing 33 0 43 53\n\
    4 24 made 34 needs\n\
    6 26 refused 36\n\
    7 27 stored 37\n\
    8 28 stopped 38\n\
    bucket 1 6\n\
    1 1 closed 61 http 71 81 1\n\
    3 3 idle 63 tls\n\
    6 6 victim 66 76\n\
    7 7 inuse 67 77\n\
    8 8 swept 68 0 78 88\n\
    9 9 drained 69\n";

// Whether the text is read as a trail whose text it is.
#[tactic(auto, using(crate::proofs::Feeds::few_lines))]
fn comes_back(alloc: Global, text: &str) -> Result<bool, Fail> {
    let bytes = text.as_bytes();
    if bytes.len() > 100_000 {
        return Ok(false);
    }
    match read_trail(alloc, bytes) {
        Ok(trail) => {
            let again = trail_text(alloc, &trail)?;
            Ok(again.as_str() == text)
        }
        Err(_) => Ok(false),
    }
}

// Whether the line of that number, from 1, is the first one that can't stand in the text.
#[tactic(auto, using(crate::proofs::Feeds::few_lines))]
fn faults_at(alloc: Global, text: &str, line: u32) -> bool {
    let bytes = text.as_bytes();
    if bytes.len() > 100_000 {
        return false;
    }
    match read_trail(alloc, bytes) {
        Ok(_) => false,
        Err(fault) => fault == TrailFault::Line { no: line },
    }
}

#[test]
fn reads_each_kind_of_entry(rt: HostRuntime) -> Result<(), Fail> {
    let alloc = rt.alloc();
    assert!(rt; comes_back(alloc, EACH_KIND)?);
    assert!(rt;
        comes_back(
            alloc,
            "suri-trail 1\nlayout 1 1 1 1 1 0 1 0\npool 0\nsegments 0\nbucket 0 0\n"
        )?
    );
    Ok(())
}

#[test]
fn faults_at_lines_before_the_entries(rt: HostRuntime) -> Result<(), Fail> {
    let alloc = rt.alloc();
    assert!(rt; faults_at(alloc, "", 1));
    assert!(rt;
        faults_at(
            alloc,
            "suri-trail 2\nlayout 1 1 1 1 1 0 1 0\npool 0\nsegments 0\nbucket 0 0\n",
            1
        )
    );
    assert!(rt;
        faults_at(
            alloc,
            "suri-trail 1\nlayout 1 1 1 2 1 0 1 0\npool 0\nsegments 0\nbucket 0 0\nbucket 1 0\n",
            2
        )
    );
    assert!(rt;
        faults_at(
            alloc,
            "suri-trail 1\nlayout 1 1 1 1 1 0 1 0 \npool 0\nsegments 0\nbucket 0 0\n",
            2
        )
    );
    assert!(rt;
        faults_at(
            alloc,
            "suri-trail 1\nlayout 1 1 1 1 1 0 1 0\npool 00\nsegments 0\nbucket 0 0\n",
            3
        )
    );
    assert!(rt;
        faults_at(
            alloc,
            "suri-trail 1\nlayout 1 1 1 1 1 0 1 0\npool 0\nsegment 0\nbucket 0 0\n",
            4
        )
    );
    assert!(rt;
        faults_at(
            alloc,
            "suri-trail 1\nlayout 1 1 1 1 1 0 1 0\npool 0\nsegments 0\nbucket 1 0\n",
            5
        )
    );
    Ok(())
}

#[test]
fn faults_at_the_first_line_that_is_no_entry(rt: HostRuntime) -> Result<(), Fail> {
    let alloc = rt.alloc();
    // Of too many entries that are told, the next part's line is the first that can't be one.
    assert!(rt;
        faults_at(
            alloc,
            "suri-trail 1\nlayout 1 1 1 1 1 0 1 0\npool 2\n0 0 took 1\nsegments 0\nbucket 0 0\n",
            5
        )
    );
    assert!(rt;
        faults_at(
            alloc,
            "suri-trail 1\nlayout 1 1 1 1 1 0 1 0\npool 1\n0 0 mode 2\nsegments 0\nbucket 0 0\n",
            4
        )
    );
    assert!(rt;
        faults_at(
            alloc,
            "suri-trail 1\nlayout 1 1 1 1 1 0 1 0\npool 0\nsegments 1\n4294967296 0 took 1\nbucket 0 0\n",
            5
        )
    );
    assert!(rt;
        faults_at(
            alloc,
            "suri-trail 1\nlayout 1 1 1 1 1 0 1 0\npool 0\nsegments 0\nbucket 0 1\n0 0 idle 1 ftp\n",
            6
        )
    );
    Ok(())
}

#[test]
fn faults_at_the_end(rt: HostRuntime) -> Result<(), Fail> {
    let alloc = rt.alloc();
    assert!(rt;
        faults_at(
            alloc,
            "suri-trail 1\nlayout 1 1 1 1 1 0 1 0\npool 0\nsegments 0\n",
            5
        )
    );
    assert!(rt;
        faults_at(
            alloc,
            "suri-trail 1\nlayout 1 1 1 1 1 0 1 0\npool 0\nsegments 0\nbucket 0 0",
            5
        )
    );
    assert!(rt;
        faults_at(
            alloc,
            "suri-trail 1\nlayout 1 1 1 1 1 0 1 0\npool 0\nsegments 0\nbucket 0 0\nx\n",
            6
        )
    );
    assert!(rt;
        faults_at(
            alloc,
            "suri-trail 1\nlayout 1 1 1 1 1 0 1 0\npool 0\nsegments 0\nbucket 0 0\nx",
            6
        )
    );
    assert!(rt;
        faults_at(
            alloc,
            "suri-trail 1\nlayout 1 1 1 1 1 0 1 0\npool 0\nsegments 0\nbucket 0 2\n0 0 drained 1\n",
            7
        )
    );
    Ok(())
}
