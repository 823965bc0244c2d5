//! Words beside what they have to choose. Bounds and defaults are those of the table in README.
use crate::{Options, WordFault, options};
use std::alloc::Global;
use std::test::Fail;
use suri_base::Layout;

// What no word changes.
const DEFAULTS: Options = Options {
    layout: Layout {
        workers: 4,
        batch: 32,
        round: 4_096,
        rows: 1_024,
        memcap: 65_536,
        segments: 65_536,
        recovery: 30,
        depth: 1_048_576,
    },
    prealloc: 1_000,
    seed: 0,
    netflow: false,
    audit: false,
    generate: None,
};

// What the program's name and these words choose.
fn chosen(alloc: Global, words: &[&str]) -> Result<Result<Options, WordFault>, Fail> {
    let mut all = Vec::new(alloc);
    all.push(String::from_str(alloc, "suri_run")?)?;
    for word in words {
        all.push(String::from_str(alloc, word)?)?;
    }
    Ok(options(alloc, &all))
}

// The default choices but for one option.
fn with(name: &str, value: u32) -> Options {
    let mut options = DEFAULTS;
    match name {
        "workers" => options.layout.workers = value,
        "batch" => options.layout.batch = value,
        "round" => options.layout.round = value,
        "rows" => options.layout.rows = value,
        "memcap" => options.layout.memcap = value,
        "segments" => options.layout.segments = value,
        "recovery" => options.layout.recovery = value,
        "depth" => options.layout.depth = value,
        "prealloc" => options.prealloc = value,
        "seed" => options.seed = value.min(65_535) as u16,
        "netflow" => options.netflow = true,
        _ => options.audit = true,
    }
    options
}

#[test]
fn takes_each_option_at_its_bounds(rt: HostRuntime) -> Result<(), Fail> {
    let table: [(&[&str], Options); 28] = [
        (&[], DEFAULTS),
        (&["--workers", "1"], with("workers", 1)),
        (&["--workers=64"], with("workers", 64)),
        (&["--batch", "1"], with("batch", 1)),
        (&["--batch=256"], with("batch", 256)),
        (&["--round", "1"], with("round", 1)),
        (&["--round=65536"], with("round", 65_536)),
        (&["--rows", "1"], with("rows", 1)),
        (&["--rows=4096"], with("rows", 4096)),
        (&["--segments", "0"], with("segments", 0)),
        (&["--segments=1048576"], with("segments", 1_048_576)),
        (&["--recovery", "1"], with("recovery", 1)),
        (&["--recovery=100"], with("recovery", 100)),
        (&["--depth", "0"], with("depth", 0)),
        (&["--depth=1073741824"], with("depth", 1_073_741_824)),
        (&["--seed", "0"], with("seed", 0)),
        (&["--seed=65535"], with("seed", 65_535)),
        (&["--memcap=1048576"], with("memcap", 1_048_576)),
        (&["--memcap", "1024"], with("memcap", 1024)),
        (&["--prealloc", "0"], with("prealloc", 0)),
        (&["--prealloc=65536"], with("prealloc", 65_536)),
        (&["--prealloc=1048576"], with("prealloc", 65_536)),
        (&["--netflow"], with("netflow", 1)),
        (&["--audit"], with("audit", 1)),
        (&["--"], DEFAULTS),
        (&["--workers", "+5"], with("workers", 5)),
        (&["--workers=007"], with("workers", 7)),
        (&["--depth=+0"], with("depth", 0)),
    ];
    for (words, want) in &table {
        assert_eq!(rt; chosen(rt.alloc(), words)?, Ok(*want));
    }
    Ok(())
}

#[test]
fn takes_all_options_at_once(rt: HostRuntime) -> Result<(), Fail> {
    let words = [
        "--netflow",
        "--audit",
        "--seed",
        "2",
        "--recovery",
        "3",
        "--depth",
        "4",
        "--segments",
        "5",
        "--prealloc",
        "1000000",
        "--memcap",
        "77",
        "--rows",
        "8",
        "--round",
        "9",
        "--batch",
        "10",
        "--workers",
        "11",
    ];
    let want = Options {
        layout: Layout {
            workers: 11,
            batch: 10,
            round: 9,
            rows: 8,
            memcap: 77,
            segments: 5,
            recovery: 3,
            depth: 4,
        },
        prealloc: 77,
        seed: 2,
        netflow: true,
        audit: true,
        generate: None,
    };
    assert_eq!(rt; chosen(rt.alloc(), &words)?, Ok(want));
    Ok(())
}

#[test]
fn refuses_what_is_no_command_line(rt: HostRuntime) -> Result<(), Fail> {
    let table: [&[&str]; 55] = [
        &["--workers=0"],
        &["--workers", "65"],
        &["--batch=0"],
        &["--batch", "257"],
        &["--round=0"],
        &["--round", "65537"],
        &["--rows=0"],
        &["--rows", "4097"],
        &["--segments=-1"],
        &["--segments", "1048577"],
        &["--recovery=0"],
        &["--recovery", "101"],
        &["--depth=-1"],
        &["--depth", "1073741825"],
        &["--seed=-1"],
        &["--seed", "65536"],
        &["--memcap=0"],
        &["--memcap", "1048577"],
        &["--prealloc=-1"],
        &["--prealloc", "1048577"],
        &["--workers"],
        &["--workers="],
        &["--workers", "-0"],
        &["--workers=0x10"],
        &["--workers=1e1"],
        &["--workers= 5"],
        &["--workers=5 "],
        &["--depth=-0"],
        &["--depth=++1"],
        &["--depth=1_000"],
        &["--depth=18446744073709551616"],
        &["--workers=1", "--workers=1"],
        &["--netflow", "--netflow"],
        &["--netflow=true"],
        &["--net"],
        &["-n"],
        &["--Workers=1"],
        &["--audit", "--audit"],
        &["--audit=true"],
        &["--generate=7", "--audit", "--rows=0"],
        &["--generate=-1", "--frames=3"],
        &["--generate=18446744073709551616", "--frames=3"],
        &["--generate=7", "--frames=0"],
        &["--generate=7", "--frames=1000001"],
        &["--frames=3", "--workers=0"],
        &["--help"],
        &["-h"],
        &["help"],
        &["--version"],
        &["-V"],
        &["capture.pcap"],
        &[""],
        &["-"],
        &["--", "--netflow"],
        &["--rows=10", "--memcap=5", "--workers=0"],
    ];
    for words in &table {
        assert_eq!(rt; chosen(rt.alloc(), words)?, Err(WordFault::Refused));
    }
    Ok(())
}

#[test]
fn takes_a_seed_and_a_number_of_frames(rt: HostRuntime) -> Result<(), Fail> {
    let table: [(&[&str], u64, u32); 3] = [
        (&["--generate", "7", "--frames", "50000"], 7, 50_000),
        (&["--frames=1", "--generate=0"], 0, 1),
        (
            &["--generate=18446744073709551615", "--frames=1000000"],
            18_446_744_073_709_551_615,
            1_000_000,
        ),
    ];
    for (words, seed, frames) in &table {
        let mut want = DEFAULTS;
        want.generate = Some((*seed, *frames));
        assert_eq!(rt; chosen(rt.alloc(), words)?, Ok(want));
    }
    Ok(())
}

#[test]
fn tells_options_that_do_not_go_together(rt: HostRuntime) -> Result<(), Fail> {
    let table: [&[&str]; 7] = [
        &["--frames", "3"],
        &["--generate", "7"],
        &["--generate=0", "--netflow"],
        &["--generate", "7", "--frames", "5", "--audit"],
        &["--audit", "--frames=5", "--netflow", "--generate=7"],
        &["--generate=7", "--audit"],
        &["--frames=3", "--audit"],
    ];
    for words in &table {
        assert_eq!(rt; chosen(rt.alloc(), words)?, Err(WordFault::Pair));
    }
    Ok(())
}

#[test]
fn tells_rows_that_exceed_the_flows(rt: HostRuntime) -> Result<(), Fail> {
    let table: [(&[&str], u32, u32); 6] = [
        (&["--rows", "10", "--memcap", "5"], 10, 5),
        (&["--rows=10", "--memcap=5", "--frames=3"], 10, 5),
        (
            &[
                "--generate=7",
                "--frames=5",
                "--audit",
                "--rows=10",
                "--memcap=5",
            ],
            10,
            5,
        ),
        (&["--memcap", "5"], 1_024, 5),
        (&["--memcap=1023"], 1_024, 1_023),
        (
            &["--memcap=4095", "--rows=4096", "--prealloc=0"],
            4_096,
            4_095,
        ),
    ];
    for (words, rows, memcap) in &table {
        let want = WordFault::Rows {
            rows: *rows,
            memcap: *memcap,
        };
        assert_eq!(rt; chosen(rt.alloc(), words)?, Err(want));
    }
    Ok(())
}
