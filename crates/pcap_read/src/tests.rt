//! Small files, with what the format says of them.
use crate::{Frames, PcapFault, frames};
use std::alloc::Global;
use std::process::Abort;
use std::test::Fail;
use suri_base::Frame;

// A little-endian file with microseconds and link type 1. Its one record has three bytes of sixty,
// captured at 1,700,000,000.5 s.
const LITTLE: [u8; 43] = [
    0xd4, 0xc3, 0xb2, 0xa1, 2, 0, 4, 0, 0, 0, 0, 0, 0, 0, 0, 0, 0, 0, 4, 0, 1, 0, 0, 0, //
    0x00, 0xf1, 0x53, 0x65, 0x20, 0xa1, 0x07, 0x00, 3, 0, 0, 0, 60, 0, 0, 0, 7, 8, 9,
];

// The same in big-endian order.
const BIG: [u8; 43] = [
    0xa1, 0xb2, 0xc3, 0xd4, 0, 2, 0, 4, 0, 0, 0, 0, 0, 0, 0, 0, 0, 4, 0, 0, 0, 0, 0, 1, //
    0x65, 0x53, 0xf1, 0x00, 0x00, 0x07, 0xa1, 0x20, 0, 0, 0, 3, 0, 0, 0, 60, 7, 8, 9,
];

// The file with these bytes from a place on.
fn patched(alloc: Global, file: &[u8], at: usize, bytes: &[u8]) -> Result<Vec<u8>, PcapFault> {
    let mut changed = file.to_vec(alloc)?;
    for (old, new) in changed.iter_mut().skip(at).zip(bytes) {
        *old = *new;
    }
    Ok(changed)
}

// What the crate reads in a file.
fn read(rt: &impl Abort, alloc: Global, file: &[u8]) -> Result<Frames, PcapFault> {
    assert!(rt; file.len() <= 0x4000_0000);
    frames(alloc, file)
}

#[test]
fn reads_four_forms(rt: HostRuntime) -> Result<(), Fail> {
    let alloc = rt.alloc();
    let micros: u64 = 1_700_000_000_500_000_000;
    let nanos: u64 = 1_700_000_000_000_500_000;
    let table = [
        (patched(alloc, &LITTLE, 0, &[])?, micros),
        (patched(alloc, &BIG, 0, &[])?, micros),
        (patched(alloc, &LITTLE, 0, &[0x4d, 0x3c])?, nanos),
        (patched(alloc, &BIG, 2, &[0x3c, 0x4d])?, nanos),
    ];
    for (file, time) in &table {
        let held = read(&rt, alloc, file)?;
        let frame = Frame {
            no: 1,
            time: *time,
            orig: 60,
            at: 40,
            len: 3,
        };
        assert_eq!(rt; (held.link, held.cut_bytes), (1, 0));
        assert_eq!(rt; held.list.as_slice(), [frame].as_slice());
    }
    Ok(())
}

#[test]
fn finds_faults(rt: HostRuntime) -> Result<(), Fail> {
    let alloc = rt.alloc();
    let table = [
        (patched(alloc, &LITTLE[..3], 0, &[])?, PcapFault::Short),
        (patched(alloc, &LITTLE[..23], 0, &[])?, PcapFault::Short),
        (
            patched(alloc, &LITTLE[..4], 0, &[0x0a, 0x0d, 0x0d, 0x0a])?,
            PcapFault::Ng,
        ),
        (
            patched(alloc, &LITTLE[..4], 0, &[0, 0, 0, 0])?,
            PcapFault::Magic(0),
        ),
        (
            patched(alloc, &LITTLE, 0, &[0x1f, 0x8b, 8, 0])?,
            PcapFault::Magic(0x1f8b_0800),
        ),
        (
            patched(alloc, &LITTLE, 4, &[2, 0, 3, 0])?,
            PcapFault::Version(2, 3),
        ),
        (
            patched(alloc, &BIG, 4, &[1, 2, 0, 4])?,
            PcapFault::Version(258, 4),
        ),
        (
            patched(alloc, &LITTLE, 20, &[105, 0, 1, 0])?,
            PcapFault::Link(65_641),
        ),
        (
            patched(alloc, &LITTLE, 20, &[1, 1, 0, 0])?,
            PcapFault::Link(257),
        ),
        (
            patched(alloc, &LITTLE, 32, &[1, 0, 4, 0])?,
            PcapFault::Long {
                no: 1,
                cap: 262_145,
            },
        ),
    ];
    for (file, fault) in &table {
        match read(&rt, alloc, file) {
            Ok(_) => assert!(rt; false, "{fault:?}"),
            Err(found) => assert_eq!(rt; found, *fault),
        }
    }
    Ok(())
}

#[test]
fn takes_odd_values(rt: HostRuntime) -> Result<(), Fail> {
    let alloc = rt.alloc();

    // The upper half of the link type is ignored.
    let linked = patched(alloc, &LITTLE, 20, &[113, 0, 0, 0xf0])?;
    assert_eq!(rt; read(&rt, alloc, &linked)?.link, 113);

    // The greatest captured length, of which not all bytes are there.
    let long = patched(alloc, &LITTLE, 32, &[0, 0, 4, 0])?;
    let held = read(&rt, alloc, &long)?;
    assert_eq!(rt; (held.list.len(), held.cut_bytes), (0, 19));

    // A fraction above a second, and an original length below the captured one.
    let odd = patched(
        alloc,
        &LITTLE,
        28,
        &[0xff, 0xff, 0xff, 0xff, 3, 0, 0, 0, 2, 0, 0, 0],
    )?;
    let time = 1_700_000_000_000_000_000 + 4_294_967_295_000;
    let frame = Frame {
        no: 1,
        time,
        orig: 2,
        at: 40,
        len: 3,
    };
    assert_eq!(rt; read(&rt, alloc, &odd)?.list.as_slice(), [frame].as_slice());
    Ok(())
}

#[test]
fn reads_cut_files(rt: HostRuntime) -> Result<(), Fail> {
    let alloc = rt.alloc();
    let mut file = LITTLE.to_vec(alloc)?;
    file.extend_from_slice(&LITTLE[24..])?;
    assert_eq!(rt; file.len(), 62);
    for end in 24..63 {
        let whole = if end == 62 {
            2
        } else if end >= 43 {
            1
        } else {
            0
        };
        let held = read(&rt, alloc, &file[..end])?;
        assert_eq!(rt; held.list.len(), whole, "at {end}");
        assert_eq!(rt; held.cut_bytes as usize, (end - 24) % 19, "at {end}");
    }
    Ok(())
}

// A file of so many records without bytes.
fn empty_records(alloc: Global, count: u32) -> Result<Vec<u8>, PcapFault> {
    let mut file = LITTLE[..24].to_vec(alloc)?;
    for _ in 0..count {
        file.extend_from_slice(&[0; 16])?;
    }
    Ok(file)
}

#[test]
fn counts_to_the_most(rt: HostRuntime) -> Result<(), Fail> {
    let alloc = rt.alloc();
    let mut file = empty_records(alloc, 4_194_304)?;
    let held = read(&rt, alloc, &file)?;
    assert_eq!(rt; held.list.len(), 4_194_304);
    assert_eq!(rt; held.cut_bytes, 0);

    // One byte more is one too many, whether it begins a record or is a cut one.
    file.push(0)?;
    assert_eq!(rt; read(&rt, alloc, &file).err(), Some(PcapFault::TooMany));
    file.extend_from_slice(&[0; 15])?;
    assert_eq!(rt; read(&rt, alloc, &file).err(), Some(PcapFault::TooMany));
    Ok(())
}
