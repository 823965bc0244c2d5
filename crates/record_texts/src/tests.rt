//! The lines of records in pieces, beside those of a slow model.
ghost use Rattle.std.specs.Prelude.{All, IfOk};
ghost use Rattle.suri_base.specs.Keys.{IsNameable};

use crate::test_lines::{FLOWS, NETFLOWS};
use crate::texts;
use flow_object::FlowLine;
use flow_sum::{Dir, Sums};
use std::alloc::Global;
use std::test::Fail;
use suri_base::{App, End, Key, Reason, Side, StreamLine, Vlans};
use tcp_session::{Class, State};

const SEED: u16 = 51_966;

// 2023-11-14T22:13:20 UTC, and a second, in nanoseconds.
const T: u64 = 1_700_000_000_000_000_000;

const SECOND: u64 = 1_000_000_000;

const NO_PACKET: Dir = Dir {
    pkts: 0,
    bytes: 0,
    start: 0,
    end: 0,
    flags: 0,
    min_ttl: 0,
    max_ttl: 0,
};

const NO_STREAM: StreamLine = StreamLine {
    bytes: 0,
    digest: [0; 20],
    stop: 0,
};

// The record of the datagram in frame `no`, from 10.0.0.1 to 10.0.0.2, sent so many seconds after T. Its ports, its length and its TTL
// rise with the number.
fn record_of(no: u8) -> FlowLine
    ensures { IsNameable result.sums.key }
{
    let time = T + u64::from(no) * SECOND;
    let port = u16::from(no);
    let key = Key {
        a: End {
            addr: 0x0a00_0001,
            port: 1000 + port,
        },
        b: End {
            addr: 0x0a00_0002,
            port: 2000 + port,
        },
        one_way: false,
        version: 4,
        proto: 17,
        vlans: Vlans {
            first: 0,
            second: 0,
            third: 0,
            count: 0,
        },
    };
    let asked = Dir {
        pkts: 1,
        bytes: 82 + u64::from(no),
        start: time,
        end: time,
        flags: 0,
        min_ttl: 60 + no % 100,
        max_ttl: 60 + no % 100,
    };
    FlowLine {
        class: Class::New,
        app: App::None,
        sums: Sums {
            first_no: u32::from(no),
            last_no: u32::from(no),
            last_clock: time,
            key,
            client: Side::FromA,
            icmp: None,
            ts: asked,
            tc: NO_PACKET,
        },
        state: State::Nothing,
        ts: NO_STREAM,
        tc: NO_STREAM,
        emergency: false,
        reason: Reason::Shutdown,
    }
}

// So many records: those of frames 1, 2 and 3 in turn.
fn records(alloc: Global, count: u8) -> Result<Vec<FlowLine>, Fail>
    ensures { IfOk result (λ lines. All (λ line. IsNameable line.sums.key) lines.items) }
{
    let mut lines = Vec::new(alloc);
    for k in 0..count {
        lines.push(record_of(k % 3 + 1))?;
    }
    Ok(lines)
}

// What is to be written of them.
fn wanted(alloc: Global, count: u8, netflow: bool) -> Result<Vec<u8>, Fail> {
    let mut text = Vec::new(alloc);
    for k in 0..count {
        let at = usize::from(k % 3);
        text.extend_from_slice(FLOWS[at].as_bytes())?;
        if netflow {
            text.extend_from_slice(NETFLOWS[at].as_bytes())?;
        }
    }
    Ok(text)
}

#[test]
fn makes_the_lines_in_pieces(rt: HostRuntime) -> Result<(), Fail> {
    let alloc = rt.alloc();
    // How many records, in pieces of how many; whether netflow lines are asked for; and how many texts are made.
    let table: [(u8, usize, bool, usize); 8] = [
        (0, 1, true, 1),
        (1, 1, false, 1),
        (3, 3, true, 1),
        (3, usize::MAX, false, 1),
        (3, 2, true, 2),
        (3, 1, false, 3),
        (250, 7, true, 36),
        (250, 1, false, 250),
    ];
    for (count, size, netflow, pieces) in table {
        assert!(rt; size > 0);
        let lines = records(alloc, count)?;
        let made = texts(&rt, alloc, &lines, SEED, netflow, size)?;
        assert_eq!(rt; made.len(), pieces);
        let mut text = Vec::new(alloc);
        for piece in &made {
            text.extend_from_slice(piece)?;
        }
        let wanted = wanted(alloc, count, netflow)?;
        assert_eq!(rt; str::from_utf8(&text), str::from_utf8(&wanted));
    }
    Ok(())
}
