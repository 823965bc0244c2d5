//! What no clause says: that each call succeeds with ample memory, and what passes through std.
use crate::{
    BLOCK, Failed, Gate, Gathered, MemSink, MemSource, OpenGate, PairGate, RepeatSource, Sink,
    Source, StdSink, StdSource, Unread, read_whole, write_whole,
};
use std::io;
use std::io::{ErrorKind, Read, Write};
use std::test::Fail;

// A reader and a writer in one: its reads, its writes and its flushes fail, take nothing, or work.
#[derive(Drop)]
struct Pipe {
    read: bool,
    taken: usize,
    flush: bool,
}

// A writer that holds back what it takes, at most four bytes a write, until it is flushed.
#[derive(Drop)]
struct Held {
    waiting: usize,
    sent: usize,
}

impl Write for Held {
    fn write(&mut self, buf: &[u8]) -> io::Result<usize> {
        self.waiting = self.waiting.saturating_add(buf.len().min(4));
        Ok(buf.len().min(4))
    }

    fn flush(&mut self) -> io::Result<()> {
        self.sent = self.sent.saturating_add(self.waiting);
        self.waiting = 0;
        Ok(())
    }
}

fn refused(works: bool) -> io::Result<()> {
    if works {
        Ok(())
    } else {
        Err(io::Error::from(ErrorKind::BrokenPipe))
    }
}

impl Read for Pipe {
    fn read(&mut self, buf: &mut [u8]) -> io::Result<usize> {
        refused(self.read)?;
        Ok(buf.len().min(2))
    }
}

impl Write for Pipe {
    fn write(&mut self, buf: &[u8]) -> io::Result<usize> {
        refused(self.taken < 9)?;
        Ok(buf.len().min(self.taken))
    }

    fn flush(&mut self) -> io::Result<()> {
        refused(self.flush)
    }
}

#[test]
fn std_source_passes_bytes_and_failures_on(rt: HostRuntime) -> Result<(), Fail> {
    let mut buffer = [0; 4];
    let mut source = StdSource::new("abcdef".as_bytes());
    assert_eq!(rt; source.read(&mut buffer), Ok(4));
    assert_eq!(rt; buffer.as_slice(), b"abcd".as_slice());
    assert_eq!(rt; source.read(&mut buffer), Ok(2));
    assert_eq!(rt; source.read(&mut buffer), Ok(0));
    let mut broken = StdSource::new(Pipe {
        read: false,
        taken: 0,
        flush: true,
    });
    assert_eq!(rt; broken.read(&mut buffer), Err(Failed));
    Ok(())
}

#[test]
fn std_sink_passes_bytes_and_failures_on(rt: HostRuntime) -> Result<(), Fail> {
    let mut bytes: Vec<u8> = Vec::new(rt.alloc());
    let mut sink = StdSink::new(&mut bytes);
    assert_eq!(rt; sink.write(b"abc"), Ok(3));
    assert_eq!(rt; sink.write(b""), Ok(0));
    assert_eq!(rt; sink.write(b"de"), Ok(2));
    assert_eq!(rt; bytes.as_slice(), b"abcde".as_slice());
    // The bytes that the writer takes at a write (9: it fails), whether a flush works, the answer.
    for (taken, flush, want) in [
        (2, true, Ok(2)),
        (0, true, Err(Failed)),
        (2, false, Err(Failed)),
        (9, true, Err(Failed)),
    ] {
        let mut sink = StdSink::new(Pipe {
            read: true,
            taken,
            flush,
        });
        assert_eq!(rt; sink.write(b"abc"), want, "at {taken}, {flush}");
    }
    Ok(())
}

#[test]
fn std_sink_flushes_after_each_write(rt: HostRuntime) -> Result<(), Fail> {
    for (text, sent) in [(b"a".as_slice(), 1), (b"abcd", 4), (b"abcdefgh", 4)] {
        let mut held = Held {
            waiting: 0,
            sent: 0,
        };
        let mut sink = StdSink::new(&mut held);
        assert_eq!(rt; sink.write(text), Ok(sent));
        drop(sink);
        assert_eq!(rt; (held.waiting, held.sent), (0, sent));
    }
    Ok(())
}

#[test]
fn source_in_memory_gives_parts_and_fails_as_listed(rt: HostRuntime) -> Result<(), Fail> {
    let alloc = rt.alloc();
    let mut buffer = [0; 20];
    let mut small = [0; 3];
    let bytes = vec![in alloc; 7; 40]?;
    let mut source = MemSource::new(bytes, 16, vec![in alloc; 2]?);
    for want in [Ok(16), Err(Failed), Ok(16)] {
        assert_eq!(rt; source.read(&mut buffer), want);
    }
    assert_eq!(rt; source.read(&mut small), Ok(3));
    for want in [Ok(5), Ok(0)] {
        assert_eq!(rt; source.read(&mut buffer), want);
    }
    Ok(())
}

#[test]
fn sink_in_memory_takes_parts_and_fails_as_listed(rt: HostRuntime) -> Result<(), Fail> {
    let alloc = rt.alloc();
    let mut sink = MemSink::new(alloc, 25, 10, vec![in alloc; 3]?)?;
    let text = b"0123456789abcdefghij0123456789";
    assert_eq!(rt; write_whole(&mut sink, text), Err(Failed));
    assert_eq!(rt; sink.bytes(), b"0123456789abcdefghij".as_slice());
    assert_eq!(rt; sink.write(b"zyxwvuts"), Ok(5));
    assert_eq!(rt; sink.write(b""), Ok(0));
    assert_eq!(rt; sink.write(b"z"), Err(Failed));
    assert_eq!(rt; sink.bytes(), b"0123456789abcdefghijzyxwv".as_slice());
    Ok(())
}

#[test]
fn sink_in_memory_takes_nothing_as_listed(rt: HostRuntime) -> Result<(), Fail> {
    let alloc = rt.alloc();
    let mut sink = MemSink::idle(alloc, 25, 10, vec![in alloc; 2]?)?;
    assert_eq!(rt; sink.write(b""), Ok(0));
    for want in [Ok(0), Ok(3)] {
        assert_eq!(rt; sink.write(b"abc"), want);
    }
    let mut sink = MemSink::idle(alloc, 25, 10, vec![in alloc; 2]?)?;
    assert_eq!(rt; write_whole(&mut sink, b"0123456789abc"), Err(Failed));
    assert_eq!(rt; sink.bytes(), b"0123456789".as_slice());
    Ok(())
}

#[test]
fn source_is_read_to_its_end(rt: HostRuntime) -> Result<(), Fail> {
    let alloc = rt.alloc();
    let text = b"forty bytes, or whatever number there is";
    // The reads that fail, the limit, and the answer: 40 bytes at 16 a read.
    for (failing, limit, want) in [
        (9, 40, Ok(text.as_slice())),
        (9, 39, Err(Unread::Above)),
        (2, 40, Err(Unread::Failed)),
    ] {
        let mut source = MemSource::new(text.to_vec(alloc)?, 16, vec![in alloc; failing]?);
        match read_whole(alloc, &mut source, limit) {
            Ok(bytes) => assert_eq!(rt; Ok(bytes.as_slice()), want),
            Err(fault) => assert_eq!(rt; Err(fault), want),
        }
    }
    Ok(())
}

#[test]
fn repeats_are_read_up_to_the_limit(rt: HostRuntime) -> Result<(), Fail> {
    let alloc = rt.alloc();
    for (left, limit, want) in [
        (0, 0, Ok(0)),
        (1, 0, Err(Unread::Above)),
        (200_000, 200_000, Ok(200_000)),
        (200_001, 200_000, Err(Unread::Above)),
    ] {
        let mut source = RepeatSource::new(7, left);
        match read_whole(alloc, &mut source, limit) {
            Ok(bytes) => {
                assert_eq!(rt; Ok(bytes.len()), want);
                assert!(rt; bytes.iter().all(|byte| *byte == 7));
            }
            Err(fault) => assert_eq!(rt; Err(fault), want),
        }
    }
    Ok(())
}

#[test]
fn texts_are_gathered_before_they_are_written(rt: HostRuntime) -> Result<(), Fail> {
    let alloc = rt.alloc();
    let mut sink = MemSink::new(alloc, 2 * BLOCK, 5000, Vec::new(alloc))?;
    let mut gathered = Gathered::new(alloc);
    let line = vec![in alloc; b'x'; 1000]?;
    for _ in 0..65 {
        assert_eq!(rt; gathered.add(&mut sink, &line), Ok(()));
    }
    assert_eq!(rt; sink.bytes().len(), 0);
    gathered.add(&mut sink, &line)?;
    assert_eq!(rt; sink.bytes().len(), 66_000);
    gathered.add(&mut sink, b"the rest")?;
    assert_eq!(rt; sink.bytes().len(), 66_000);
    assert_eq!(rt; gathered.finish(&mut sink), Ok(()));
    assert_eq!(rt; sink.bytes().len(), 66_008);
    OpenGate.at(0, 1, 4);
    Ok(())
}

#[test]
fn a_worker_is_held_until_another_ends_its_round(rt: HostRuntime) -> Result<(), Fail> {
    let gate = PairGate::new(0, 1);
    assert!(rt; !gate.met());
    // The held worker's own end, and the other's batches, open nothing.
    gate.at(0, 0, 4);
    gate.at(1, 0, 2);
    gate.at(1, 0, 4);
    assert!(rt; !gate.met());
    gate.at(0, 0, 2);
    assert!(rt; gate.met());
    assert!(rt; !gate.gave_up());
    let alone = PairGate::new(0, 1);
    alone.at(0, 0, 2);
    assert!(rt; alone.gave_up());
    assert!(rt; !alone.met());
    // It is held at its first batch alone.
    alone.at(0, 0, 2);
    alone.at(1, 0, 4);
    assert!(rt; alone.met());
    Ok(())
}
