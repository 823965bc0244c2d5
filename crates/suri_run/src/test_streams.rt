//! Runs over TCP captures whose payloads overlap, wait, wrap and end: the streams of their flows.
use crate::test_frames::*;
use crate::test_runs::*;
use crate::test_texts::*;
use std::alloc::Global;
use std::test::Fail;

// The flags of a segment.
const OPENING: u8 = 0x02;

const ANSWERING: u8 = 0x12;

const CARRYING: u8 = 0x18;

// An end of the connection of SYN and SYN_ACK.
#[derive(Clone, Copy)]
enum End {
    Client,
    Server,
}

// Who sends a segment, its flags, its sequence number and its payload.
type Sent<'a> = (End, u8, u32, &'a [u8]);

// The frame of a segment: SYN or SYN_ACK, but for its length, sequence number, flags and payload.
fn frame_of(alloc: Global, sent: &Sent<'_>) -> Result<Vec<u8>, Fail> {
    let (end, flags, sequence, payload) = sent;
    let mut headers = match end {
        End::Client => SYN,
        End::Server => SYN_ACK,
    };
    let total = u16::try_from(payload.len().saturating_add(40))?;
    headers[16..18].copy_from_slice(&total.to_be_bytes());
    headers[38..42].copy_from_slice(&sequence.to_be_bytes());
    headers[47] = *flags;
    let mut frame = headers.to_vec(alloc)?;
    frame.extend_from_slice(payload)?;
    Ok(frame)
}

// A capture of segments, all at the same time.
fn capture_sent(alloc: Global, segments: &[Sent<'_>]) -> Result<Vec<u8>, Fail> {
    let mut capture = HEADER.to_vec(alloc)?;
    for sent in segments {
        let frame = frame_of(alloc, sent)?;
        push_record(&mut capture, Order::Little, T, 0, frame.as_slice())?;
    }
    Ok(capture)
}

#[test]
fn streams_have_their_text(rt: HostRuntime) -> Result<(), Fail> {
    let alloc = rt.alloc();
    let three: [Sent<'_>; 3] = [
        (End::Client, OPENING, 9, b""),
        (End::Client, CARRYING, 10, b"abc"),
        (End::Client, CARRYING, 13, b"d"),
    ];
    let cases: [(&[&str], &[Sent<'_>], &str); 5] = [
        (
            &[],
            &[
                (End::Client, OPENING, 4_294_967_293, b""),
                (End::Client, CARRYING, 4_294_967_295, b"bc"),
                (End::Client, CARRYING, 0, b"z"),
                (End::Client, CARRYING, 4_294_967_294, b"ayz"),
            ],
            OVERLAP_ACROSS_THE_WRAP,
        ),
        (&["--depth", "2"], &three, DEPTH_TWO),
        (&["--depth", "0"], &three, DEPTH_NONE),
        (&["--depth", "4"], &three, DEPTH_FOUR),
        (
            &["--netflow"],
            &[
                (End::Client, OPENING, 9, b""),
                (End::Server, ANSWERING, 500, b""),
                (End::Client, CARRYING, 10, b"GET / HTTP/1.1\r\n\r\n"),
                (End::Server, CARRYING, 517, b"\r\n\r\n"),
                (End::Server, CARRYING, 501, b"HTTP/1.1 200 OK"),
                (End::Server, CARRYING, 515, b"Kno"),
                (End::Client, CARRYING, 29, b"beyond a gap"),
            ],
            BOTH_STREAMS,
        ),
    ];
    for (options, segments, text) in cases {
        let capture = capture_sent(alloc, segments)?;
        assert_chosen(&rt, alloc, options, capture, text)?;
    }
    Ok(())
}

// A capture of a SYN with sequence number 4,294,967,195, and of 400 segments of one byte behind it, the last one first.
fn in_reverse(alloc: Global) -> Result<Vec<u8>, Fail> {
    let mut capture = capture_sent(alloc, &[(End::Client, OPENING, 4_294_967_195, b"")])?;
    for place in 0..400u32 {
        let offset = 399 - place;
        let [_, _, high, low] = offset.to_be_bytes();
        let payload = [high ^ low];
        let sent: Sent<'_> = (
            End::Client,
            CARRYING,
            offset.wrapping_add(4_294_967_196),
            &payload,
        );
        let frame = frame_of(alloc, &sent)?;
        push_record(&mut capture, Order::Little, T, place, frame.as_slice())?;
    }
    Ok(capture)
}

#[test]
fn segments_in_reverse_are_put_in_order(rt: HostRuntime) -> Result<(), Fail> {
    let alloc = rt.alloc();
    assert_text(&rt, alloc, in_reverse(alloc)?, IN_REVERSE)
}

#[test]
fn streams_stop_where_no_segment_is_left(rt: HostRuntime) -> Result<(), Fail> {
    let alloc = rt.alloc();
    let sent: [Sent<'_>; 3] = [
        (End::Client, OPENING, 1000, b""),
        (End::Client, CARRYING, 1002, b"b"),
        (End::Client, CARRYING, 1001, b"a"),
    ];
    let capture = capture_sent(alloc, &sent)?;
    let options = ["--segments", "0"];
    let seen = run_with(
        &rt,
        alloc,
        &options,
        capture,
        Vec::new(alloc),
        Vec::new(alloc),
    )?;
    assert_eq!(rt; seen.status, 0);
    let text = str::from_utf8(seen.text.as_slice())?;
    let stopped =
        "\"toserver\":{\"bytes\":0,\"sha1\":\"da39a3ee5e6b4b0d3255bfef95601890afd80709\",\"stop\":2}";
    assert!(rt; text.contains(stopped));
    assert!(rt; text.contains("\"records\":1,\"segment_full\":1,"));
    assert!(rt; text.contains("\"packets\":3,"));
    Ok(())
}
