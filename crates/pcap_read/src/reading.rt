//! From the bytes of a file to its frames.
ghost use Rattle.std.specs.Prelude.{◌^◌, ◌≤◌, IfOk, Result, length};
ghost use Rattle.pcap_read.specs.File.{Agrees, AreShort, CaptureFile, Reads, Tells};
ghost use Rattle.pcap_read.specs.Header.{IsLink};
ghost use Rattle.pcap_read.specs.declared.fault.PcapFault.{PcapFault};
ghost use Rattle.suri_base.specs.Frames.{AreNumbered};

use crate::capture::Frames;
use crate::fault::PcapFault;
use crate::header::read_header;
use crate::records::read_records;
use std::alloc::Global;

/// Reads the frames of a capture file of at most 2^30 bytes. No payload is copied: a frame says where
/// its bytes stand.
///
/// The file begins with a header in one of the four forms of the format: either byte order, with
/// fractions of a second in microseconds or in nanoseconds. A file that is cut in its last record is
/// read up to there, and the bytes of the cut record are counted. Fractions of a second and original
/// lengths may have any value. The zone, the accuracy and the snap length of the header, and the
/// upper 16 bits of its link type, are ignored.
///
/// # Errors
///
/// The first fault in the file, or [`PcapFault::NoMemory`].
pub fn frames(alloc: Global, bytes: &[u8]) -> Result<Frames, PcapFault>
    requires { length bytes.now ≤ 2 ^ 30 }
    // What it answers is what the file holds, or its first fault.
    ensures found { Tells bytes.now result }
    // And nothing else: whatever the file can be read as is this answer, unless memory runs out.
    ensures only { (answer : Result CaptureFile PcapFault) → Reads bytes.now answer → Agrees result answer }
    // The link type is one of the three that are read.
    ensures link { IfOk result (λ f. IsLink f.link) }
    // There are not more than the most.
    ensures few { IfOk result (λ f. length f.frames ≤ 4194304) }
    // The frames are numbered from 1, their times are below 2^63, and they lie inside the bytes.
    ensures inside { IfOk result (λ f. AreNumbered (length bytes.now) 0 f.frames) }
    // None is longer than a record may be.
    ensures short { IfOk result (λ f. AreShort f.frames) }
{
    let header = read_header(bytes)?;
    read_records(alloc, header, bytes)
}
