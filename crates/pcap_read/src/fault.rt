//! Why a capture file is refused.
ghost use Rattle.std.specs.Prelude.{◌≡◌};
ghost use Rattle.pcap_read.specs.declared.fault.PcapFault.TheVariants.{NoMemory};

use std::alloc::{AllocError, AllocFailed};

/// Why a capture file is refused. Of several reasons the first in the file is told.
#[derive(Clone, Copy, Debug, PartialEq, Eq)]
pub enum PcapFault {
    /// The file ends inside its header of 24 bytes.
    Short,
    /// The file begins as one of the newer format, pcapng (`0a0d0d0a`), which is not read.
    Ng,
    /// The first four bytes, read as a big-endian number, are no magic number of the format.
    Magic(u32),
    /// The version, major and minor, is not 2.4.
    Version(u16, u16),
    /// The low 16 bits of the link type are not 1, 101 or 113. The number is the whole field.
    Link(u32),
    /// The record of this number, from 1, states more than 262,144 captured bytes.
    Long { no: u32, cap: u32 },
    /// More bytes follow after 4,194,304 records, whatever they are.
    TooMany,
    /// No memory was left for the list of frames.
    NoMemory,
}

impl From<AllocError> for PcapFault {
    ghost from_gives = { λ _ e. e ≡ NoMemory };

    fn from(_: AllocError) -> PcapFault {
        PcapFault::NoMemory
    }
}

impl<T: Drop> From<AllocFailed<T>> for PcapFault {
    ghost from_gives = { λ _ e. e ≡ NoMemory };

    fn from(_: AllocFailed<T>) -> PcapFault {
        PcapFault::NoMemory
    }
}
