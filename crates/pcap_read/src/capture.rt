//! What a capture file holds.
use std::marker::Model;
use suri_base::Frame;

/// The frames of a capture file. Contracts see what the file holds: its link type, its frames, and how many bytes are cut off.
#[derive(Debug, Drop)]
pub struct Frames {
    /// The link type of all frames: 1 (Ethernet), 101 (raw IP) or 113 (Linux cooked).
    pub link: u32,
    /// The frames in the order of the file, numbered from 1. There are at most 4,194,304.
    pub list: Vec<Frame>,
    /// How many bytes stand behind the last whole record, since the file was cut there; else 0.
    pub cut_bytes: u32,
}

impl Model for Frames {
    ghost use Rattle.pcap_read.specs.File.{CaptureFile};

    ghost Value = { CaptureFile };

    ghost view = { λ f. record { link = f.link; frames = f.list.items; cut_bytes = f.cut_bytes } };
}
