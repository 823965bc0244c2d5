//! What a run returns.

use suri_base::Trail;

/// How a run ended.
#[derive(Debug, Drop)]
pub struct Ran {
    /// 0: the whole text was written. 1: no memory was left. 2: the words were refused. 3: a read
    /// failed. 4: a write failed. 5: the capture was refused. 6: the capture is above a limit.
    pub status: u8,
    /// What the machines of the run went through, from which it can be told what became of each packet. It is there with the statuses 0 and 4,
    /// and with 1 where memory ran out while the text was made.
    pub trail: Option<Trail>,
}
