//! What is counted of flow records, in one pass over them.
ghost use Rattle.run_counts.specs.Records.{all_ended, records_of, with_reason, with_record};
ghost use Rattle.std.specs.Prelude.{◌≡◌, ◌+◌, ◌^◌, ◌<◌, ◌≤◌, [], sum_by};

use flow_object::FlowLine;
use suri_base::Reason;

/// What is counted of flow records.
#[derive(Clone, Copy, Debug)]
pub struct RecordCounts {
    /// The packets of all records, of both directions.
    pub packets: u64,
    /// The captured bytes of all records, of both directions.
    pub bytes: u64,
    /// How many flows ended for this reason; likewise the next three.
    pub timeout: u64,
    pub tcp_reuse: u64,
    pub forced: u64,
    pub shutdown: u64,
    /// How many flows ended by a timeout of the emergency table.
    pub emergency: u64,
}

impl RecordCounts {
    /// The counts of no record.
    #[tactic(auto, unfolding(crate::specs::Records::records_of))]
    pub fn none() -> RecordCounts
        ensures { result ≡ records_of [] }
    {
        RecordCounts {
            packets: 0,
            bytes: 0,
            timeout: 0,
            tcp_reuse: 0,
            forced: 0,
            shutdown: 0,
            emergency: 0,
        }
    }

    // Counts one flow more that ended for a reason.
    fn add_reason(&mut self, reason: Reason)
        requires { all_ended self.old < 2 ^ 63 }
        ensures { self.new ≡ with_reason reason self.old }
    {
        match reason {
            Reason::Timeout => self.timeout += 1,
            Reason::TcpReuse => self.tcp_reuse += 1,
            Reason::Forced => self.forced += 1,
            Reason::Shutdown => self.shutdown += 1,
        }
    }

    /// Counts one record more.
    pub fn add(&mut self, line: &FlowLine)
        requires packets { self.old.packets + (line.now.sums.ts.pkts + line.now.sums.tc.pkts) < 2 ^ 64 }
        requires bytes { self.old.bytes + (line.now.sums.ts.bytes + line.now.sums.tc.bytes) < 2 ^ 64 }
        requires ended { all_ended self.old < 2 ^ 63 }
        // No more flows ended by the emergency table than ended at all.
        requires emergency { self.old.emergency ≤ all_ended self.old }
        ensures { self.new ≡ with_record line.now self.old }
    {
        self.packets += line.sums.ts.pkts + line.sums.tc.pkts;
        self.bytes += line.sums.ts.bytes + line.sums.tc.bytes;
        self.emergency += u64::from(line.emergency);
        self.add_reason(line.reason);
    }
}

/// The counts of all records, each of which is read once.
pub fn count_records(lines: &[FlowLine]) -> RecordCounts
    requires packets { sum_by (λ l. l.sums.ts.pkts + l.sums.tc.pkts) lines.now < 2 ^ 64 }
    requires bytes { sum_by (λ l. l.sums.ts.bytes + l.sums.tc.bytes) lines.now < 2 ^ 64 }
    ensures { result ≡ records_of lines.now }
{
    let mut counts = RecordCounts::none();
    for line in lines {
        counts.add(line);
    }
    counts
}
