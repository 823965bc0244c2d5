//! Laws over the plain runs of packets. Each is a clause of a function that does nothing.
ghost use Rattle.std.specs.List.Sorted.{IsPermutation};
ghost use Rattle.std.specs.Prelude.{◌≡◌, ℕ, ◌+◌, List, flat_map, length, sum_by};
ghost use Rattle.plain_runs.specs.Cuts.{AreCutByTheNext};
ghost use Rattle.plain_runs.specs.Plain.{ArePlain, PlainRun, in_file_order, records_of, with_key};
ghost use Rattle.suri_base.specs.Capture.{Captured, IsCapture, packets_in};
ghost use Rattle.suri_base.specs.Keys.{key_list};
ghost use Rattle.suri_base.specs.declared.facts.Facts.{Facts};
ghost use Rattle.suri_base.specs.declared.key.Key.{Key};

/// Every capture has plain runs, and packets have no second list of them.
pub fn captures_have_plain_runs()
    ensures some { (c : Captured) → IsCapture c → (plain_runs : List PlainRun) × ArePlain (packets_in c.seen) plain_runs }
    ensures same { (packets : List Facts) (first second : List PlainRun) → ArePlain packets first → ArePlain packets second
        → first ≡ second }
{}

/// No packet is lost or counted twice.
pub fn plain_runs_have_each_packet_once()
    // The runs of each key, end to end, are all packets of that key.
    ensures key { (packets : List Facts) (plain_runs : List PlainRun) (k : Key) → ArePlain packets plain_runs
        → flat_map in_file_order (with_key k plain_runs) ≡ key_list k packets }
    // All runs, end to end, are all packets in another order.
    ensures all { (packets : List Facts) (plain_runs : List PlainRun) → ArePlain packets plain_runs
        → IsPermutation packets (flat_map in_file_order plain_runs) }
{}

/// The next packet of its key ends a run, for its own reason, and no packet of the run could have ended it before.
pub fn plain_runs_end_by_the_next_packet()
    ensures cuts { (packets : List Facts) (plain_runs : List PlainRun) (k : Key) → ArePlain packets plain_runs
        → AreCutByTheNext (with_key k plain_runs) }
{}

/// The records of plain runs count every packet, and its captured bytes, once.
pub fn plain_records_count_each_packet()
    ensures records { (depth : ℕ) (bytes : List ℕ) (clock : ℕ) (plain_runs : List PlainRun)
        → length (records_of depth bytes clock plain_runs) ≡ length plain_runs }
    ensures packets { (depth : ℕ) (bytes : List ℕ) (clock : ℕ) (packets : List Facts) (plain_runs : List PlainRun)
        → ArePlain packets plain_runs
        → sum_by (λ l. l.sums.ts.pkts + l.sums.tc.pkts) (records_of depth bytes clock plain_runs) ≡ length packets }
    ensures bytes { (depth : ℕ) (bytes : List ℕ) (clock : ℕ) (packets : List Facts) (plain_runs : List PlainRun)
        → ArePlain packets plain_runs
        → sum_by (λ l. l.sums.ts.bytes + l.sums.tc.bytes) (records_of depth bytes clock plain_runs) ≡ sum_by (λ f. f.len) packets }
{}
