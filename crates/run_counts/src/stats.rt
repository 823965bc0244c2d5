//! The counts of a run.
ghost use Rattle.run_counts.specs.Counting.{IsStatsOf, all_refusals};
ghost use Rattle.std.specs.Prelude.{◌+◌, ◌^◌, ◌<◌, sum_by};

use crate::frames::{capture_bytes, count_frames};
use crate::histories::{all_refusals, count_pool, times_short};
use crate::records::count_records;
use flow_object::FlowLine;
use run_stats::Stats;
use suri_base::{Capture, Trail};

/// The counts of a run: of its capture, of the flow records made of it, and of what its machines went through.
pub fn stats_of(capture: &Capture, lines: &[FlowLine], trail: &Trail) -> Stats
    requires packets { sum_by (λ l. l.sums.ts.pkts + l.sums.tc.pkts) lines.now < 2 ^ 64 }
    requires bytes { sum_by (λ l. l.sums.ts.bytes + l.sums.tc.bytes) lines.now < 2 ^ 64 }
    // No more packets are refused than the capture has, in a lawful trail.
    requires refusals { all_refusals trail.now.buckets < 2 ^ 64 }
    ensures { IsStatsOf capture.now lines.now trail.now result }
{
    let counts = count_frames(capture);
    let records = count_records(lines);
    let pool = count_pool(&trail.pool);
    let short = times_short(&trail.segments);
    Stats {
        clock: capture.last_clock(),
        capture_bytes: capture_bytes(capture),
        cut_bytes: u64::from(capture.cut_bytes()),
        frames: u64::from(capture.count()),
        ethertype: counts.ethertype,
        fragment: counts.fragment,
        icmp_small: counts.icmp_small,
        ip_extensions: counts.ip_extensions,
        ip_header: counts.ip_header,
        ip_small: counts.ip_small,
        ip_version: counts.ip_version,
        link_small: counts.link_small,
        other_proto: counts.other_proto,
        tcp_header: counts.tcp_header,
        tcp_small: counts.tcp_small,
        udp_small: counts.udp_small,
        vlan_deep: counts.vlan_deep,
        vlan_small: counts.vlan_small,
        records: lines.len() as u64,
        packets: records.packets,
        flow_bytes: records.bytes,
        timeout: records.timeout,
        tcp_reuse: records.tcp_reuse,
        forced: records.forced,
        shutdown: records.shutdown,
        emergency: records.emergency,
        no_flow: all_refusals(trail),
        memcap_full: pool.full as u64,
        segment_full: short as u64,
        emergency_entered: pool.begun as u64,
    }
}
