//! The counts of the stats line.
ghost use Rattle.flow_object.specs.declared.outcome.FlowLine.{FlowLine};
ghost use Rattle.run_stats.specs.Counting.{IsCounted, field_of};
ghost use Rattle.std.specs.Prelude.{◌≡◌, List};
ghost use Rattle.suri_base.specs.Capture.{Captured};
ghost use Rattle.suri_base.specs.Counters.{counted_under};

use suri_base::Counter;

/// What is counted of a capture, of the flow records made of it, and of the pools that served it.
#[derive(Clone, Copy, Debug, PartialEq, Eq)]
pub struct Stats {
    /// The last clock of the capture, in nanoseconds since 1970-01-01T00:00:00 UTC; 0 where it has no frame.
    pub clock: u64,
    /// The captured bytes of all frames.
    pub capture_bytes: u64,
    /// The bytes of a cut tail.
    pub cut_bytes: u64,
    pub frames: u64,
    /// The frames that bear no flow, each under one decoder counter: this one and the thirteen below it.
    pub ethertype: u64,
    pub fragment: u64,
    pub icmp_small: u64,
    pub ip_extensions: u64,
    pub ip_header: u64,
    pub ip_small: u64,
    pub ip_version: u64,
    pub link_small: u64,
    pub other_proto: u64,
    pub tcp_header: u64,
    pub tcp_small: u64,
    pub udp_small: u64,
    pub vlan_deep: u64,
    pub vlan_small: u64,
    pub records: u64,
    /// The packets of all flow records.
    pub packets: u64,
    /// The captured bytes of these packets, link headers included.
    pub flow_bytes: u64,
    /// The records whose flows ended by their timeouts.
    pub timeout: u64,
    /// The records whose flows ended since a new connection began with the same key.
    pub tcp_reuse: u64,
    /// The records whose flows were evicted to make room.
    pub forced: u64,
    /// The records whose flows ended with the capture.
    pub shutdown: u64,
    /// The records whose flows ended by a timeout of the emergency table.
    pub emergency: u64,
    /// The packets that found no flow and no room for one.
    pub no_flow: u64,
    /// How often the pool of flows was full.
    pub memcap_full: u64,
    /// How often the pool of segments was full.
    pub segment_full: u64,
    /// How often the pool of flows was full while no emergency was on.
    pub emergency_entered: u64,
}

impl Stats {
    // The field of a decoder counter.
    fn field(&self, counter: Counter) -> u64
        ensures { result ≡ field_of counter self.now }
    {
        match counter {
            Counter::LinkSmall => self.link_small,
            Counter::VlanSmall => self.vlan_small,
            Counter::VlanDeep => self.vlan_deep,
            Counter::Ethertype => self.ethertype,
            Counter::IpSmall => self.ip_small,
            Counter::IpVersion => self.ip_version,
            Counter::IpHeader => self.ip_header,
            Counter::IpExtensions => self.ip_extensions,
            Counter::Fragment => self.fragment,
            Counter::TcpSmall => self.tcp_small,
            Counter::TcpHeader => self.tcp_header,
            Counter::UdpSmall => self.udp_small,
            Counter::IcmpSmall => self.icmp_small,
            Counter::OtherProto => self.other_proto,
        }
    }

    /// The frames under a decoder counter: its field.
    pub fn counted(&self, counter: Counter) -> u64
        ensures field { result ≡ field_of counter self.now }
        // In the counts of a capture and its records these are the frames that the decoder put there.
        ensures frames { (capture : Captured) (lines : List FlowLine) → IsCounted capture lines self.now
            → result ≡ counted_under counter capture.seen }
    {
        self.field(counter)
    }
}
