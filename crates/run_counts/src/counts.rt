//! The frames that bear no flow, by decoder counter.
ghost use Rattle.run_counts.specs.Frames.{all_counted, counts_of, with_one_under};
ghost use Rattle.std.specs.Prelude.{◌≡◌, ◌^◌, ◌<◌, []};

use suri_base::Counter;

/// How many frames fall under each decoder counter.
#[derive(Clone, Copy, Debug)]
pub struct Counts {
    pub link_small: u64,
    pub vlan_small: u64,
    pub vlan_deep: u64,
    pub ethertype: u64,
    pub ip_small: u64,
    pub ip_version: u64,
    pub ip_header: u64,
    pub ip_extensions: u64,
    pub fragment: u64,
    pub tcp_small: u64,
    pub tcp_header: u64,
    pub udp_small: u64,
    pub icmp_small: u64,
    pub other_proto: u64,
}

impl Counts {
    /// The counts of no frame.
    #[tactic(auto, unfolding(crate::specs::Frames::counts_of))]
    pub fn none() -> Counts
        ensures { result ≡ counts_of [] }
    {
        Counts {
            link_small: 0,
            vlan_small: 0,
            vlan_deep: 0,
            ethertype: 0,
            ip_small: 0,
            ip_version: 0,
            ip_header: 0,
            ip_extensions: 0,
            fragment: 0,
            tcp_small: 0,
            tcp_header: 0,
            udp_small: 0,
            icmp_small: 0,
            other_proto: 0,
        }
    }

    /// Counts one frame more under a counter.
    pub fn add(&mut self, counter: Counter)
        requires { all_counted self.old < 2 ^ 32 }
        ensures { self.new ≡ with_one_under counter self.old }
    {
        match counter {
            Counter::LinkSmall => self.link_small += 1,
            Counter::VlanSmall => self.vlan_small += 1,
            Counter::VlanDeep => self.vlan_deep += 1,
            Counter::Ethertype => self.ethertype += 1,
            Counter::IpSmall => self.ip_small += 1,
            Counter::IpVersion => self.ip_version += 1,
            Counter::IpHeader => self.ip_header += 1,
            Counter::IpExtensions => self.ip_extensions += 1,
            Counter::Fragment => self.fragment += 1,
            Counter::TcpSmall => self.tcp_small += 1,
            Counter::TcpHeader => self.tcp_header += 1,
            Counter::UdpSmall => self.udp_small += 1,
            Counter::IcmpSmall => self.icmp_small += 1,
            Counter::OtherProto => self.other_proto += 1,
        }
    }
}
