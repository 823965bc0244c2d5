//! Each counter has its own field.
use crate::Stats;
use std::test::Fail;
use suri_base::Counter;

#[test]
fn tells_each_counter_by_its_field(rt: HostRuntime) -> Result<(), Fail> {
    let stats = Stats {
        clock: 101,
        capture_bytes: 102,
        cut_bytes: 103,
        frames: 104,
        ethertype: 105,
        fragment: 106,
        icmp_small: 107,
        ip_extensions: 108,
        ip_header: 109,
        ip_small: 110,
        ip_version: 111,
        link_small: 112,
        other_proto: 113,
        tcp_header: 114,
        tcp_small: 115,
        udp_small: 116,
        vlan_deep: 117,
        vlan_small: 118,
        records: 119,
        packets: 120,
        flow_bytes: 121,
        timeout: 122,
        tcp_reuse: 123,
        forced: 124,
        shutdown: 125,
        emergency: 126,
        no_flow: 127,
        memcap_full: 128,
        segment_full: 129,
        emergency_entered: 130,
    };
    assert_eq!(rt; stats.counted(Counter::Ethertype), 105);
    assert_eq!(rt; stats.counted(Counter::Fragment), 106);
    assert_eq!(rt; stats.counted(Counter::IcmpSmall), 107);
    assert_eq!(rt; stats.counted(Counter::IpExtensions), 108);
    assert_eq!(rt; stats.counted(Counter::IpHeader), 109);
    assert_eq!(rt; stats.counted(Counter::IpSmall), 110);
    assert_eq!(rt; stats.counted(Counter::IpVersion), 111);
    assert_eq!(rt; stats.counted(Counter::LinkSmall), 112);
    assert_eq!(rt; stats.counted(Counter::OtherProto), 113);
    assert_eq!(rt; stats.counted(Counter::TcpHeader), 114);
    assert_eq!(rt; stats.counted(Counter::TcpSmall), 115);
    assert_eq!(rt; stats.counted(Counter::UdpSmall), 116);
    assert_eq!(rt; stats.counted(Counter::VlanDeep), 117);
    assert_eq!(rt; stats.counted(Counter::VlanSmall), 118);
    Ok(())
}
