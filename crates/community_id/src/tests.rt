//! Community IDs that another program made by the definition of version 1.
use crate::community;
use std::test::Fail;
use suri_base::{End, Key, Vlans};

// A flow without VLAN tags, the lesser end first.
fn flow(version: u8, proto: u8, a: (u128, u16), b: (u128, u16)) -> Key {
    Key {
        vlans: Vlans {
            count: 0,
            first: 0,
            second: 0,
            third: 0,
        },
        version,
        proto,
        one_way: false,
        a: End {
            addr: a.0,
            port: a.1,
        },
        b: End {
            addr: b.0,
            port: b.1,
        },
    }
}

#[test]
fn names_flows_as_other_tools_do(rt: HostRuntime) -> Result<(), Fail> {
    // 66.35.250.204:80 and 128.232.110.120:34855 over TCP.
    let web = flow(4, 6, (0x4223_facc, 80), (0x80e8_6e78, 34_855));
    // 8.8.8.8:53 and 192.168.1.52:54585 over UDP.
    let names = flow(4, 17, (0x0808_0808, 53), (0xc0a8_0134, 54_585));
    // 2001:470:e5bf:dead:4957:2174:e82c:4887:63943 and 2607:f8b0:400c:c03::1a:25 over TCP.
    let mail = flow(
        6,
        6,
        (0x2001_0470_e5bf_dead_4957_2174_e82c_4887, 63_943),
        (0x2607_f8b0_400c_0c03_0000_0000_0000_001a, 25),
    );
    // fe80::1 and ff02::fb, both port 5353, over UDP.
    let local = flow(
        6,
        17,
        (0xfe80_0000_0000_0000_0000_0000_0000_0001, 5353),
        (0xff02_0000_0000_0000_0000_0000_0000_00fb, 5353),
    );
    let table: [(&Key, u16, &str); 7] = [
        (&web, 0, "1:LQU9qZlK+B5F3KDmev6m5PMibrg="),
        (&web, 1, "1:3V71V58M3Ksw/yuFALMcW0LAHvc="),
        (&web, 65_535, "1:/d+eV/2yBj6+sghh46Zm3KWWZCM="),
        (&names, 0, "1:d/FP5EW3wiY1vCndhwleRRKHowQ="),
        (&mail, 0, "1:/qFaeAR+gFe1KYjMzVDsMv+wgU4="),
        (&mail, 1, "1:eJYTW6AOzFLlSUoESovMjnu7rMw="),
        (&local, 0, "1:vmVnlzQ4g6ZsPY2VX/lJfRJMmHo="),
    ];
    for (key, seed, want) in &table {
        let version = key.version;
        let narrow = key.a.addr < 0x1_0000_0000 && key.b.addr < 0x1_0000_0000;
        assert!(rt; version == 4 && narrow || version == 6);
        let text = community(rt.alloc(), key, *seed)?;
        assert_eq!(rt; text.as_str(), *want);
    }
    Ok(())
}
