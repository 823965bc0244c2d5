//! The whole table, and the moment of expiry.
use crate::{expired, timeout};
use tcp_session::Class;

const SECOND: u64 = 1_000_000_000;

#[test]
fn reads_the_table(rt: HostRuntime) {
    let rows = [
        (6, false, [60, 3_600, 120]),
        (6, true, [10, 300, 20]),
        (17, false, [30, 300, 300]),
        (17, true, [10, 100, 100]),
        (1, false, [30, 300, 300]),
        (58, true, [10, 100, 100]),
    ];
    for (proto, emergency, [new, established, closed]) in rows {
        assert_eq!(rt; timeout(proto, Class::New, emergency) / SECOND, new);
        assert_eq!(rt;
            timeout(proto, Class::Established, emergency) / SECOND,
            established
        );
        assert_eq!(rt; timeout(proto, Class::Closed, emergency) / SECOND, closed);
    }
}

#[test]
fn expires_after_its_timeout(rt: HostRuntime) {
    assert!(rt; !expired(1_700_000_000, 1_730_000_000, 30_000_000));
    assert!(rt; expired(1_700_000_000, 1_730_000_001, 30_000_000));
}
