//! The percent of flows at which the mode ends.
use crate::Emergency;

// Of 10 flows 3 have to be free.
#[test]
fn ends_when_enough_are_free(rt: HostRuntime) {
    let mut mode = Emergency::new(10, 30);
    assert!(rt; !mode.on() && !mode.over(0));
    mode.full();
    assert!(rt; mode.on());
    assert!(rt; !mode.over(10) && !mode.over(9) && !mode.over(8));
    assert!(rt; mode.on());
    assert!(rt; mode.over(7) && !mode.on());
    assert!(rt; !mode.over(7));
}

// The products don't fit 32 bits.
#[test]
fn counts_large_settings(rt: HostRuntime) {
    let mut mode = Emergency::new(4_294_967_295, 100);
    mode.full();
    assert!(rt; !mode.over(1) && mode.on());
    assert!(rt; mode.over(0) && !mode.on());
}
