//! Uses begin and end, in any order.
use crate::Uses;
use std::test::Fail;

#[test]
fn frames_come_and_go(rt: HostRuntime) -> Result<(), Fail> {
    let mut uses = Uses::new(rt.alloc());
    assert!(rt; uses.count() == 0 && !uses.has(5));
    for no in [9, 5, 7] {
        uses.reserve()?;
        if !uses.has(no) {
            uses.begin_use(no);
        }
    }
    assert!(rt; uses.count() == 3 && uses.has(5) && uses.has(7) && uses.has(9));
    assert!(rt; !uses.has(4) && !uses.has(6));
    assert!(rt; uses.end_use(5));
    assert!(rt; !uses.end_use(5));
    assert!(rt; uses.count() == 2 && !uses.has(5) && uses.has(7) && uses.has(9));
    Ok(())
}

#[test]
fn many_frames_use_a_flow(rt: HostRuntime) -> Result<(), Fail> {
    let mut uses = Uses::new(rt.alloc());
    for no in 1..1_001 {
        uses.reserve()?;
        if !uses.has(no) {
            uses.begin_use(no);
        }
    }
    assert_eq!(rt; uses.count(), 1_000);
    for no in 1..1_001 {
        assert!(rt; uses.end_use(no));
    }
    assert_eq!(rt; uses.count(), 0);
    Ok(())
}
