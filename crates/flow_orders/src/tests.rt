//! A flow begins, and is found in each order.
use crate::{Marks, Orders, Times};
use key_order::Age;
use std::test::Fail;
use suri_base::{End, Key, Vlans};

fn key() -> Key {
    Key {
        vlans: Vlans {
            count: 1,
            first: 12,
            second: 0,
            third: 0,
        },
        version: 4,
        proto: 17,
        one_way: false,
        a: End {
            addr: 0x0a00_0001,
            port: 53,
        },
        b: End {
            addr: 0x0a00_0002,
            port: 40_000,
        },
    }
}

#[test]
fn finds_a_flow_in_each_order(rt: HostRuntime) -> Result<(), Fail> {
    let mut orders = Orders::new(rt.alloc());
    assert!(rt; orders.linked_at(&key()).is_none() && orders.victim().is_none());
    orders.reserve_begin()?;
    let (last, due, sooner) = (9_000_000_000, 39_000_000_000, 19_000_000_000);
    let marks = Marks::linked(&key(), 3, last, due, sooner, true);
    orders.mend(7, Marks::none(), marks);
    assert!(rt; orders.linked_at(&key()) == Some(7) && orders.victim() == Some(7));
    assert!(rt; orders.first_due(false) == Some((Age::new(due, 3), 7)));
    assert!(rt; orders.first_due(true) == Some((Age::new(sooner, 3), 7)));
    assert!(rt; orders.next_due(None, due, false).is_none());
    assert!(rt; orders.next_due(None, due + 1, false) == orders.first_due(false));
    assert!(rt;
        orders
            .next_due(Some(Age::new(due, 3)), due + 1, false)
            .is_none()
    );
    Ok(())
}

#[test]
fn finds_a_flow_by_its_times(rt: HostRuntime) -> Result<(), Fail> {
    let mut orders = Orders::new(rt.alloc());
    orders.reserve_begin()?;
    let none = Times {
        due: None,
        due_in_emergency: None,
        unused: None,
    };
    let times = Times {
        due: Some(Age::new(39_000_000_000, 3)),
        due_in_emergency: Some(Age::new(19_000_000_000, 3)),
        unused: Some(Age::new(9_000_000_000, 3)),
    };
    orders.mend_times(7, none, times);
    assert!(rt; orders.first_due(false) == Some((Age::new(39_000_000_000, 3), 7)));
    assert!(rt; orders.first_due(true) == Some((Age::new(19_000_000_000, 3), 7)));
    assert!(rt; orders.victim() == Some(7) && orders.linked_at(&key()).is_none());
    Ok(())
}

#[test]
fn finds_a_flow_that_became_unused(rt: HostRuntime) -> Result<(), Fail> {
    let mut orders = Orders::new(rt.alloc());
    orders.reserve_begin()?;
    orders.mend_unused(7, None, Some(Age::new(9_000_000_000, 3)));
    assert!(rt; orders.victim() == Some(7) && orders.first_due(false).is_none());
    Ok(())
}

#[test]
fn finds_the_flow_of_a_frame(rt: HostRuntime) -> Result<(), Fail> {
    let mut orders = Orders::new(rt.alloc());
    orders.reserve_join()?;
    orders.begin_use(5, 2);
    assert!(rt; orders.used_at(5) == Some(2) && orders.used_at(4).is_none());
    assert_eq!(rt; orders.end_use(5), Some(2));
    assert!(rt; orders.used_at(5).is_none());
    Ok(())
}
