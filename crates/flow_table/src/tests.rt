//! A table on its own.
use crate::FlowTable;
use std::test::Fail;

#[test]
fn an_empty_table_has_nothing(rt: HostRuntime) -> Result<(), Fail> {
    let mut table = FlowTable::new(rt.alloc());
    table.reserve_begin()?;
    assert_eq!(rt; table.count(), 0);
    assert!(rt; table.victim().is_none() && table.used(7).is_none());
    assert!(rt; table.due(false).is_none() && table.due(true).is_none());
    Ok(())
}
