//! An order beside a plain table, and a large one.
use crate::Order;
use std::alloc::Global;
use std::process::Abort;
use std::test::Fail;
use suri_base::NoMemory;

// The next of numbers that look random.
fn next(state: u64) -> u64 {
    state
        .wrapping_mul(6_364_136_223_846_793_005)
        .wrapping_add(1_442_695_040_888_963_407)
}

// A key that has no slot gets one.
fn put(order: &mut Order<u64>, key: u64, slot: u32) -> Result<(), NoMemory> {
    order.reserve(1)?;
    match order.find(key) {
        Some(_) => {}
        None => order.insert(key, slot),
    }
    Ok(())
}

// A key leaves where it has a slot, and else gets one. Says whether order and table told the same.
fn turn(
    order: &mut Order<u64>,
    table: &mut Vec<Option<u32>>,
    key: u64,
    slot: u32,
) -> Result<bool, NoMemory> {
    let Some(cell) = table.get_mut(key as usize) else {
        return Ok(false);
    };
    let was = *cell;
    let told = order.find(key);
    if was.is_some() {
        let left = order.remove(key);
        *cell = None;
        return Ok(told == was && left == was && order.find(key).is_none());
    }
    put(order, key, slot)?;
    *cell = Some(slot);
    Ok(told.is_none() && order.find(key) == Some(slot))
}

#[test]
fn tells_what_a_table_tells(rt: HostRuntime) -> Result<(), Fail> {
    let mut order = Order::new(rt.alloc());
    let mut table: Vec<Option<u32>> = Vec::new(rt.alloc());
    table.resize(6_000, None)?;
    let mut state = 7;
    for slot in 0..60_000 {
        state = next(state);
        assert!(rt; turn(&mut order, &mut table, (state >> 33) % 6_000, slot)?);
        let least = table.iter().position(|cell| cell.is_some());
        assert!(rt; order.first().map(|pair| pair.0 as usize) == least);
    }
    let mut least = order.first();
    for (key, cell) in table.iter().enumerate() {
        assert!(rt; order.find(key as u64) == *cell);
        if cell.is_some() {
            assert!(rt; least.map(|pair| pair.0 as usize) == Some(key));
            least = order.next_after(key as u64);
        }
    }
    assert!(rt; least.is_none());
    Ok(())
}

#[test]
fn gives_many_keys_in_their_order(rt: HostRuntime) -> Result<(), Fail> {
    let mut order = Order::new(rt.alloc());
    for slot in 0..100_000 {
        put(&mut order, u64::from(slot) * 7_919 % 100_003, slot)?;
    }
    let mut least = 0;
    for _ in 0..100_000 {
        let (key, slot) = order.first().unwrap_or((0, 0));
        assert!(rt; key >= least && u64::from(slot) * 7_919 % 100_003 == key);
        assert_eq!(rt; order.remove(key), Some(slot));
        least = key + 1;
    }
    assert!(rt; order.first().is_none());
    Ok(())
}

#[test]
fn moves_a_slot_to_another_key(rt: HostRuntime) -> Result<(), Fail> {
    let mut order: Order<(u64, u32)> = Order::new(rt.alloc());
    order.reserve(1)?;
    match order.find((5, 1)) {
        Some(_) => {}
        None => order.replace(None, Some((5, 1)), 9),
    }
    assert!(rt; order.first() == Some(((5, 1), 9)));
    Ok(())
}

// So many keys come, all leave at once, and they come again.
fn empties(rt: &impl Abort, alloc: Global, count: u32) -> Result<(), Fail> {
    let mut order = Order::new(alloc);
    for slot in 0..count {
        put(&mut order, u64::from(slot), slot)?;
    }
    let room = order.room();
    order.clear();
    assert!(rt; order.first().is_none() && order.find(0).is_none());
    assert!(rt; order.room() >= room);
    for slot in 0..count {
        put(&mut order, u64::from(slot), slot / 2)?;
    }
    assert!(rt; order.first() == Some((0, 0)));
    for slot in 0..count {
        assert_eq!(rt; order.find(u64::from(slot)), Some(slot / 2));
    }
    Ok(())
}

#[test]
fn takes_keys_again_once_it_was_emptied(rt: HostRuntime) -> Result<(), Fail> {
    empties(&rt, rt.alloc(), 1)?;
    empties(&rt, rt.alloc(), 100)?;
    empties(&rt, rt.alloc(), 1_000)
}
