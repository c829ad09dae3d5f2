//! Lists: their items, in order and in place.
use morph_base::{List, OutOfMemory};
use std::alloc::Global;
use std::test::Fail;

/// Three items, put in each way.
fn three(alloc: Global) -> Result<List<u64>, OutOfMemory> {
    let mut list = List::with_room(alloc, 2)?;
    list.push(7)?;
    list.add(8);
    list.push(9)?;
    Ok(list)
}

/// Whether the three items are in order, how many there are, whether there are none, and whether they are those of
/// a list of a slice.
fn three_told(alloc: Global) -> Result<(bool, usize, bool, bool), OutOfMemory> {
    let list = three(alloc)?;
    let same = List::from_slice(alloc, &[7, 8, 9])?;
    let items = list.as_slice();
    let in_order = items == [7, 8, 9].as_slice();
    Ok((
        in_order,
        list.len(),
        list.is_empty(),
        items == same.as_slice(),
    ))
}

#[test]
fn keeps_items_in_order(rt: HostRuntime) -> Result<(), Fail> {
    assert_eq!(rt; three_told(rt.alloc())?, (true, 3, false, true));
    Ok(())
}

/// The second of the three items, and whether they are as they should be after two were changed and all reversed.
fn changed(alloc: Global) -> Result<(u64, bool), OutOfMemory> {
    let mut list = three(alloc)?;
    let at_1 = if list.len() > 1 { *list.get(1) } else { 0 };
    if list.len() > 1 {
        list.set(0, 5);
        *list.get_mut(1) = 6;
    }
    list.as_mut_slice().reverse();
    Ok((at_1, list.as_slice() == [9, 6, 5].as_slice()))
}

#[test]
fn changes_items_in_place(rt: HostRuntime) -> Result<(), Fail> {
    assert_eq!(rt; changed(rt.alloc())?, (8, true));
    Ok(())
}

/// The last of the three items, whether another one is in its place then, and what four more pops give.
fn popped(alloc: Global) -> Result<(Option<u64>, bool, [Option<u64>; 4]), OutOfMemory> {
    let mut list = three(alloc)?;
    let last = list.pop();
    if last.is_some() {
        list.add(4);
    }
    let replaced = list.as_slice() == [7, 8, 4].as_slice();
    let others = [list.pop(), list.pop(), list.pop(), list.pop()];
    Ok((last, replaced, others))
}

#[test]
fn gives_room_for_what_it_pops(rt: HostRuntime) -> Result<(), Fail> {
    let others = [Some(4), Some(8), Some(7), None];
    assert_eq!(rt; popped(rt.alloc())?, (Some(9), true, others));
    Ok(())
}

#[test]
fn begins_empty_or_filled(rt: HostRuntime) -> Result<(), Fail> {
    let empty: List<u64> = List::new(rt.alloc());
    assert!(rt; empty.is_empty());
    let filled = List::filled(rt.alloc(), 2, 5)?;
    assert_eq!(rt; filled.as_slice(), [5, 5].as_slice());
    Ok(())
}
