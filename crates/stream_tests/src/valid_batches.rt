//! Batches that are put together by hand: whether they are valid.
use morph_base::{Batch, FIRST_MAX, Func, Key, LATEST, Layout, List, MAX, Op, OutOfMemory};
use std::alloc::Global;
use std::test::Fail;

/// Operations that add 1 at each of these ids.
fn additions(alloc: Global, ids: &[u32]) -> Result<List<Op>, OutOfMemory> {
    let mut ops = List::new(alloc);
    for id in ids {
        ops.push(Op::new(Func::Add, Key::of(1, *id), &[], 1))?;
    }
    Ok(ops)
}

/// Two events with these times and ids; whether they are a valid batch, and whether its keys are in a layout of two
/// ids.
fn told(alloc: Global, events: &[(u64, &[u32])]) -> Result<(bool, bool), OutOfMemory> {
    let mut batch = Batch::new(alloc);
    for (ts, ids) in events {
        batch.push(*ts, additions(alloc, *ids)?.as_slice())?;
    }
    let layout = Layout { tables: 2, size: 2 };
    Ok((batch.is_valid(), batch.has_keys_in(layout)))
}

/// Events with their times and ids, and whether they are a valid batch and have keys in a layout of two ids.
static BY_HAND: [(&str, &[(u64, &[u32])], (bool, bool)); 9] = [
    ("no event", &[], (true, true)),
    ("by falling time", &[(2, &[0]), (1, &[1, 0])], (true, true)),
    ("the latest time", &[(LATEST, &[0])], (true, true)),
    ("no time", &[(0, &[0])], (false, true)),
    (
        "after the latest time",
        &[(LATEST + 1, &[0])],
        (false, true),
    ),
    ("one time twice", &[(1, &[0]), (1, &[1])], (false, true)),
    ("no operation", &[(1, &[])], (false, true)),
    ("one target twice", &[(1, &[1, 0, 1])], (false, true)),
    ("an id too many", &[(1, &[0, 2])], (true, false)),
];

#[test]
fn batches_put_together_by_hand(rt: HostRuntime) -> Result<(), Fail> {
    for &(name, events, want) in &BY_HAND {
        assert_eq!(rt; told(rt.alloc(), events)?, want, "{name}");
    }
    Ok(())
}

/// Whether two events, each with one operation of these limits (constant, floor, greatest value), are a valid batch.
fn valid_within(alloc: Global, limits: [[u64; 3]; 2]) -> Result<bool, OutOfMemory> {
    let mut batch = Batch::new(alloc);
    for (i, [c, low, high]) in limits.into_iter().enumerate() {
        let op = Op::new(Func::Sub, Key::of(0, 0), &[], c).limited(low, high);
        batch.push(i as u64 + 1, &[op])?;
    }
    Ok(batch.is_valid())
}

/// Limits as the first version of the input gives them, and as the second does.
const FIRST: [u64; 3] = [FIRST_MAX, FIRST_MAX, FIRST_MAX];

const SECOND: [u64; 3] = [MAX, MAX, MAX];

/// The limits of two events, and whether they are a valid batch.
static LIMITS: [([[u64; 3]; 2], bool); 7] = [
    ([FIRST, FIRST], true),
    ([SECOND, SECOND], true),
    ([FIRST, SECOND], false),
    ([SECOND, FIRST], false),
    ([FIRST, [0, FIRST_MAX + 1, FIRST_MAX]], false),
    ([SECOND, [MAX + 1, 0, MAX]], false),
    ([[0, 0, 100], [0, 0, 100]], false),
];

#[test]
fn limits_of_a_batch(rt: HostRuntime) -> Result<(), Fail> {
    for &(limits, want) in &LIMITS {
        assert_eq!(rt; valid_within(rt.alloc(), limits)?, want, "{limits:?}");
    }
    Ok(())
}
