//! A state on its own: its versions while a batch is settled, and its values after it.
ghost use Rattle.std.specs.Prelude.{◌≡◌};
ghost use Rattle.morph_base.specs.Flat.{contents};
ghost use Rattle.morph_base.specs.Plans.{IsPlan, HasBases, IsSettledOf};
ghost use Rattle.morph_base.specs.States.{opening_state};

use crate::finishing::completed;
use crate::four_events::{ACCOUNTS, ASSETS, LAYOUT, plan};
use morph_base::{Key, OutOfMemory, Plan, Settled};
use std::alloc::Global;
use std::process::Abort;
use std::test::Fail;
use version_table::State;

/// The value of a key, if it is in the layout.
fn value(state: &State, key: Key) -> Option<u64> {
    if !state.layout().contains(key) {
        return None;
    }
    Some(state.get(key))
}

/// The version of account 0 at a time.
fn version(state: &State, plan: &Plan, settled: &Settled, ts: u64) -> Option<u64>
    requires plan { IsPlan plan.now }
    requires bases { HasBases plan.now (contents state.now) }
    requires settled { IsSettledOf plan.now settled.now }
{
    let account = Key::of(ACCOUNTS, 0);
    if !state.layout().contains(account) {
        return None;
    }
    Some(state.version(plan, settled, account, ts))
}

/// The versions of account 0 at times 0 to 4.
fn versions(
    alloc: Global,
    state: &State,
    plan: &Plan,
    settled: &Settled,
) -> Result<Vec<Option<u64>>, OutOfMemory>
    requires plan { IsPlan plan.now }
    requires bases { HasBases plan.now (contents state.now) }
    requires settled { IsSettledOf plan.now settled.now }
{
    let mut versions = Vec::new(alloc);
    for ts in 0..5 {
        versions.push(version(state, plan, settled, ts))?;
    }
    Ok(versions)
}

/// The values of accounts 0 to 2, asset 2, and an asset that is not in the layout.
fn values(alloc: Global, state: &State) -> Result<Vec<Option<u64>>, OutOfMemory> {
    let mut values = Vec::new(alloc);
    for (table, id) in [
        (ACCOUNTS, 0),
        (ACCOUNTS, 1),
        (ACCOUNTS, 2),
        (ASSETS, 2),
        (ASSETS, 10_000),
    ] {
        values.push(value(state, Key::of(table, id)))?;
    }
    Ok(values)
}

/// The versions of account 0 while the four events are settled on a new state, which is then brought up to date.
fn settle_in(rt: &impl Abort, alloc: Global, state: &mut State) -> Result<Vec<Option<u64>>, Fail>
    requires layout { state.old.layout ≡ LAYOUT }
    requires opening { contents state.old ≡ opening_state }
{
    let mut plan = plan(rt, alloc)?;
    state.bases(&mut plan);
    let settled = completed(alloc, &plan)?;
    let told = versions(alloc, state, &plan, &settled)?;
    state.apply(&plan, &settled);
    Ok(told)
}

#[test]
fn versions_and_values_of_four_events(rt: HostRuntime) -> Result<(), Fail> {
    let mut state = State::new(rt.alloc(), LAYOUT)?;
    assert_eq!(rt; value(&state, Key::of(ACCOUNTS, 0)), Some(0));
    let told = settle_in(&rt, rt.alloc(), &mut state)?;
    let want = [Some(0), Some(100), Some(100), Some(40), Some(40)];
    assert_eq!(rt; told.as_slice(), want.as_slice());
    let kept = values(rt.alloc(), &state)?;
    let want = [Some(40), Some(0), Some(60), Some(5), None];
    assert_eq!(rt; kept.as_slice(), want.as_slice());
    Ok(())
}
