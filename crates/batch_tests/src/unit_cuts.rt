use crate::four_events::plan;
use chain_units::{Units, units};
use morph_base::{OutOfMemory, Unit};
use std::alloc::Global;
use std::test::Fail;

/// The units joined into one list, each ended by 99.
fn joined(alloc: Global, units: &Units) -> Result<Vec<u32>, OutOfMemory> {
    let mut all = Vec::new(alloc);
    for u in 0..units.len() {
        for op in units.ops(u) {
            all.push(*op)?;
        }
        all.push(99)?;
    }
    Ok(all)
}

/// Compiles only if threads may share the value and take it over.
fn share<T: Send + Sync>(_value: &T) {}

#[test]
fn units_of_four_events(rt: HostRuntime) -> Result<(), Fail> {
    let plan = plan(&rt, rt.alloc())?;
    assert_eq!(rt; plan.ops.len(), 14);
    let chains: [u32; 20] = [
        0, 2, 6, 99, 4, 8, 10, 99, 12, 99, 1, 3, 7, 99, 5, 9, 11, 99, 13, 99,
    ];
    let single: [u32; 28] = [
        0, 99, 1, 99, 2, 99, 3, 99, 4, 99, 5, 99, 6, 99, 7, 99, 8, 99, 9, 99, 10, 99, 11, 99, 12,
        99, 13, 99,
    ];
    let rows = [
        (Unit::Chain, 6, chains.as_slice()),
        (Unit::Op, 14, single.as_slice()),
    ];
    for (unit, count, want) in rows {
        let units = units(rt.alloc(), &plan, unit)?;
        share(&units);
        let all = joined(rt.alloc(), &units)?;
        assert_eq!(rt; (units.len(), all.as_slice()), (count, want), "{unit:?}");
    }
    Ok(())
}
