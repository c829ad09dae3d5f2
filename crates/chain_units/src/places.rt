ghost use Rattle.std.specs.Prelude.{◌≡◌, ◌+◌, ◌^◌, ◌<◌, [], length, map, slice_index_or, IfOk};
ghost use Rattle.chain_units.specs.Places.{AreFewUnits, IsPartition, IsIndexed, AreEntered};

use morph_base::{List, OutOfMemory};
use std::alloc::Global;

/// Where an operation stands: in which unit, and at which place of it.
#[derive(Clone, Copy, Debug, PartialEq, Eq)]
pub struct Place {
    pub unit: u32,
    pub at: u32,
}

/// Finds where each of this many operations stands.
pub fn places(
    alloc: Global,
    units: &List<List<u32>>,
    ops: usize,
) -> Result<List<Place>, OutOfMemory>
    requires few { AreFewUnits (map (λ unit. unit.items) units.now.items) }
    requires partition { IsPartition (map (λ unit. unit.items) units.now.items) ops }
    ensures len { IfOk result (λ places. length places.items ≡ ops) }
    ensures indexed { IfOk result
        (λ places. IsIndexed (map (λ unit. unit.items) units.now.items) places.items) }
{
    let mut places = blank(alloc, ops)?;
    for u in 0..units.len() {
        enter(units, u, &mut places);
    }
    Ok(places)
}

/// Makes a place for each of this many operations.
fn blank(alloc: Global, ops: usize) -> Result<List<Place>, OutOfMemory>
    ensures { IfOk result (λ places. length places.items ≡ ops) }
{
    let mut places = List::with_room(alloc, ops)?;
    for _op in 0..ops {
        places.add(Place { unit: 0, at: 0 });
    }
    Ok(places)
}

/// Enters where the operations of unit `u` stand.
fn enter(units: &List<List<u32>>, u: usize, places: &mut List<Place>)
    requires unit { u < length units.now.items }
    requires few { AreFewUnits (map (λ unit. unit.items) units.now.items) }
    requires partition { IsPartition (map (λ unit. unit.items) units.now.items)
        (length places.old.items) }
    requires before { AreEntered (map (λ unit. unit.items) units.now.items) u 0 places.old.items }
    ensures len { length places.new.items ≡ length places.old.items }
    ensures entered { AreEntered (map (λ unit. unit.items) units.now.items) (u + 1) 0
        places.new.items }
{
    let ops = units.get(u).as_slice();
    for (i, op) in ops.iter().enumerate() {
        let place = Place {
            unit: u as u32,
            at: i as u32,
        };
        places.set(*op as usize, place);
    }
}
