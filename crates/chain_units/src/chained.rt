ghost use Rattle.std.specs.Prelude.{◌≡◌, ℕ, ◌<◌, [], length, map, slice_index_or, IfOk};
ghost use Rattle.chain_units.specs.Places.{StandsAt, IsPartition, AreFewUnits};

use crate::places::{Place, places};
use morph_base::{List, OutOfMemory};
use std::alloc::Global;
use std::marker::Model;

/// Operations in units of any length, with the place of each operation.
#[derive(Debug, Drop)]
pub(crate) struct Chained {
    units: List<List<u32>>,
    places: List<Place>,
}

impl Model for Chained {
    ghost use Rattle.std.specs.Prelude.{length, map};
    ghost use Rattle.chain_units.specs.Places.{Grouping, IsIndexed};

    ghost Value = { Grouping };

    ghost view = { λ u. record
        { units = map (λ unit. unit.items) u.units.items; ops = length u.places.items } };

    ghost invariant = { λ u. IsIndexed (map (λ unit. unit.items) u.units.items) u.places.items };
}

impl Chained {
    /// Makes the units of this many operations, each of which is in exactly one unit.
    pub(crate) fn new(
        alloc: Global,
        units: List<List<u32>>,
        ops: usize,
    ) -> Result<Self, OutOfMemory>
        requires few { AreFewUnits (map (λ unit. unit.items) units.items) }
        requires partition { IsPartition (map (λ unit. unit.items) units.items) ops }
        ensures units { IfOk result (λ made. made.units ≡ map (λ unit. unit.items) units.items) }
        ensures ops { IfOk result (λ made. made.ops ≡ ops) }
    {
        let places = places(alloc, &units, ops)?;
        Ok(Chained { units, places })
    }

    /// The number of units.
    pub(crate) fn len(&self) -> u32
        ensures { result ≡ length self.now.units }
    {
        self.units.len() as u32
    }

    /// The operations of unit `u`, by rising number.
    pub(crate) fn ops(&self, u: u32) -> &[u32]
        requires { u < length self.now.units }
        ensures { result.now ≡ slice_index_or self.now.units u [] }
    {
        self.units.get(u as usize).as_slice()
    }

    /// The unit of an operation.
    pub(crate) fn unit_of(&self, op: u32) -> u32
        requires { op < self.now.ops }
        ensures stands { (i : ℕ) × StandsAt self.now.units result i op }
        ensures alone { (u i : ℕ) → StandsAt self.now.units u i op → u ≡ result }
    {
        self.places.get(op as usize).unit
    }

    /// The place of an operation in its unit.
    pub(crate) fn place_of(&self, op: u32) -> u32
        requires { op < self.now.ops }
        ensures stands { (u : ℕ) × StandsAt self.now.units u result op }
        ensures alone { (u i : ℕ) → StandsAt self.now.units u i op → i ≡ result }
    {
        self.places.get(op as usize).at
    }
}
