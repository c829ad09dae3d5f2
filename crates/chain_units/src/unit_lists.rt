ghost use Rattle.std.specs.Prelude.{◌≡◌, ℕ, ◌<◌, ◌↔◌, IsTrue, [], length, slice_index_or};
ghost use Rattle.chain_units.specs.Places.{StandsAt};

use crate::alone::Alone;
use crate::chained::Chained;
use crate::cut::Cut;
use std::marker::Model;

/// Operations in units. Contracts see a list of lists.
///
/// Units are numbered from 0, and so are the places of a unit.
#[derive(Debug, Drop)]
pub struct Units {
    cut: Cut,
}

impl Model for Units {
    ghost use Rattle.chain_units.specs.Places.{Grouping};
    ghost use Rattle.chain_units.specs.Cuts.{grouping_of};

    ghost Value = { Grouping };

    ghost view = { λ units. grouping_of units.cut };
}

impl Units {
    ghost use Rattle.std.specs.Prelude.{map, ◌∷◌};
    ghost use Rattle.morph_base.specs.Graphs.{below};

    /// Makes units with one operation each.
    pub(crate) fn alone(ops: Alone) -> Self
        ensures units { result.units ≡ map (λ o. o ∷ []) (below ops) }
        ensures ops { result.ops ≡ ops }
    {
        Units {
            cut: Cut::Alone(ops),
        }
    }

    /// Makes units of any length.
    pub(crate) fn chained(units: Chained) -> Self
        ensures { result ≡ units }
    {
        Units {
            cut: Cut::Chained(units),
        }
    }

    /// The number of units.
    pub fn len(&self) -> u32
        ensures { result ≡ length self.now.units }
    {
        match &self.cut {
            Cut::Alone(ops) => ops.len(),
            Cut::Chained(units) => units.len(),
        }
    }

    /// Whether there is no unit.
    pub fn is_empty(&self) -> bool
        ensures { IsTrue result ↔ (self.now.units ≡ []) }
    {
        self.len() == 0
    }

    /// The operations of unit `u`, by rising number.
    pub fn ops(&self, u: u32) -> &[u32]
        requires { u < length self.now.units }
        ensures { result.now ≡ slice_index_or self.now.units u [] }
    {
        match &self.cut {
            Cut::Alone(ops) => ops.unit(u),
            Cut::Chained(units) => units.ops(u),
        }
    }

    /// The unit of an operation.
    pub fn unit_of(&self, op: u32) -> u32
        requires { op < self.now.ops }
        ensures stands { (i : ℕ) × StandsAt self.now.units result i op }
        ensures alone { (u i : ℕ) → StandsAt self.now.units u i op → u ≡ result }
    {
        match &self.cut {
            Cut::Alone(_) => op,
            Cut::Chained(units) => units.unit_of(op),
        }
    }

    /// The place of an operation in its unit.
    pub fn place_of(&self, op: u32) -> u32
        requires { op < self.now.ops }
        ensures stands { (u : ℕ) × StandsAt self.now.units u result op }
        ensures alone { (u i : ℕ) → StandsAt self.now.units u i op → i ≡ result }
    {
        match &self.cut {
            Cut::Alone(_) => 0,
            Cut::Chained(units) => units.place_of(op),
        }
    }
}
