ghost use Rattle.std.specs.Prelude.{◌≡◌, ◌<◌, ◌^◌, IfOk};
ghost use Rattle.morph_base.specs.Plans.{op_count};
ghost use Rattle.chain_units.specs.Units.{units_of};

use crate::alone::Alone;
use crate::chained::Chained;
use crate::chains::chains;
use crate::unit_lists::Units;
use morph_base::{OutOfMemory, Plan, Unit};
use std::alloc::Global;

/// Cuts the operations of a plan into units. A valid plan has fewer than the 2^32 that may be numbered.
///
/// With [`Unit::Op`] each operation is a unit of its own number. With [`Unit::Chain`] there is a unit for each key that
/// an operation changes, in the order of keys, with all operations that change it, by rising number.
pub fn units(alloc: Global, plan: &Plan, unit: Unit) -> Result<Units, OutOfMemory>
    requires { op_count plan.now < 2 ^ 32 }
    ensures units { IfOk result (λ units. units.units ≡ units_of plan.now unit) }
    ensures ops { IfOk result (λ units. units.ops ≡ op_count plan.now) }
{
    let ops = plan.ops.len();
    match unit {
        Unit::Op => {
            let ops = Alone::new(alloc, ops)?;
            Ok(Units::alone(ops))
        }
        Unit::Chain => {
            let units = Chained::new(alloc, chains(alloc, plan)?, ops)?;
            Ok(Units::chained(units))
        }
    }
}
