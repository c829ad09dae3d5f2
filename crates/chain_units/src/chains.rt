ghost use Rattle.std.specs.Prelude.{◌≡◌, ◌≤◌, ◌^◌, map, IfOk, OnOk};
ghost use Rattle.std.specs.BTreeMap.{values};
ghost use Rattle.morph_base.specs.Plans.{op_count};
ghost use Rattle.chain_units.specs.Chains.{chain_lists, with_op};
ghost use Rattle.chain_units.specs.Units.{chain, targets_in_order};

use morph_base::{Key, List, OutOfMemory, Plan};
use std::alloc::Global;
use std::collections::BTreeMap;

/// For each key that an operation changes, in the order of keys, the operations that change it, by rising number.
pub fn chains(alloc: Global, plan: &Plan) -> Result<List<List<u32>>, OutOfMemory>
    requires { op_count plan.now ≤ 2 ^ 32 }
    ensures { IfOk result (λ units. map (λ unit. unit.items) units.items
        ≡ map (chain plan.now) (targets_in_order plan.now)) }
{
    let mut chains = BTreeMap::new(alloc);
    for op in 0..plan.ops.len() {
        append(alloc, &mut chains, plan.ops.key(op), op as u32)?;
    }
    in_order(alloc, chains)
}

/// Appends an operation to the chain of its key.
fn append(
    alloc: Global,
    chains: &mut BTreeMap<Key, List<u32>>,
    key: Key,
    op: u32,
) -> Result<(), OutOfMemory>
    ensures { OnOk result (chain_lists chains.new ≡ with_op key op (chain_lists chains.old)) }
{
    match chains.get_mut(&key) {
        Some(chain) => chain.push(op)?,
        None => {
            chains.insert(key, List::from_slice(alloc, &[op])?)?;
        }
    }
    Ok(())
}

/// The chains in the order of their keys.
fn in_order(alloc: Global, chains: BTreeMap<Key, List<u32>>) -> Result<List<List<u32>>, OutOfMemory>
    ensures { IfOk result (λ units. units.items ≡ values chains) }
{
    let mut units = List::with_room(alloc, chains.len())?;
    for chain in chains.into_values() {
        units.add(chain);
    }
    Ok(units)
}
