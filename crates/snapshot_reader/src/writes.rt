ghost use Rattle.std.specs.Prelude.{◌≡◌, IfOk};
ghost use Rattle.morph_base.specs.Flat.{place_of};
ghost use Rattle.morph_base.specs.Plans.{IsSettledOf, op_count};
ghost use Rattle.snapshot_reader.specs.Writing.{writes_of};

use crate::change::Write;
use morph_base::{Key, Layout, List, OutOfMemory, Plan, Settled};
use std::alloc::Global;

/// The place of a key's value.
pub fn place(layout: Layout, key: Key) -> usize
    ensures { result ≡ place_of layout key }
{
    usize::from(key.table) * layout.size as usize + key.id as usize
}

/// The values that a settled batch writes, each at the place of its operation's target.
pub fn writes(
    alloc: Global,
    layout: Layout,
    plan: &Plan,
    settled: &Settled,
) -> Result<List<Write>, OutOfMemory>
    requires settled { IsSettledOf plan.now settled.now }
    ensures { IfOk result (λ list. list.items
        ≡ writes_of layout plan.now settled.now.values.items (op_count plan.now)) }
{
    let mut list = List::with_room(alloc, plan.ops.len())?;
    for o in 0..plan.ops.len() {
        list.add(Write {
            place: place(layout, plan.ops.key(o)),
            value: *settled.values.get(o),
        });
    }
    Ok(list)
}
