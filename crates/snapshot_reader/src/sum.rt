ghost use Rattle.std.specs.Prelude.{◌≡◌, ◌≤◌};
ghost use Rattle.morph_base.specs.Flat.{AreValues, state_in};
ghost use Rattle.version_table.specs.Totals.{total_of};
ghost use Rattle.snapshot_reader.specs.Known.{most_ids};

use crate::balances::Balances;
use morph_base::Key;

/// The sum of the values of the first ids of a table.
pub fn sum(balances: &Balances, table: u8, size: u32) -> u64
    requires kept { AreValues balances.now.layout balances.now.values.items }
    requires few { size ≤ most_ids }
    ensures { result
        ≡ total_of (state_in balances.now.layout balances.now.values.items) table size }
{
    let mut total = 0;
    for id in 0..size {
        total += balances.get(Key { table, id });
    }
    total
}
