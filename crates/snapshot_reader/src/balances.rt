ghost use Rattle.std.specs.Prelude.{◌≡◌, ◌*◌, replicate, option_map, IfOk, None};
ghost use Rattle.morph_base.specs.Flat.{state_in};
ghost use Rattle.snapshot_reader.specs.Writing.{written, applied};

use crate::change::{Change, Shown, Write};
use crate::writes::place;
use left_right::Absorb;
use morph_base::{Key, Layout, OutOfMemory};
use std::alloc::{AllocError, Global};
use std::snapshot::Snapshot;

/// The values of a layout's keys, table after table, and how many batches they come after. There are two copies: one
/// that is read, and one that is written.
#[derive(Drop)]
pub struct Balances {
    pub layout: Layout,
    pub number: u64,
    pub values: Vec<u64>,
    /// The last batch. It has no bytes.
    pub last: Option<Snapshot<Change>>,
}

impl Absorb<Change> for Balances {
    type State = Shown;

    ghost state = { λ b. record {
      layout = b.layout;
      number = b.number;
      values = b.values.items;
      last = option_map (λ change. change.value) b.last;
    } };

    ghost applied = { applied };

    ghost never_fails = { Unit {0} };

    fn absorb_first(&mut self, operation: &Change, _other: &Balances) -> Result<(), AllocError> {
        overwrite(&mut self.values, operation.writes.as_slice());
        self.number = self.number.wrapping_add(1);
        self.last = Some(Snapshot::of(operation));
        Ok(())
    }
}

/// Writes each value at its place. A place past the end is left out.
fn overwrite(values: &mut Vec<u64>, writes: &[Write])
    ensures { values.new.items ≡ written values.old.items writes.now }
{
    for write in writes {
        if write.place < values.len() {
            values[write.place] = write.value;
        }
    }
}

impl Balances {
    /// The balances at the start, all 0.
    pub fn opening(alloc: Global, layout: Layout) -> Result<Balances, OutOfMemory>
        ensures layout { IfOk result (λ b. b.layout ≡ layout) }
        ensures number { IfOk result (λ b. b.number ≡ 0) }
        ensures last { IfOk result (λ b. b.last ≡ None) }
        ensures values { IfOk result
            (λ b. b.values.items ≡ replicate (layout.tables * layout.size) 0) }
    {
        let len = usize::from(layout.tables) * layout.size as usize;
        Ok(Balances {
            layout,
            number: 0,
            values: vec![in alloc; 0; len]?,
            last: None,
        })
    }

    /// The value of a key; 0 outside the layout.
    pub fn get(&self, key: Key) -> u64
        ensures { result ≡ state_in self.now.layout self.now.values.items key }
    {
        if !self.layout.contains(key) {
            return 0;
        }
        let place = place(self.layout, key);
        if place < self.values.len() {
            self.values[place]
        } else {
            0
        }
    }
}
