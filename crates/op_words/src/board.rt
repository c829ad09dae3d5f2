ghost use Rattle.std.specs.Prelude.{◌≡◌, ◌+◌};
ghost use Rattle.op_words.specs.Layout.{counter_base, level_index};

use crate::answers::Counts;
use crate::journal::Journal;
use crate::rule::{Known, Rule};
use crate::trail::View;
use atomic_table::{Seat, Table};
use held_op::HeldOp;
use morph_base::READS;
use std::alloc::Global;

mod attempt;
mod calls;
mod changes;
mod close;
mod counters;
mod decide;
mod grounds;
mod hands;
mod held_op;
mod loads;
mod redo;
mod roll_back;
mod settle;
mod sources;
mod steps;
mod values;
mod verdict;
mod waiting;

/// The words of a plan's operations, their records and decisions, a level word and some counters, which several hands
/// change at once, each by single atomic steps.
///
/// Each call by `&self` takes no memory and waits for nobody. The front page of this crate shows the calls in order.
#[derive(Drop)]
pub struct Board {
    table: Table<(), Option<View>, Known, Rule, Global>,
    /// The last attempt at which values that are not settled may be read.
    cap: u8,
    /// The place of the level word. The counters come after it.
    level: usize,
    ghost slotless: { table.shared.table_id.slots ≡ 0 },
    ghost sized: { table.shared.table_id.words ≡ counter_base table.shared.key.plan.value +
        table.shared.key.counters },
    ghost capped: { cap ≡ table.shared.key.cap },
    ghost leveled: { level ≡ level_index table.shared.key.plan.value },
}

/// The right of one worker to step on a board, and what the worker holds.
#[derive(Drop)]
pub struct Hand {
    seat: Seat<(), Option<View>>,
    /// The hand's number, from 1 on. The root has 1.
    tag: u8,
    /// In the root, how many hands were made, the root included.
    made: u8,
    held: HeldOp,
    counts: Counts,
    /// The hand's first steps, if it keeps them.
    journal: Option<Journal>,
}

/// The operation that a hand holds, and the `count` values that it has fetched so far.
#[derive(Clone, Copy, Debug, PartialEq, Eq)]
pub(crate) struct Holding {
    // The values come first, so that no gap lies before them. With a gap they would be copied in pieces.
    values: [u64; READS],
    op: u32,
    attempt: u8,
    count: u8,
}
