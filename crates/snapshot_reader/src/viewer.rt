use crate::rule::{BalanceReader, Seeing};
use crate::sum::sum;
use morph_base::{Key, Layout};
use std::marker::Model;

/// The sum of a table's values after some number of batches.
#[derive(Clone, Copy, Debug, PartialEq, Eq)]
pub struct Total {
    /// How many batches were seen, counted from the first that was published.
    pub number: u64,
    /// The sum.
    pub total: u64,
}

/// The value of a key after some number of batches.
#[derive(Clone, Copy, Debug, PartialEq, Eq)]
pub struct At {
    /// How many batches were seen, counted from the first that was published.
    pub number: u64,
    /// The value.
    pub value: u64,
}

/// The half of a viewer that looks at balances: the batches that it has seen and was told of.
pub trait Look: Drop {
    ghost use Rattle.std.specs.Prelude.{List};
    ghost use Rattle.morph_base.specs.declared.plan.Plan.{Plan};

    ghost seen: { Self → List Plan };

    ghost told: { Self → List Plan };
}

impl Look for BalanceReader {
    ghost use Rattle.left_right.specs.Sides.{view as sight};
    ghost use Rattle.snapshot_reader.specs.declared.view.View.{View};

    ghost seen = { λ reader. (sight {V = View} reader.place).seen };

    ghost told = { λ reader. (sight {V = View} reader.place).told };
}

/// Sees balances, each time after a whole number of batches. It may be used in a thread of its own.
///
/// It is made by [`snapshots`](crate::snapshots). If that found no reader for it, it sees nothing. Contracts see the
/// batches that it has seen and was told of since the publisher last told it, and the greatest number of batches that
/// it ever saw or was told of.
#[derive(Drop)]
pub struct Viewer<R: Look = BalanceReader> {
    pub(crate) layout: Layout,
    pub(crate) least: u64,
    // Its type is a parameter so that a viewer is seen to be `Send` by what it holds.
    pub(crate) reader: Option<R>,
}

impl<R: Look> Model for Viewer<R> {
    ghost use Rattle.std.specs.Prelude.{◌≤◌, max, length, is_some, option_map, unwrap_or, [], IfSome};
    ghost use Rattle.snapshot_reader.specs.Known.{Known, most_ids};

    ghost Value = { Known };

    ghost view = { λ v. record {
      layout = v.layout;
      sees = is_some v.reader;
      least = v.least;
      seen = unwrap_or (option_map R.seen v.reader) [];
      told = unwrap_or (option_map R.told v.reader) [];
    } };

    ghost invariant = { λ v. (v.layout.size ≤ most_ids)
        × IfSome v.reader (λ reader. v.least ≤ max (length (R.seen reader))
        (length (R.told reader))) };
}

impl Viewer<BalanceReader> {
    ghost use Rattle.std.specs.Prelude.{◌≡◌, ◌≤◌, true, length, IfSome, IfNone};
    ghost use Rattle.version_table.specs.Totals.{total_of};
    ghost use Rattle.snapshot_reader.specs.Batches.{after_plans};
    ghost use Rattle.snapshot_reader.specs.Known.{LooksOn};

    /// The value of a key after all batches that it sees now, with their number. A key outside the layout has the
    /// value 0.
    ///
    /// `None` is returned only if the viewer has no reader, or `left_right` hands out no guard; the viewer is then as
    /// before.
    pub fn value(&mut self, key: Key) -> Option<At>
        ensures looks { IfSome result (λ at. LooksOn self.old self.new) }
        ensures number { IfSome result (λ at. at.number ≡ length self.new.seen) }
        ensures value { IfSome result (λ at. at.value ≡ after_plans self.new.seen key) }
        ensures later { IfSome result (λ at. self.old.least ≤ at.number) }
        ensures least { IfSome result (λ at. self.new.least ≡ at.number) }
        ensures some { IfSome result (λ at. self.old.sees ≡ true) }
        ensures none { IfNone result (self.new ≡ self.old) }
        ensures layout { self.new.layout ≡ self.old.layout }
        ensures sees { self.new.sees ≡ self.old.sees }
    {
        match self.reader.take()?.enter_as::<Seeing>() {
            Ok(reading) => {
                let balances = reading.get();
                let at = At {
                    number: balances.number,
                    value: balances.get(key),
                };
                self.least = at.number;
                self.reader = Some(reading.leave());
                Some(at)
            }
            Err(reader) => {
                self.reader = Some(reader);
                None
            }
        }
    }

    /// The sum of the values of a table after all batches that it sees now, with their number.
    ///
    /// `None` is returned only if the viewer has no reader, or `left_right` hands out no guard; the viewer is then as
    /// before.
    pub fn total(&mut self, table: u8) -> Option<Total>
        ensures looks { IfSome result (λ sum. LooksOn self.old self.new) }
        ensures number { IfSome result (λ sum. sum.number ≡ length self.new.seen) }
        ensures total { IfSome result (λ sum. sum.total
            ≡ total_of (after_plans self.new.seen) table self.new.layout.size) }
        ensures later { IfSome result (λ sum. self.old.least ≤ sum.number) }
        ensures least { IfSome result (λ sum. self.new.least ≡ sum.number) }
        ensures some { IfSome result (λ sum. self.old.sees ≡ true) }
        ensures none { IfNone result (self.new ≡ self.old) }
        ensures layout { self.new.layout ≡ self.old.layout }
        ensures sees { self.new.sees ≡ self.old.sees }
    {
        match self.reader.take()?.enter_as::<Seeing>() {
            Ok(reading) => {
                let balances = reading.get();
                let total = Total {
                    number: balances.number,
                    total: sum(balances, table, self.layout.size),
                };
                self.least = total.number;
                self.reader = Some(reading.leave());
                Some(total)
            }
            Err(reader) => {
                self.reader = Some(reader);
                None
            }
        }
    }
}
