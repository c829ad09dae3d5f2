use crate::change::Change;
use crate::rule::{BalanceWriter, Telling};
use crate::show::{add, show};
use crate::viewer::Viewer;
use morph_base::{OutOfMemory, Plan, Settled};
use std::alloc::Global;
use std::marker::Model;
use std::sync::Wait;

/// Publishes balances batch by batch. Contracts see the layout and the batches that were published, by their plans.
///
/// It is not `Drop`, since its end may wait for a viewer: end it by [`Publisher::end`].
pub struct Publisher {
    pub(crate) writer: BalanceWriter,
}

impl Model for Publisher {
    ghost use Rattle.std.specs.Prelude.{drop};
    ghost use Rattle.left_right.specs.Sides.{view as sight};
    ghost use Rattle.snapshot_reader.specs.Steady.{Posted, NoChangeWaits};

    ghost Value = { Posted };

    ghost view = { λ p. record {
      layout = p.writer.desk.shown.value.layout;
      plans = (sight p.writer.desk.place).seen;
    } };

    ghost invariant = { λ p. NoChangeWaits p.writer.desk.shown.value (sight p.writer.desk.place).seen
        (drop p.writer.behind p.writer.log.items) };
}

impl Publisher {
    ghost use Rattle.std.specs.Prelude.{◌≡◌, ◌+◌, ◌^◌, ◌<◌, ◌≤◌, ◌++◌, [], ◌∷◌, true, false, length, IfOk, OnOk, OnErr};
    ghost use Rattle.morph_base.specs.Plans.{IsPlan, HasBases, PlanKeysIn, IsSettledOf};
    ghost use Rattle.snapshot_reader.specs.Batches.{after_plans};

    /// Publishes the settled batch that follows the last one published: all that it changed becomes visible at one
    /// step. Returns the number of batches that were published, which is one greater.
    ///
    /// It may wait for a viewer that is reading. If memory is refused, nothing was published, and the publisher may go
    /// on.
    pub fn publish<R: Wait>(
        &mut self,
        rt: &R,
        alloc: Global,
        plan: &Plan,
        settled: &Settled,
    ) -> Result<u64, OutOfMemory>
        requires plan { IsPlan plan.now }
        requires keys { PlanKeysIn plan.now self.old.layout }
        requires bases { HasBases plan.now (after_plans self.old.plans) }
        requires settled { IsSettledOf plan.now settled.now }
        requires room { length self.old.plans + 1 < 2 ^ 64 }
        ensures published { OnOk result (self.new.plans ≡ self.old.plans ++ plan.now ∷ []) }
        ensures number { IfOk result (λ number. number ≡ length self.new.plans) }
        ensures refused { OnErr result (self.new.plans ≡ self.old.plans) }
        ensures layout { self.new.layout ≡ self.old.layout }
    {
        let change = Change::of(alloc, self.writer.published().layout, plan, settled)?;
        add(&mut self.writer, change)?;
        show(rt, &mut self.writer);
        Ok(self.writer.published().number)
    }

    /// How many batches were published.
    pub fn number(&self) -> u64
        ensures { result ≡ length self.now.plans }
    {
        self.writer.published().number
    }

    /// Tells a viewer of all that was published: it sees no fewer batches from now on.
    ///
    /// The viewer is given a fresh reader, since no call of `left_right` says that a reader which has looked is still
    /// one of this writer's. If `left_right` hands out none, the viewer sees nothing from now on. A viewer without a
    /// reader stays as it is. A viewer that another call of [`snapshots`](crate::snapshots) made is moved to the
    /// balances of this publisher if it saw no more batches than were published here, and else sees nothing from now
    /// on.
    pub fn tell(&mut self, viewer: &mut Viewer)
        ensures told { viewer.new.sees ≡ true → viewer.new.told ≡ self.old.plans }
        ensures least { viewer.new.sees ≡ true → viewer.new.least ≡ length self.old.plans }
        ensures later { viewer.old.least ≤ viewer.new.least }
        ensures blind { viewer.old.sees ≡ false → viewer.new ≡ viewer.old }
        ensures layout { viewer.new.layout ≡ viewer.old.layout }
        ensures kept { self.new ≡ self.old }
    {
        if viewer.reader.is_none() {
            return;
        }
        // That frees its place for the fresh one.
        viewer.reader = None;
        let number = self.number();
        if number < viewer.least {
            return;
        }
        if let Ok(mut reader) = self.writer.factory().reader() {
            reader.learn::<Telling>(self.writer.tell::<Telling>());
            viewer.least = number;
            viewer.reader = Some(reader);
        }
    }

    /// Ends it. It may wait for a viewer that is reading.
    pub fn end<R: Wait>(self, rt: &R) {
        let Publisher { writer } = self;
        drop(writer.take(rt));
    }
}
