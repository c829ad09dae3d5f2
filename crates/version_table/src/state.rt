ghost use Rattle.std.specs.Prelude.{◌≡◌, ◌<◌, ◌≤◌, ◌↔◌, nat_le, count_by, IfOk, IsTrue};
ghost use Rattle.morph_base.specs.declared.limits.TheConstants.{MAX};
ghost use Rattle.morph_base.specs.Operations.{InLayout};
ghost use Rattle.morph_base.specs.States.{opening_state, IsUpTo};
ghost use Rattle.morph_base.specs.Flat.{contents};
ghost use Rattle.morph_base.specs.Plans.{IsPlan, high_of, HasBases, PlanKeysIn, IsSettledOf};
ghost use Rattle.morph_base.specs.Plans.{event_count, event_at, event_of, op_count, target, state_at, filled_plan};

use morph_base::{Key, Layout, OutOfMemory, Plan, Settled, Values};
use std::alloc::Global;
use std::marker::Model;

/// A value for each key of a layout, between two batches.
///
/// Contracts see the layout and the values, as of [`Values`], and read them as a function of all keys, which is 0
/// outside the layout (`contents`). No value is above [`MAX`](morph_base::MAX).
#[derive(Debug, Drop)]
pub struct State {
    values: Values,
}

impl Model for State {
    ghost use Rattle.morph_base.specs.declared.limits.TheConstants.{MAX};
    ghost use Rattle.morph_base.specs.Flat.{Kept, contents};
    ghost use Rattle.morph_base.specs.States.{IsUpTo};

    ghost Value = { Kept };

    ghost view = { λ state. state.values };

    ghost invariant = { λ state. IsUpTo MAX (contents state.values) };
}

impl State {
    /// Makes the state at the start: all values are 0. All memory that the state ever needs is taken here.
    pub fn new(alloc: Global, layout: Layout) -> Result<Self, OutOfMemory>
        ensures layout { IfOk result (λ state. state.layout ≡ layout) }
        ensures opening { IfOk result (λ state. contents state ≡ opening_state) }
    {
        Ok(State {
            values: Values::new(alloc, layout)?,
        })
    }

    /// The layout: which keys there are.
    pub fn layout(&self) -> Layout
        ensures layout { result ≡ self.now.layout }
        ensures small { (key : Key) → contents self.now key ≤ MAX }
    {
        self.values.layout()
    }

    /// The value of a key of the layout.
    pub fn get(&self, key: Key) -> u64
        requires { InLayout self.now.layout key }
        ensures value { result ≡ contents self.now key }
        ensures small { result ≤ MAX }
    {
        self.values.get(key)
    }

    /// Fills in the bases of a plan: each `Base` of a place that an operation reads becomes the value of its key.
    ///
    /// The plan is then one of this state, until a batch is applied. Everything else of the plan stays.
    pub fn bases(&self, plan: &mut Plan)
        requires plan { IsPlan plan.old }
        requires keys { PlanKeysIn plan.old self.now.layout }
        requires small { IsUpTo (high_of plan.old) (contents self.now) }
        ensures filled { plan.new ≡ filled_plan (contents self.now) plan.old }
        ensures plan { IsPlan plan.new }
        ensures bases { HasBases plan.new (contents self.now) }
    {
        plan.ops.fill_bases(&self.values);
    }

    /// The value of a key after the plan's events with timestamps up to `ts`, as it was settled.
    ///
    /// The state is still the one before the batch: once [`State::apply`] has brought it up to date, it has only the
    /// latest values.
    pub fn version(&self, plan: &Plan, settled: &Settled, key: Key, ts: u64) -> u64
        requires plan { IsPlan plan.now }
        requires bases { HasBases plan.now (contents self.now) }
        requires settled { IsSettledOf plan.now settled.now }
        requires key { InLayout self.now.layout key }
        ensures { let events = count_by (λ e. nat_le e.ts ts) plan.now.events.items in
            result ≡ state_at plan.now (contents self.now) events key }
    {
        let mut value = self.get(key);
        for o in 0..plan.ops.len() {
            if changes(plan, o, key, ts) {
                value = *settled.values.get(o);
            }
        }
        value
    }

    /// Brings the state up to date with a settled batch: the state becomes the fold of the plan's events.
    ///
    /// Each key that an operation changes gets the value of the last one that does, and all other keys stay.
    pub fn apply(&mut self, plan: &Plan, settled: &Settled)
        requires plan { IsPlan plan.now }
        requires keys { PlanKeysIn plan.now self.old.layout }
        requires bases { HasBases plan.now (contents self.old) }
        requires settled { IsSettledOf plan.now settled.now }
        ensures state { contents self.new ≡ state_at plan.now (contents self.old)
            (event_count plan.now) }
        ensures layout { self.new.layout ≡ self.old.layout }
    {
        for o in 0..settled.values.len() {
            let key = plan.ops.key(o);
            self.values.put(key, *settled.values.get(o));
        }
    }
}

/// Whether operation `o` of the plan changes the key at a time up to `ts`.
fn changes(plan: &Plan, o: usize, key: Key, ts: u64) -> bool
    requires op { o < op_count plan.now }
    requires event { event_of plan.now o < event_count plan.now }
    ensures { IsTrue result ↔ ((target plan.now o ≡ key)
        × ((event_at plan.now (event_of plan.now o)).ts ≤ ts)) }
{
    plan.ops.key(o) == key && plan.events.get(plan.ops.event(o) as usize).ts <= ts
}
