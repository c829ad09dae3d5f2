//! The deques of a batch.
ghost use Rattle.std.specs.Prelude.{ℕ, ◌<◌, ◌≤◌, length, slice_index_or};
ghost use Rattle.morph_base.specs.Graphs.{IsValidPlan};
ghost use Rattle.morph_base.specs.Plans.{op_count};
ghost use Rattle.steal_explorer.specs.declared.deques.Seat.{Seat as S};
ghost use Rattle.steal_explorer.specs.Dealing.{LieIn, AreOpened};
ghost use Rattle.steal_explorer.specs.Handing.{whole};
ghost use Rattle.steal_explorer.specs.Seating.{IsSeat};

use crate::deal::{deal, open_all};
use crate::deque_rule::{Owner, Thief, Ticket};
use crate::lend::lend_all;
use crate::member::Member;
use morph_base::{List, OutOfMemory, Plan};
use std::alloc::Global;

/// What a worker has beside its runner: its deque, and a ticket for each deque, with what it has done there as a thief.
#[derive(Drop)]
pub struct Seat {
    pub owner: Owner,
    pub tickets: List<Ticket>,
    pub handed: u64,
}

/// The deques of a batch, worker 1's first, and the list in which exploring keeps each runner beside its deque.
#[derive(Drop)]
pub struct Deques {
    pub(crate) seats: List<Seat>,
    pub(crate) thieves: List<Thief>,
    pub(crate) members: List<Member>,
}

/// Deals the operations of level 1 to empty deques, and then lends each deque to the other workers.
fn prepare(plan: &Plan, thieves: &[Thief], seats: &mut [Seat])
    requires valid { IsValidPlan plan.now }
    requires some { 0 < length seats.old }
    requires few { length thieves.now ≤ whole }
    requires opened { AreOpened (op_count plan.now) (length thieves.now) thieves.now seats.old }
    ensures seats { (k : ℕ) (s : S) → k < length seats.new
        → IsSeat plan.now thieves.now k (slice_index_or seats.new k s) }
    ensures dealt { LieIn plan.now seats.new }
{
    deal(plan, seats);
    lend_all(thieves, seats);
}

impl Deques {
    ghost use Rattle.std.specs.Prelude.{◌≡◌, ◌-◌, ◌≤◌, IfOk, length, slice_index_or};
    ghost use Rattle.morph_base.specs.Graphs.{IsValidPlan};
    ghost use Rattle.morph_base.specs.Limits.{most_workers};
    ghost use Rattle.steal_explorer.specs.declared.deques.Seat.{Seat as S};
    ghost use Rattle.steal_explorer.specs.Dealing.{AreDealt};
    ghost use Rattle.steal_explorer.specs.Seating.{AreReady};

    /// Makes a deque for each worker. Each is first in first out and has capacity for as many pushes as the plan has
    /// operations.
    ///
    /// The operations of level 1 are dealt to them in turn, worker 1 first. Then each worker gets a ticket with one
    /// part of each other deque. The call takes all memory that exploring needs. The only error is refused memory.
    pub fn new(alloc: Global, plan: &Plan, workers: u32) -> Result<Deques, OutOfMemory>
        requires valid { IsValidPlan plan.now }
        requires some { 1 ≤ workers }
        requires few { workers ≤ most_workers }
        ensures ready { IfOk result (AreReady plan.now) }
        ensures workers { IfOk result (λ made. length made.seats.items ≡ workers) }
        ensures dealt { IfOk result (AreDealt plan.now) }
    {
        let count = workers as usize;
        let members = List::with_room(alloc, count)?;
        let mut thieves = List::with_room(alloc, count)?;
        let mut seats = List::with_room(alloc, count)?;
        open_all(alloc, plan.ops.len(), count, &mut seats, &mut thieves)?;
        prepare(plan, thieves.as_slice(), seats.as_mut_slice());
        Ok(Deques {
            seats,
            thieves,
            members,
        })
    }

    /// How many operations were dealt to the deque of a worker. Workers are numbered from 1.
    pub fn dealt(&self, worker: u32) -> u64
        requires some { 1 ≤ worker }
        requires few { worker ≤ length self.now.seats.items }
        ensures { (s : S) → result ≡ (slice_index_or self.now.seats.items (worker - 1) s).handed }
    {
        self.seats.get(worker as usize - 1).handed
    }
}
