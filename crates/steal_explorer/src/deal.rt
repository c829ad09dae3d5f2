//! Makes the deques, and deals the operations of level 1 to them.
ghost use Rattle.std.specs.Prelude.{◌≡◌, ◌<◌, ◌≤◌, ◌∷◌, [], All, IfOk, length};
ghost use Rattle.morph_base.specs.Graphs.{IsGraph};
ghost use Rattle.morph_base.specs.Plans.{op_count};
ghost use Rattle.steal_explorer.specs.Dealing.{IsOpenedSeat, AreOpened, CanTake, HasGot, HaveGot, level_one};

use crate::deque_rule::{Owner, Puts, Thief};
use crate::deques::Seat;
use morph_base::{List, OutOfMemory, Plan};
use std::alloc::Global;

/// Makes an empty deque with room for this many pushes, and the thief by which others steal from it.
fn open(alloc: Global, capacity: usize, count: usize) -> Result<(Seat, Thief), OutOfMemory>
    ensures { IfOk result (λ made. IsOpenedSeat capacity count made.1 made.0) }
{
    let tickets = List::with_room(alloc, count)?;
    let owner = Owner::fifo_as(alloc, capacity)?;
    let thief = owner.stealer()?;
    let seat = Seat {
        owner,
        tickets,
        handed: 0,
    };
    Ok((seat, thief))
}

/// Makes a deque for each worker.
pub(crate) fn open_all(
    alloc: Global,
    capacity: usize,
    count: usize,
    seats: &mut List<Seat>,
    thieves: &mut List<Thief>,
) -> Result<(), OutOfMemory>
    requires seats { seats.old.items ≡ [] }
    requires thieves { thieves.old.items ≡ [] }
    requires room { count ≤ seats.old.room }
    requires room_beside { count ≤ thieves.old.room }
    ensures opened { IfOk result (λ _. AreOpened capacity count thieves.new.items seats.new.items) }
    ensures len { IfOk result (λ _. length seats.new.items ≡ count) }
{
    'deques: for _ in 0..count {
        let (seat, thief) = open(alloc, capacity, count)?;
        seats.add(seat);
        thieves.add(thief);
    }
    Ok(())
}

/// Deals an operation to a deque that has room for it.
fn give(seat: &mut Seat, op: u32)
    requires { CanTake 1 seat.old }
    ensures { HasGot (op ∷ []) seat.old seat.new }
{
    match seat.owner.push_as::<Puts>(op) {
        Ok(()) => seat.handed = seat.handed.saturating_add(1),
        Err(_) => unreachable!(),
    }
}

/// Deals operations to the deques in turn, worker 1 first.
fn deal_all(seats: &mut [Seat], ops: &[u32])
    requires some { 0 < length seats.old }
    requires take { All (CanTake (length ops.now)) seats.old }
    ensures { HaveGot ops.now seats.old seats.new }
{
    for i in 0..ops.len() {
        give(&mut seats[i % seats.len()], ops[i]);
    }
}

/// Deals the operations of level 1.
pub(crate) fn deal(plan: &Plan, seats: &mut [Seat])
    requires graph { IsGraph plan.now }
    requires some { 0 < length seats.old }
    requires take { All (CanTake (op_count plan.now)) seats.old }
    ensures { HaveGot (level_one plan.now) seats.old seats.new }
{
    if !plan.op_levels.is_empty() {
        deal_all(seats, plan.op_levels.get(0).as_slice());
    }
}
