//! Lends parts of the deques, by which workers steal from one another.
ghost use Rattle.std.specs.Prelude.{◌+◌, ◌<◌, length};
ghost use Rattle.crossbeam_deque.specs.Handles.{worker_view};
ghost use Rattle.steal_explorer.specs.Lending.{LendsPart, Gets, AreLent, AreLending, KeepsSeats};

use crate::deque_rule::{Lends, Thief, Ticket};
use crate::deques::Seat;

/// Lends one part of a deque.
fn give(seat: &mut Seat) -> Ticket
    requires { 1 < (worker_view seat.old.owner).parts }
    ensures { LendsPart result seat.old seat.new }
{
    seat.owner.another::<Lends>()
}

/// Adds a ticket after those that a worker has.
fn keep(seat: &mut Seat, ticket: Ticket)
    requires { 0 < seat.old.tickets.room }
    ensures { Gets ticket seat.old seat.new }
{
    seat.tickets.add(ticket);
}

/// Gives worker `j` its ticket of deque `k`. The ticket has one part, or none if the deque is its own.
fn lend_one(thieves: &[Thief], seats: &mut [Seat], k: usize, j: usize)
    requires inside { j < length seats.old }
    requires deque { k < length seats.old }
    requires lending { AreLending thieves.now k j seats.old }
    ensures lending { AreLending thieves.now k (j + 1) seats.new }
    ensures kept { KeepsSeats seats.old seats.new }
{
    if j == k {
        keep(&mut seats[j], thieves[k].pass());
    } else {
        let ticket = give(&mut seats[k]);
        keep(&mut seats[j], ticket);
    }
}

/// Gives each worker its ticket of deque `k`.
fn lend(thieves: &[Thief], seats: &mut [Seat], k: usize)
    requires deque { k < length seats.old }
    requires lent { AreLent thieves.now k seats.old }
    ensures lent { AreLent thieves.now (k + 1) seats.new }
    ensures kept { KeepsSeats seats.old seats.new }
{
    for j in 0..seats.len() {
        lend_one(thieves, seats, k, j);
    }
}

/// Gives each worker its tickets of all deques.
pub(crate) fn lend_all(thieves: &[Thief], seats: &mut [Seat])
    requires lent { AreLent thieves.now 0 seats.old }
    ensures lent { AreLent thieves.now (length seats.old) seats.new }
    ensures kept { KeepsSeats seats.old seats.new }
{
    for k in 0..seats.len() {
        lend(thieves, seats, k);
    }
}
