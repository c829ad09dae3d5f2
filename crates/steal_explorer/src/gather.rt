//! Gives workers all parts of their deques back, once all have returned.
ghost use Rattle.std.specs.Prelude.{◌≡◌, ◌+◌, ◌<◌, ◌++◌, ◌∷◌, [], length};
ghost use Rattle.crossbeam_deque.specs.Handles.{IsPassOf, worker_deque};
ghost use Rattle.steal_explorer.specs.Gathering.{Regains, AreRegaining, AreHolding, AreTotals};
ghost use Rattle.steal_explorer.specs.Members.{own, tickets_of};

use crate::deque_rule::{Returns, Thief, Ticket};
use crate::member::Member;

/// Takes the last ticket of a worker out.
fn give(member: &mut Member) -> Ticket
    requires { 0 < length (tickets_of member.old) }
    ensures last { tickets_of member.old ≡ tickets_of member.new ++ result ∷ [] }
    ensures same { member.new ≡ record member.old { tickets = member.new.tickets } }
{
    let Some(ticket) = member.tickets.pop() else {
        unreachable!()
    };
    ticket
}

/// Gives a worker a part of its deque back.
fn regain(member: &mut Member, ticket: Ticket)
    requires of { IsPassOf (worker_deque member.old.owner) ticket }
    requires part { 0 < (own member.old).parts }
    ensures { Regains ticket member.old member.new }
{
    member.owner.absorb::<Returns>(ticket);
}

/// Moves the last ticket of worker `j` to its deque, which is that of worker `k`.
fn move_ticket(_thieves: &[Thief], members: &mut [Member], k: usize, j: usize)
    requires inside { j < length members.old }
    requires deque { k < length members.old }
    requires regaining { AreRegaining _thieves.now k j members.old }
    ensures regaining { AreRegaining _thieves.now k (j + 1) members.new }
    ensures totals { AreTotals members.old members.new }
{
    let ticket = give(&mut members[j]);
    if j != k {
        regain(&mut members[k], ticket);
    }
}

/// Gives worker `k` all parts of its deque back: they are the last tickets of all workers.
fn regain_all(thieves: &[Thief], members: &mut [Member], k: usize)
    requires deque { k < length members.old }
    requires holding { AreHolding thieves.now (k + 1) members.old }
    ensures holding { AreHolding thieves.now k members.new }
    ensures totals { AreTotals members.old members.new }
{
    for j in 0..members.len() {
        move_ticket(thieves, members, k, j);
    }
}

/// Gives all workers all parts of their deques back.
pub(crate) fn gather(thieves: &[Thief], members: &mut [Member])
    requires holding { AreHolding thieves.now (length members.old) members.old }
    ensures holding { AreHolding thieves.now 0 members.new }
    ensures totals { AreTotals members.old members.new }
{
    let count = members.len();
    for given in 0..count {
        regain_all(thieves, members, count - 1 - given);
    }
}
