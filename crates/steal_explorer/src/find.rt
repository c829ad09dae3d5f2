//! How a worker finds an item.
ghost use Rattle.std.specs.Prelude.{◌≡◌, ◌+◌, ◌<◌, ◌≤◌, length};
ghost use Rattle.steal_explorer.specs.Alone.{FindsAlone};
ghost use Rattle.steal_explorer.specs.declared.find.Found.TheVariants.{Nothing, Retry};
ghost use Rattle.steal_explorer.specs.Members.{SitsAt, AreSeated, HasTickets, HasDeque};
ghost use Rattle.steal_explorer.specs.Finding.{Steals as DoesSteal, StealsAmong, StealsRound, Finds};

use crate::deque_rule::{Pops, Steals, Thief, Ticket};
use crate::member::Member;
use crossbeam_deque::Steal;
use morph_base::{List, Plan};

/// What a worker found in a turn.
#[derive(Clone, Copy, Debug, PartialEq, Eq)]
pub enum Found {
    Item(u32),
    /// Its own deque and each other one were empty, each at a moment of the turn.
    Nothing,
    /// No item: its own deque was empty, and each other one was empty, or more items had left it than was known.
    Retry,
}

impl Found {
    ghost use Rattle.std.specs.Prelude.{◌≡◌};
    ghost use Rattle.steal_explorer.specs.Finding.{is_item, or_then};

    /// Whether it is an item.
    fn is_item(self) -> bool
        ensures { result ≡ is_item self }
    {
        match self {
            Found::Item(_) => true,
            Found::Nothing => false,
            Found::Retry => false,
        }
    }

    /// What was found in all, if `self` was found at some deques, without an item, and then `next` at more deques.
    fn or(self, next: Found) -> Found
        ensures { result ≡ or_then self next }
    {
        match next {
            Found::Item(op) => Found::Item(op),
            Found::Nothing => self,
            Found::Retry => Found::Retry,
        }
    }
}

impl Found {
    ghost use Rattle.std.specs.Prelude.{◌≡◌, ◌+◌, ◌-◌, ◌^◌, min};
    ghost use Rattle.steal_explorer.specs.Finding.{weight_of};
    ghost use Rattle.steal_explorer.specs.Handing.{one};

    /// The count after this: one more if an item was found, up to the greatest u64.
    fn count(self, before: u64) -> u64
        ensures { result ≡ min (before + weight_of one self) (2 ^ 64 - 1) }
    {
        match self {
            Found::Item(_) => before.saturating_add(1),
            Found::Nothing => before,
            Found::Retry => before,
        }
    }
}

/// Steals from a deque.
fn steal_at(thief: &Thief, ticket: &mut Ticket) -> Found
    requires sits { SitsAt thief.now ticket.old }
    ensures sits { SitsAt thief.now ticket.new }
    ensures answer { DoesSteal result ticket.old ticket.new }
{
    match thief.steal_as::<Steals>(ticket) {
        Steal::Success(op) => Found::Item(op),
        Steal::Empty => Found::Nothing,
        Steal::Retry => Found::Retry,
    }
}

/// Steals from the first deque that gives an item, among those whose numbers are in a range.
fn steal_range(thieves: &[Thief], tickets: &mut List<Ticket>, from: usize, to: usize) -> Found
    requires inside { to ≤ length thieves.now }
    requires len { length tickets.old.items ≡ length thieves.now }
    requires seated { AreSeated thieves.now from to tickets.old.items }
    ensures seated { AreSeated thieves.now from to tickets.new.items }
    ensures answer { StealsAmong from to result tickets.old.items tickets.new.items }
    ensures none { to ≤ from → result ≡ Nothing }
{
    let mut retried = false;
    for k in from..to {
        match steal_at(&thieves[k], tickets.get_mut(k)) {
            Found::Item(op) => return Found::Item(op),
            Found::Nothing => {}
            Found::Retry => retried = true,
        }
    }
    if retried {
        Found::Retry
    } else {
        Found::Nothing
    }
}

/// Steals from the other deques, in rising order from the worker's own one, round.
fn steal(thieves: &[Thief], tickets: &mut List<Ticket>, number: usize) -> Found
    requires inside { number < length thieves.now }
    requires len { length tickets.old.items ≡ length thieves.now }
    requires under { AreSeated thieves.now 0 number tickets.old.items }
    requires above { AreSeated thieves.now (number + 1) (length thieves.now) tickets.old.items }
    ensures under { AreSeated thieves.now 0 number tickets.new.items }
    ensures above { AreSeated thieves.now (number + 1) (length thieves.now) tickets.new.items }
    ensures answer { StealsRound number (length thieves.now) result tickets.old.items
        tickets.new.items }
{
    let above = steal_range(thieves, tickets, number + 1, thieves.len());
    if above.is_item() {
        return above;
    }
    let below = steal_range(thieves, tickets, 0, number);
    above.or(below)
}

/// Pops from the worker's own deque, or steals from another one.
pub(crate) fn find(plan: &Plan, thieves: &[Thief], member: &mut Member) -> Found
    requires deque { HasDeque plan.now member.old }
    requires tickets { HasTickets thieves.now member.old }
    ensures deque { HasDeque plan.now member.new }
    ensures tickets { HasTickets thieves.now member.new }
    ensures finds { Finds thieves.now result member.old member.new }
    ensures alone { length thieves.now ≡ 1 → FindsAlone result member.old member.new }
{
    match member.owner.pop_as::<Pops>() {
        Some(op) => Found::Item(op),
        None => {
            let found = steal(thieves, &mut member.tickets, member.number);
            member.stolen = found.count(member.stolen);
            found
        }
    }
}
