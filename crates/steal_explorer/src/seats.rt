//! Puts runners beside their deques, and takes them back.
ghost use Rattle.std.specs.Prelude.{◌≡◌, ◌+◌, ◌≤◌, [], length, map, reverse};
ghost use Rattle.op_eval.specs.declared.explored.RunEnd.TheVariants.{Spent};
ghost use Rattle.op_eval.specs.Gathering.{runners_of, spare, HasPlaces};
ghost use Rattle.steal_explorer.specs.Seating.{AreSeatedBy, runner_of};

use crate::deques::Seat;
use crate::member::Member;
use morph_base::List;
use op_eval::{RunEnd, Runner, Runners};

/// Reverses a list of workers.
fn turn_round(members: &mut List<Member>)
    ensures items { members.new.items ≡ reverse members.old.items }
    ensures room { members.new.room ≡ members.old.room }
{
    members.as_mut_slice().reverse();
}

/// Makes a worker that begins.
fn begin(runner: Runner, number: usize, seat: Seat) -> Member
    ensures { result ≡ record {
      runner = runner;
      number = number;
      owner = seat.owner;
      tickets = seat.tickets;
      handed = seat.handed;
      stolen = 0;
      end = Spent;
    } }
{
    let Seat {
        owner,
        tickets,
        handed,
    } = seat;
    Member {
        runner,
        number,
        owner,
        tickets,
        handed,
        stolen: 0,
        end: RunEnd::Spent,
    }
}

/// Puts each runner beside its deque, worker 1 first.
pub(crate) fn seat_all(runners: &mut Runners, seats: &mut List<Seat>, members: &mut List<Member>)
    requires len { length (runners_of runners.old) ≡ length seats.old.items }
    requires none { members.old.items ≡ [] }
    requires room { length seats.old.items ≤ members.old.room }
    ensures seated { AreSeatedBy (runners_of runners.old) seats.old.items members.new.items }
    ensures empty { runners_of runners.new ≡ [] }
    ensures spare { spare runners.new ≡ spare runners.old + length (runners_of runners.old) }
    ensures places { HasPlaces runners.old → HasPlaces runners.new }
{
    let count = seats.len();
    'seats: for seated in 0..count {
        let Some(runner) = runners.pop() else {
            unreachable!()
        };
        let Some(seat) = seats.pop() else {
            unreachable!()
        };
        members.add(begin(runner, count - 1 - seated, seat));
    }
    turn_round(members);
}

/// Puts the runners back, worker 1 first.
pub(crate) fn unseat_all(members: &mut List<Member>, runners: &mut Runners)
    requires empty { runners_of runners.old ≡ [] }
    requires room { length members.old.items ≤ spare runners.old }
    ensures runners { runners_of runners.new ≡ map runner_of members.old.items }
    ensures spare { spare runners.old ≡ spare runners.new + length members.old.items }
    ensures places { HasPlaces runners.old → HasPlaces runners.new }
{
    turn_round(members);
    'members: for _ in 0..members.len() {
        let Some(Member { runner, .. }) = members.pop() else {
            unreachable!()
        };
        runners.add(runner);
    }
}
