//! The turns of a worker.
ghost use Rattle.std.specs.Prelude.{◌≡◌, ◌+◌, ◌*◌, ◌<◌, ◌≤◌, ◌^◌, length};
ghost use Rattle.morph_base.specs.declared.strategy.Abort.TheVariants.{Lazy};
ghost use Rattle.op_words.specs.Hands.{cap_of};
ghost use Rattle.steal_explorer.specs.Alone.{IsTurningAlone, TurnsAlone, BeginsAlone, EndsAlone};
ghost use Rattle.abort_eager.specs.Grounds.{IsGround, ground_rules};
ghost use Rattle.steal_explorer.specs.Members.{HasDependents, CanServe, HasTickets};
ghost use Rattle.steal_explorer.specs.Turns.{Turn, RanTurns, row_then};
ghost use Rattle.steal_explorer.specs.declared.worker.TheConstants.{EMPTY_TURNS};

use crate::deque_rule::Thief;
use crate::find::{Found, find};
use crate::member::Member;
use crate::serve::serve_known;
use abort_eager::Ground;
use op_eval::RunEnd;
use worker_gate::Turns;

/// How many turns in a row that found all deques empty end a worker's work.
pub const EMPTY_TURNS: u32 = 64;

/// The most turns of a worker, on a plan of this many operations.
fn most_turns(ops: usize) -> u64
    requires { ops < 2 ^ 32 }
    ensures { result ≡ 16 * ops + 64 }
{
    16 * ops as u64 + 64
}

/// One turn of a worker.
fn take_turn<T: Turns>(
    ground: &Ground<'_>,
    told: &T,
    turn: u64,
    thieves: &[Thief],
    member: &mut Member,
) -> Found
    requires ground { IsGround ground.now }
    requires dependents { HasDependents ground.now }
    requires can { CanServe ground.now member.old }
    requires tickets { HasTickets thieves.now member.old }
    ensures can { CanServe ground.now member.new }
    ensures tickets { HasTickets thieves.now member.new }
    ensures took { Turn (ground_rules ground.now)
        thieves.now result
        member.old member.new }
    ensures alone { ground.now.abort ≡ Lazy → 1 ≤ cap_of ground.now.board.now
        → length thieves.now ≡ 1
        → IsTurningAlone ground.now.plan.now member.old
        → TurnsAlone ground.now.plan.now result member.old member.new }
{
    told.pass(turn);
    match find(ground.plan, thieves, member) {
        Found::Item(op) => {
            serve_known(ground, told, turn, member, op);
            Found::Item(op)
        }
        Found::Nothing => Found::Nothing,
        Found::Retry => Found::Retry,
    }
}

/// How many turns in a row have found all deques empty, after one more turn.
fn row_after(row: u32, found: Found) -> u32
    requires { row < EMPTY_TURNS }
    ensures { result ≡ row_then row found }
{
    match found {
        Found::Item(_) => 0,
        Found::Nothing => row + 1,
        Found::Retry => 0,
    }
}

/// Takes turns until the worker finds nothing more, or has taken all that it may.
pub(crate) fn work<T: Turns>(
    ground: &Ground<'_>,
    told: &T,
    thieves: &[Thief],
    member: &mut Member,
) -> RunEnd
    requires ground { IsGround ground.now }
    requires dependents { HasDependents ground.now }
    requires can { CanServe ground.now member.old }
    requires tickets { HasTickets thieves.now member.old }
    ensures can { CanServe ground.now member.new }
    ensures tickets { HasTickets thieves.now member.new }
    ensures ran { RanTurns (ground_rules ground.now) thieves.now
        member.old result member.new }
    ensures alone { ground.now.abort ≡ Lazy → 1 ≤ cap_of ground.now.board.now
        → length thieves.now ≡ 1
        → BeginsAlone ground.now.plan.now member.old
        → EndsAlone ground.now.plan.now result member.new }
{
    let ops = ground.plan.ops.len();
    let mut row: u32 = 0;
    for turn in 0..most_turns(ops) {
        let found = take_turn(ground, told, turn, thieves, member);
        row = row_after(row, found);
        if row >= EMPTY_TURNS {
            return RunEnd::Drained;
        }
    }
    RunEnd::Spent
}
