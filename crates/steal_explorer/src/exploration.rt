ghost use Rattle.std.specs.Prelude.{◌≡◌, ◌≢◌, ◌↔◌, true, ℕ, ◌+◌, ◌<◌, ◌≤◌, [], All, Contains, length, sum_by};
ghost use Rattle.chain_units.specs.Places.{IsPartition};
ghost use Rattle.morph_base.specs.declared.strategy.Abort.TheVariants.{Lazy};
ghost use Rattle.morph_base.specs.Graphs.{IsValidPlan};
ghost use Rattle.morph_base.specs.Readers.{dependents_of};
ghost use Rattle.morph_base.specs.Plans.{op_count};
ghost use Rattle.op_words.specs.Hands.{plan_of, cap_of, up_to};
ghost use Rattle.op_eval.specs.declared.explored.RunEnd.TheVariants.{Drained, Spent};
ghost use Rattle.op_eval.specs.Alone.{IsNewRoot};
ghost use Rattle.op_eval.specs.Further.{HaveGoneOn};
ghost use Rattle.op_eval.specs.Exploring.{MayExplore, IsExploredBoard, parts_of, rules_on};
ghost use Rattle.op_eval.specs.Gathering.{runners_of, spare};
ghost use Rattle.steal_explorer.specs.Alone.{IsHandedAlone};
ghost use Rattle.steal_explorer.specs.Handed.{workers_of, pushed_by, AreReached, AreAnswered, HasTurns};
ghost use Rattle.steal_explorer.specs.Handed.{pushed_of, taken_of, stolen_of, unserved_of};
ghost use Rattle.steal_explorer.specs.Seating.{AreReady};

use crate::deques::Deques;
use crate::job::hand_out;
use crate::member::Member;
use crate::seats::{seat_all, unseat_all};
use abort_eager::Ground;
use chain_units::Units;
use morph_base::{Abort, List, Plan, Rows};
use op_eval::{Explored, RunEnd, Runners};
use op_words::Board;
use std::snapshot::Snapshot;
use std::thread::Threads;
use worker_gate::Gate;

/// What was handed out by deques. Contracts see which items were pushed, which were taken, by steals or not, and which
/// were left with nobody.
#[derive(Drop)]
pub struct Handed {
    /// How many pushes succeeded, the dealt ones included, up to the greatest u64.
    pub handed: u64,
    /// How many items were taken by steals, up to the greatest u64.
    pub stolen: u64,
    workers: Snapshot<List<Member>>,
}

/// How many pushes of a worker succeeded, as it counted them.
fn handed_by(member: &Member) -> u64
    ensures { result ≡ member.now.handed }
{
    member.handed
}

/// How many pushes of all workers succeeded.
fn count_handed(members: &[Member]) -> u64
    requires { All (λ m. m.handed ≡ up_to (length (pushed_by m))) members.now }
    ensures { result ≡ up_to (sum_by (λ m. length (pushed_by m)) members.now) }
{
    let mut total = 0u64;
    for k in 0..members.len() {
        total = total.saturating_add(handed_by(&members[k]));
    }
    total
}

/// How many items a worker got by steals, as it counted them.
fn stolen_by(member: &Member) -> u64
    ensures { result ≡ member.now.stolen }
{
    member.stolen
}

/// How many items all workers got by steals.
fn count_stolen(members: &[Member]) -> u64
    ensures { result ≡ up_to (sum_by (λ m. m.stolen) members.now) }
{
    let mut total = 0u64;
    for k in 0..members.len() {
        total = total.saturating_add(stolen_by(&members[k]));
    }
    total
}

impl Handed {
    /// What these workers have handed out. Their deques are empty.
    fn of(members: &List<Member>) -> Handed
        requires { All (λ m. m.handed ≡ up_to (length (pushed_by m))) members.now.items }
        ensures workers { workers_of result ≡ members.now.items }
        ensures handed { result.handed
            ≡ up_to (sum_by (λ m. length (pushed_by m)) members.now.items) }
        ensures stolen { result.stolen ≡ up_to (sum_by (λ m. m.stolen) members.now.items) }
    {
        Handed {
            handed: count_handed(members.as_slice()),
            stolen: count_stolen(members.as_slice()),
            workers: Snapshot::of(members),
        }
    }
}

/// Whether a worker ended because it found nothing more.
fn is_drained(member: &Member) -> bool
    ensures drained { result ≡ true → member.now.end ≡ Drained }
    ensures all { member.now.end ≡ Drained → result ≡ true }
{
    match member.end {
        RunEnd::Drained => true,
        RunEnd::Spent => false,
        RunEnd::Whole => false,
    }
}

/// Returns Drained if every worker was, else Spent.
fn end_of(members: &[Member]) -> RunEnd
    ensures drained { result ≡ Drained → All (λ m. m.end ≡ Drained) members.now }
    ensures all { All (λ m. m.end ≡ Drained) members.now → result ≡ Drained }
    ensures spent { result ≢ Drained → result ≡ Spent }
{
    for k in 0..members.len() {
        if !is_drained(&members[k]) {
            return RunEnd::Spent;
        }
    }
    RunEnd::Drained
}

/// Explores a batch by deques of items, one worker for each runner. The dependents are the plan's.
///
/// What was handed out is balanced: each item was pushed as often as it was taken or left unserved. If the end is
/// [`RunEnd::Drained`], nothing is unserved. Each item that was taken is an operation of the plan, and was reached in a
/// runner's trail. The runners have at least as many answers, up to the greatest u64. The call counts how many items
/// were pushed, and how many stolen. Its contract has the turns of each worker, one by one, and why the worker ended.
/// Nothing is settled on the way, no number is taken from a counter, and the call takes no memory.
///
/// Under eager abort a worker runs the cascade of an operation to its end after each evaluation that failed, or that
/// was a second or later attempt. It asks each operation that it rolled back, and pushes it, to be evaluated again, if
/// that made it ready.
///
/// One worker steals nothing. Under lazy abort a root alone pushes each operation once, runs it at attempt 1, and ends
/// with [`RunEnd::Drained`]. No push is refused.
pub fn explore<R: Threads + Sync, G: Gate>(
    rt: &R,
    board: Board,
    runners: Runners,
    deques: Deques,
    plan: &Plan,
    units: &Units,
    abort: Abort,
    dependents: &Rows,
    gate: &G,
) -> (Explored, Handed)
    requires valid { IsValidPlan plan.now }
    requires dependents { dependents.now ≡ dependents_of plan.now }
    requires plan { plan.now ≡ plan_of board }
    requires units { IsPartition units.now.units (op_count plan.now) }
    requires number { units.now.ops ≡ op_count plan.now }
    requires ready { MayExplore board 0 runners }
    requires deques { AreReady plan.now deques }
    requires workers { length (runners_of runners) ≡ length deques.seats.items }
    ensures explored { IsExploredBoard result.0 }
    ensures board { (parts_of result.0).0 ≡ board }
    ensures hands { HaveGoneOn (runners_of runners) (runners_of (parts_of result.0).1) }
    ensures spare { spare (parts_of result.0).1 ≡ spare runners }
    ensures next_counter { (parts_of result.0).3 ≡ 0 }
    ensures turns { HasTurns (rules_on board plan.now units.now.units abort) deques
        (runners_of runners) result.1 }
    ensures end { (parts_of result.0).2 ≢ Drained → (parts_of result.0).2 ≡ Spent }
    ensures ended { ((parts_of result.0).2 ≡ Drained)
        ↔ All (λ m. m.end ≡ Drained) (workers_of result.1) }
    ensures inside { (x : ℕ) → Contains (taken_of result.1) x → x < op_count plan.now }
    ensures handed { result.1.handed ≡ up_to (length (pushed_of result.1)) }
    ensures stolen { result.1.stolen ≡ up_to (length (stolen_of result.1)) }
    ensures balance { (h : ℕ → ℕ) → sum_by h (pushed_of result.1)
        ≡ sum_by h (taken_of result.1) + sum_by h (unserved_of result.1) }
    ensures drained { (parts_of result.0).2 ≡ Drained → unserved_of result.1 ≡ [] }
    ensures reached { AreReached plan.now (taken_of result.1) (runners_of (parts_of result.0).1) }
    ensures answers { AreAnswered (taken_of result.1) (runners_of (parts_of result.0).1) }
    ensures unstolen { length (runners_of runners) ≡ 1 → stolen_of result.1 ≡ [] }
    ensures alone { abort ≡ Lazy → 1 ≤ cap_of board → IsNewRoot (runners_of runners)
        → IsHandedAlone plan.now (parts_of result.0).2 result.1 (runners_of (parts_of result.0).1) }
{
    let mut runners = runners;
    let Deques {
        mut seats,
        thieves,
        mut members,
    } = deques;
    seat_all(&mut runners, &mut seats, &mut members);
    let ground = Ground {
        board: &board,
        plan,
        units,
        abort,
        dependents,
    };
    hand_out(
        rt,
        &ground,
        gate,
        thieves.as_slice(),
        members.as_mut_slice(),
    );
    let end = end_of(members.as_slice());
    let handed = Handed::of(&members);
    unseat_all(&mut members, &mut runners);
    (Explored::new(board, runners, end, 0), handed)
}
