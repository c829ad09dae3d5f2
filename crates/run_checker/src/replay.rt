ghost use Rattle.std.specs.Prelude.{◌≡◌, ◌+◌, ◌<◌, length, IfSome, IfNone};
ghost use Rattle.morph_base.specs.Plans.{IsPlan, op_count};
ghost use Rattle.interleaving_core.specs.Core.{start};
ghost use Rattle.interleaving_core.specs.Orders.{Leads};
ghost use Rattle.interleaving_core.specs.Stored.{core_of, cap_of, IsStateOf};
ghost use Rattle.run_checker.specs.Replay.{IsBrokenAt, AllSettled};
ghost use Rattle.run_checker.specs.Answers.{IsFirstUnsettled, IsFirstUnlike, AllLike};

use interleaving_core::{CoreEvent, CoreState, Step};
use morph_base::Plan;

/// Replays a journal up to the first event that the machine does not take, and gives the number of events before it.
pub fn replay(state: &mut CoreState, plan: &Plan, journal: &[CoreEvent]) -> Option<usize>
    requires plan { IsPlan plan.now }
    requires state { IsStateOf plan.now state.old }
    requires start { core_of state.old ≡ start }
    ensures broken { IfSome result
        (λ n. IsBrokenAt plan.now (cap_of state.old) journal.now (n + 1)) }
    ensures leads { IfNone result
        (Leads plan.now (cap_of state.old) start journal.now (core_of state.new)) }
    ensures state { IsStateOf plan.now state.new }
{
    for n in 0..journal.len() {
        match state.step(plan, &journal[n]) {
            Step::Taken => {}
            Step::Refused => return Some(n),
        }
    }
    None
}

/// The least operation that is not settled.
pub fn first_unsettled(state: &CoreState, plan: &Plan) -> Option<u32>
    requires plan { IsPlan plan.now }
    requires state { IsStateOf plan.now state.now }
    ensures some { IfSome result (IsFirstUnsettled plan.now (core_of state.now)) }
    ensures none { IfNone result (AllSettled plan.now (core_of state.now)) }
{
    let count = plan.ops.len() as u32;
    for op in 0..count {
        if !state.word(op).state.is_settled() {
            return Some(op);
        }
    }
    None
}

/// The least operation whose value is not the run's, with both values.
pub fn first_unlike(state: &CoreState, plan: &Plan, values: &[u64]) -> Option<(u32, u64, u64)>
    requires plan { IsPlan plan.now }
    requires state { IsStateOf plan.now state.now }
    requires values { length values.now ≡ op_count plan.now }
    ensures some { IfSome result
        (λ r. IsFirstUnlike plan.now (core_of state.now) values.now r.0 r.1 r.2) }
    ensures none { IfNone result (AllLike plan.now (core_of state.now) values.now) }
{
    let count = plan.ops.len() as u32;
    for op in 0..count {
        let (journal, run) = (state.word(op).value, values[op as usize]);
        if journal != run {
            return Some((op, journal, run));
        }
    }
    None
}
