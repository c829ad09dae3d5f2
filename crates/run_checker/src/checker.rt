ghost use Rattle.std.specs.Prelude.{◌≡◌, ◌<◌, length, IfOk};
ghost use Rattle.morph_base.specs.Limits.{most_attempts};
ghost use Rattle.morph_base.specs.Plans.{IsPlan, op_count};
ghost use Rattle.run_checker.specs.Answers.{Answers};

use crate::checked::Checked;
use crate::replay::{first_unlike, first_unsettled, replay};
use interleaving_core::{CoreEvent, CoreState};
use morph_base::{OutOfMemory, Plan, Settled};
use std::alloc::Global;

/// Replays the journal of a run of the plan on the machine, and compares what it settles with the values that the run
/// settled, one for each operation. Operations have at most `cap` + 1 attempts.
///
/// It trusts nothing of the journal, however it was made. It takes memory only for the machine, once.
pub fn check(
    alloc: Global,
    plan: &Plan,
    cap: u8,
    journal: &[CoreEvent],
    settled: &Settled,
) -> Result<Checked, OutOfMemory>
    requires plan { IsPlan plan.now }
    requires cap { cap < most_attempts }
    requires values { length settled.now.values.items ≡ op_count plan.now }
    ensures answer { IfOk result (Answers plan.now cap journal.now settled.now.values.items) }
{
    let mut state = CoreState::new(alloc, plan, cap)?;
    if let Some(before) = replay(&mut state, plan, journal) {
        return Ok(Checked::Broken {
            at: before as u64 + 1,
        });
    }
    if let Some(op) = first_unsettled(&state, plan) {
        return Ok(Checked::Unsettled { op });
    }
    match first_unlike(&state, plan, settled.values.as_slice()) {
        Some((op, journal, run)) => Ok(Checked::Differs { op, journal, run }),
        None => Ok(Checked::Yes),
    }
}
