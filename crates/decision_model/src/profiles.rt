ghost use Rattle.std.specs.Prelude.{◌≡◌};
ghost use Rattle.morph_base.specs.Graphs.{IsValidPlan};
ghost use Rattle.decision_model.specs.Choices.{profile_of};

use crate::counts::{Last, Profile};
use morph_base::Plan;

/// The counts of a valid plan, with how the batch before went.
pub fn profile(plan: &Plan, last: Last) -> Profile
    requires { IsValidPlan plan.now }
    ensures { result ≡ profile_of plan.now last }
{
    Profile {
        ops: plan.ops.len() as u64,
        levels: plan.op_levels.len() as u64,
        temporal: plan.edges.temporal,
        parametric: plan.edges.parametric,
        last,
    }
}
