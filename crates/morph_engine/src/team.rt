//! How many of the workers take part in a batch.
ghost use Rattle.std.specs.Prelude.{◌≤◌};
ghost use Rattle.morph_base.specs.Limits.{most_workers};
ghost use Rattle.morph_engine.specs.Teams.{IsTeam};

use morph_base::Plan;

/// For how many operations a batch has one worker. Fewer of them are not worth a thread, however they are explored
/// ([`steal_explorer::pieces`], [`worker_gate::threads_for`]).
const TEAM_OPS: usize = 8_192;

/// How many of the workers take part in a batch: all of them if they are to work side by side, or else as many as it
/// has work for.
///
/// Each worker who takes part has a hand on the board, and room for why it left events. In a batch of a few events
/// that would take as long as to run it.
pub(crate) fn team_for(plan: &Plan, workers: u32, side_by_side: bool) -> u32
    requires some { 1 ≤ workers }
    requires few { workers ≤ most_workers }
    ensures { IsTeam plan.now workers result }
{
    if side_by_side {
        return workers;
    }
    (plan.ops.len() / TEAM_OPS).min(workers as usize).max(1) as u32
}
