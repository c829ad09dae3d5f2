//! The strategy of each batch.
ghost use Rattle.std.specs.Prelude.{◌≡◌};
ghost use Rattle.morph_base.specs.Graphs.{IsValidPlan};
ghost use Rattle.morph_base.specs.Plans.{IsPlan, IsSettledOf};
ghost use Rattle.morph_engine.specs.Accounts.{account_of};
ghost use Rattle.morph_engine.specs.Fates.{settled_fates};
ghost use Rattle.run_text.specs.Counts.{CountsBatch, HasRoom};
ghost use Rattle.morph_cli.specs.Strategies.{strategy_by};
ghost use Rattle.decision_model.specs.Choices.{last_of};

use decision_model::{Last, choose, profile};
use morph_base::{Plan, Strategy};
use morph_engine::BatchEnd;
use run_text::{Planning, Tally};

/// The strategy for a batch: the one that was asked for, or the one that its plan and the outcome of the batch before
/// call for.
pub fn strategy_for(planning: Planning, plan: &Plan, last: Last) -> Strategy
    requires { IsValidPlan plan.now }
    ensures { result ≡ strategy_by planning plan.now last }
{
    match planning {
        Planning::Fixed(strategy) => strategy,
        Planning::Auto => choose(&profile(plan, last)),
    }
}

/// Counts a batch that was run, and returns its outcome.
pub fn count(tally: &mut Tally, end: &BatchEnd) -> Last
    requires plan { IsPlan end.now.plan }
    requires settled { IsSettledOf end.now.plan end.now.settled }
    requires room { HasRoom tally.old (account_of end.now) }
    ensures adds { CountsBatch tally.old tally.new (account_of end.now)
        (settled_fates end.now.plan end.now.settled) }
    ensures last { result ≡ last_of (settled_fates end.now.plan end.now.settled) }
{
    let events = tally.events;
    let aborted = tally.aborted;
    tally.add(end);
    Last {
        events: tally.events - events,
        aborted: tally.aborted - aborted,
    }
}
