//! Runs whose journals are checked.
ghost use Rattle.std.specs.Prelude.{◌≡◌, IfOk, OnOk};
ghost use Rattle.morph_base.specs.declared.strategy.Abort.TheVariants.{Lazy};
ghost use Rattle.morph_base.specs.Flat.{contents};
ghost use Rattle.morph_base.specs.Graphs.{IsValidPlan};
ghost use Rattle.morph_base.specs.Plans.{HasBases, IsPlan, IsSettledOf, PlanKeysIn};
ghost use Rattle.morph_base.specs.Plans.{event_count, state_at};
ghost use Rattle.morph_engine.specs.Accounts.{account_of};
ghost use Rattle.morph_engine.specs.Ends.{IsEnd};
ghost use Rattle.morph_engine.specs.Runs.{IsJournalledRun, journal_room};
ghost use Rattle.morph_cli.specs.Tallies.{IsChecked};

use crate::job::Host;
use morph_base::{OutOfMemory, Plan, Strategy};
use morph_engine::{BatchEnd, Engine};
use run_checker::{Checked, check};
use run_text::is_cut;
use std::alloc::Global;
use std::thread::Threads;

/// Runs a plan by one worker who keeps a journal, and checks it. If memory is refused to check it, the engine has run
/// the batch all the same.
pub fn run_checked<R: Threads + Sync, G>(
    host: &Host<'_, R, G>,
    engine: &mut Engine,
    plan: Plan,
    strategy: &Strategy,
) -> Result<BatchEnd, OutOfMemory>
    requires plan { IsValidPlan plan }
    requires bases { HasBases plan (contents engine.old) }
    requires keys { PlanKeysIn plan engine.old.layout }
    requires lazy { strategy.now.abort ≡ Lazy }
    ensures state { OnOk result
        (contents engine.new ≡ state_at plan (contents engine.old) (event_count plan)) }
    ensures layout { engine.new.layout ≡ engine.old.layout }
    ensures ended { IfOk result (IsEnd plan strategy.now 1 (contents engine.old)) }
    ensures checked { IfOk result (λ end. IsChecked (account_of end)) }
{
    let end = engine.run_kept(host.rt, host.alloc, plan, strategy)?;
    confirm(host.alloc, &end)?;
    Ok(end)
}

/// Checks the journal of a run, if it is not cut off. The machine takes it, and it settles what was settled.
fn confirm(alloc: Global, end: &BatchEnd) -> Result<(), OutOfMemory>
    requires plan { IsPlan end.now.plan }
    requires settled { IsSettledOf end.now.plan end.now.settled }
    requires kept { IsJournalledRun end.now.plan Lazy (journal_room end.now.plan) end.now.closed }
    ensures checked { OnOk result (IsChecked (account_of end.now)) }
{
    let journal = end.closed.journal();
    if is_cut(&end.plan, journal) {
        return Ok(());
    }
    match check(alloc, &end.plan, 1, journal, &end.settled)? {
        Checked::Yes => Ok(()),
        _ => unreachable!(),
    }
}
