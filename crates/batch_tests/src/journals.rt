//! Journals of runs, and what the checker says if something in one was changed.
ghost use Rattle.morph_base.specs.Plans.{IsPlan};
ghost use Rattle.morph_base.specs.Transactions.{IsBatch, BatchKeysIn};

use crate::four_events::{LAYOUT, batch_of, plan_at};
use interleaving_core::CoreEvent;
use morph_base::{Abort, Batch, Explore, List, OutOfMemory, Plan, Settled, Strategy, Unit};
use morph_engine::Engine;
use run_checker::{Checked, check, read_journal};
use std::alloc::Global;
use std::test::Fail;
use std::thread::Threads;

/// The steps by which one worker settles the deposit of 100 and 5.
const JOURNAL: &[u8] =
    b"R 0\nC 0 1\nF 0 0 1 0\nN 0 1\nR 1\nC 1 1\nF 1 0 1 0\nN 1 1\nD 0 c\nT 0 1\nT 1 1\n";

/// What the checker says of the journal without the event at a place, beside these values. If the journal has no event
/// there, it is the whole one.
fn said(
    alloc: Global,
    plan: &Plan,
    journal: &[CoreEvent],
    without: usize,
    values: &[u64],
) -> Result<Option<Checked>, OutOfMemory>
    requires plan { IsPlan plan.now }
{
    let mut events = List::new(alloc);
    for (place, event) in journal.iter().enumerate() {
        if place != without {
            events.push(*event)?;
        }
    }
    let settled = Settled {
        values: List::from_slice(alloc, values)?,
        committed: List::new(alloc),
        by: List::new(alloc),
    };
    if settled.values.len() != plan.ops.len() {
        return Ok(None);
    }
    let said = check(alloc, plan, 1, events.as_slice(), &settled)?;
    Ok(Some(said))
}

#[test]
fn a_changed_journal_is_found_out(rt: HostRuntime) -> Result<(), Fail> {
    let alloc = rt.alloc();
    let plan = plan_at(&rt, alloc, &[1])?;
    let events = read_journal(alloc, JOURNAL)?;
    let rows = [
        (11, [100, 5], Checked::Yes),
        (1, [100, 5], Checked::Broken { at: 2 }),
        (10, [100, 5], Checked::Unsettled { op: 1 }),
        (
            11,
            [100, 6],
            Checked::Differs {
                op: 1,
                journal: 5,
                run: 6,
            },
        ),
    ];
    for (without, values, answer) in rows {
        let said = said(alloc, &plan, events.as_slice(), without, &values)?;
        assert_eq!(rt; said, Some(answer));
    }
    Ok(())
}

/// The journal of a run of a batch by one worker, and what the checker says of it.
fn kept<R: Threads + Sync>(
    rt: &R,
    alloc: Global,
    batch: Batch,
    strategy: Strategy,
) -> Result<(List<CoreEvent>, Checked), OutOfMemory>
    requires batch { IsBatch batch }
    requires keys { BatchKeysIn LAYOUT batch }
{
    let mut engine = Engine::new(alloc, LAYOUT)?;
    let plan = engine.plan(alloc, batch)?;
    let end = engine.run_kept(rt, alloc, plan, &strategy)?;
    let cap = match strategy.abort {
        Abort::Lazy => 1,
        Abort::Eager => 7,
    };
    let journal = List::from_slice(alloc, end.closed.journal())?;
    let said = check(alloc, &end.plan, cap, journal.as_slice(), &end.settled)?;
    Ok((journal, said))
}

#[test]
fn a_kept_run_of_a_deposit_writes_its_steps_down(rt: HostRuntime) -> Result<(), Fail> {
    let alloc = rt.alloc();
    let batch = batch_of(alloc, &[1])?;
    assert!(rt; batch.is_valid() && batch.has_keys_in(LAYOUT));
    let strategy = Strategy {
        unit: Unit::Op,
        explore: Explore::Strata,
        abort: Abort::Lazy,
    };
    let (journal, said) = kept(&rt, alloc, batch, strategy)?;
    let steps = read_journal(alloc, JOURNAL)?;
    assert_eq!(rt;
        (journal.as_slice(), said),
        (steps.as_slice(), Checked::Yes)
    );
    Ok(())
}

#[test]
fn kept_runs_of_the_four_events_are_right(rt: HostRuntime) -> Result<(), Fail> {
    let alloc = rt.alloc();
    for explore in [Explore::Strata, Explore::Steal] {
        for abort in [Abort::Lazy, Abort::Eager] {
            let strategy = Strategy {
                unit: Unit::Op,
                explore,
                abort,
            };
            let batch = batch_of(alloc, &[1, 2, 3, 4])?;
            assert!(rt; batch.is_valid() && batch.has_keys_in(LAYOUT));
            let (_, said) = kept(&rt, alloc, batch, strategy)?;
            assert_eq!(rt; said, Checked::Yes);
        }
    }
    Ok(())
}
