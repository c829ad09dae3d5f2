//! What viewers see of the balances before and after the four events are published.
ghost use Rattle.std.specs.Prelude.{◌≡◌, [], IfOk};
ghost use Rattle.morph_base.specs.Plans.{IsPlan, HasBases, IsSettledOf, PlanKeysIn};
ghost use Rattle.morph_base.specs.States.{opening_state};

use crate::finishing::completed;
use crate::four_events::{ACCOUNTS, ASSETS, LAYOUT, plan};
use morph_base::{Key, OutOfMemory, Plan, Settled};
use snapshot_reader::{At, Publisher, Total, Viewer, snapshots};
use std::alloc::Global;
use std::process::Abort;
use std::sync::Wait;
use std::test::Fail;
use std::thread::{Threads, join_mut};

/// The four events, settled from the opening state.
fn settled_four(rt: &impl Abort, alloc: Global) -> Result<(Plan, Settled), OutOfMemory>
    ensures plan { IfOk result (λ made. IsPlan made.0) }
    ensures keys { IfOk result (λ made. PlanKeysIn made.0 LAYOUT) }
    ensures bases { IfOk result (λ made. HasBases made.0 opening_state) }
    ensures settled { IfOk result (λ made. IsSettledOf made.0 made.1) }
{
    let plan = plan(rt, alloc)?;
    let settled = completed(alloc, &plan)?;
    Ok((plan, settled))
}

/// Publishes the four events as the first batch.
fn publish_four<R: Wait + Abort>(
    rt: &R,
    alloc: Global,
    publisher: &mut Publisher,
) -> Result<u64, OutOfMemory>
    requires layout { publisher.old.layout ≡ LAYOUT }
    requires none { publisher.old.plans ≡ [] }
{
    let (plan, settled) = settled_four(rt, alloc)?;
    publisher.publish(rt, alloc, &plan, &settled)
}

/// What a viewer sees of account 0, and of the sums of both tables. It looks at one of them in a thread of its own.
fn look<R: Threads>(rt: &R, viewer: &mut Viewer) -> (Option<At>, [Option<Total>; 2]) {
    let account = viewer.value(Key::of(ACCOUNTS, 0));
    let accounts = viewer.total(ACCOUNTS);
    let mut assets = None;
    join_mut(rt, &mut || assets = viewer.total(ASSETS), &mut || {});
    (account, [accounts, assets])
}

/// What is seen after this many batches, if account 0 and the tables have these values.
fn seen(number: u64, account: u64, totals: [u64; 2]) -> (Option<At>, [Option<Total>; 2]) {
    let value = At {
        number,
        value: account,
    };
    let totals = totals.map(|total| Some(Total { number, total }));
    (Some(value), totals)
}

#[test]
fn viewers_see_whole_batches(rt: HostRuntime) -> Result<(), Fail> {
    let alloc = rt.alloc();
    let (mut publisher, mut viewers) = snapshots(alloc, LAYOUT, 3)?;
    let before = viewers.pop().map(|mut viewer| look(&rt, &mut viewer));
    let published = publish_four(&rt, alloc, &mut publisher);
    let after = viewers.pop().map(|mut viewer| {
        publisher.tell(&mut viewer);
        look(&rt, &mut viewer)
    });
    let untold = viewers.pop().map(|mut viewer| look(&rt, &mut viewer));
    publisher.end(&rt);
    assert_eq!(rt; published?, 1);
    assert_eq!(rt; before, Some(seen(0, 0, [0, 0])));
    assert_eq!(rt; after, Some(seen(1, 40, [100, 5])));
    // Nobody told this viewer of the batch, so it may see either state.
    let is_either = untold == Some(seen(0, 0, [0, 0])) || untold == Some(seen(1, 40, [100, 5]));
    assert!(rt; is_either);
    Ok(())
}
