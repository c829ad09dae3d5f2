use crate::four_events::plan;
use decision_model::{Last, Profile, choose, profile};
use morph_base::{Abort, Explore, Strategy, Unit};
use std::test::Fail;

/// The strategy for this many operations, levels, and temporal and parametric dependencies, if this many of 10 events
/// before aborted.
fn chosen(ops: u64, levels: u64, temporal: u64, parametric: u64, aborted: u64) -> Strategy {
    choose(&Profile {
        ops,
        levels,
        temporal,
        parametric,
        last: Last {
            events: 10,
            aborted,
        },
    })
}

#[test]
fn thresholds_belong_to_one_side(rt: HostRuntime) {
    let most = u64::MAX;
    let rows = [
        (
            (100, 3, 50, 25, 0),
            (Unit::Chain, Explore::Strata, Abort::Lazy),
        ),
        (
            (100, 4, 50, 25, 0),
            (Unit::Chain, Explore::Steal, Abort::Lazy),
        ),
        (
            (100, 3, 50, 26, 0),
            (Unit::Op, Explore::Strata, Abort::Lazy),
        ),
        (
            (101, 3, 50, 25, 1),
            (Unit::Op, Explore::Strata, Abort::Lazy),
        ),
        (
            (96, 3, 48, 24, 2),
            (Unit::Chain, Explore::Strata, Abort::Eager),
        ),
        (
            (most, most, most, most, most),
            (Unit::Op, Explore::Steal, Abort::Eager),
        ),
    ];
    for ((ops, levels, temporal, parametric, aborted), want) in rows {
        let got = chosen(ops, levels, temporal, parametric, aborted);
        assert_eq!(rt;
            (got.unit, got.explore, got.abort),
            want,
            "{ops} {levels} {aborted}"
        );
    }
}

#[test]
fn profile_of_four_events(rt: HostRuntime) -> Result<(), Fail> {
    let plan = plan(&rt, rt.alloc())?;
    let last = Last {
        events: 4,
        aborted: 1,
    };
    let got = profile(&plan, last);
    let want = Profile {
        ops: 14,
        levels: 4,
        temporal: 8,
        parametric: 6,
        last,
    };
    assert_eq!(rt; got, want);
    let first = profile(&plan, Last::default());
    let strategy = Strategy {
        unit: Unit::Op,
        explore: Explore::Steal,
        abort: Abort::Lazy,
    };
    assert_eq!(rt; choose(&first), strategy);
    Ok(())
}
