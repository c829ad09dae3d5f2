//! The fold of batches as three applications make them, from all values 0: a ledger of accounts and assets, sums over
//! cells, and tolls for the vehicles of a segment.
use morph_base::plain::fold;
use morph_base::{Batch, FIRST_MAX, Func, Key, Layout, List, Op, OutOfMemory, Outcome, Values};
use std::alloc::Global;
use std::process::Abort;
use std::test::Fail;

/// What an event stands for in its application.
#[derive(Clone, Copy)]
enum Entry {
    /// Pays on an account and an asset these amounts.
    Deposit((u32, u32), (u64, u64)),
    /// Moves from an account and an asset to others these amounts.
    Transfer((u32, u32), (u32, u32), (u64, u64)),
    /// Gives a cell this value.
    Write(u32, u64),
    /// Gives a cell the sum of two others, if it is at most this limit.
    Gather(u32, u64, (u32, u32)),
    /// Reports a vehicle's segment and its speed, in miles per hour.
    Report(u32, u32, u8),
}

/// The operations of an entry.
fn ops_of(alloc: Global, entry: Entry) -> Result<List<Op>, OutOfMemory> {
    let key = Key::of;
    match entry {
        Entry::Deposit(to, amounts) => List::from_slice(
            alloc,
            &[
                Op::new(Func::Add, key(0, to.0), &[], amounts.0),
                Op::new(Func::Add, key(1, to.1), &[], amounts.1),
            ],
        ),
        Entry::Transfer(from, to, amounts) => List::from_slice(
            alloc,
            &[
                Op::new(Func::Sub, key(0, from.0), &[], amounts.0),
                Op::new(Func::Sub, key(1, from.1), &[], amounts.1),
                Op::new(Func::MoveIn, key(0, to.0), &[key(0, from.0)], amounts.0),
                Op::new(Func::MoveIn, key(1, to.1), &[key(1, from.1)], amounts.1),
            ],
        ),
        Entry::Write(cell, value) => {
            List::from_slice(alloc, &[Op::new(Func::Set, key(0, cell), &[], value)])
        }
        Entry::Gather(cell, limit, cells) => {
            let cells = [key(0, cells.0), key(0, cells.1)];
            List::from_slice(
                alloc,
                &[
                    Op::new(Func::Sum, key(0, cell), &cells, limit),
                    Op::new(Func::Keep, cells[0], &[], 0),
                    Op::new(Func::Keep, cells[1], &[], 0),
                ],
            )
        }
        Entry::Report(vehicle, segment, speed) => {
            let [spd, at, cnt, bill] = [
                key(0, segment),
                key(1, vehicle),
                key(2, segment),
                key(3, vehicle),
            ];
            let here = u64::from(segment) + 1;
            List::from_slice(
                alloc,
                &[
                    Op::new(Func::Blend, spd, &[], 100 * u64::from(speed)),
                    Op::new(Func::Set, at, &[], here),
                    Op::new(Func::Enter, cnt, &[at], here),
                    Op::new(Func::Charge, bill, &[spd, cnt], 1_000_000),
                ],
            )
        }
    }
}

/// A batch of entries, each with its time, in the given order of arrival or the reverse of it.
fn batch_of(alloc: Global, entries: &[(u64, Entry)], reverse: bool) -> Result<Batch, OutOfMemory> {
    let mut batch = Batch::new(alloc);
    for (i, entry) in entries.iter().enumerate() {
        let (ts, entry) = if reverse {
            entries[entries.len() - 1 - i]
        } else {
            *entry
        };
        batch.push(ts, ops_of(alloc, entry)?.as_slice())?;
    }
    Ok(batch)
}

/// Folds the entries into values that are all 0 before, and gives the fates of the events and the values after them.
fn run(
    rt: &impl Abort,
    alloc: Global,
    layout: Layout,
    entries: &[(u64, Entry)],
    reverse: bool,
) -> Result<(List<Outcome>, Values), OutOfMemory> {
    let batch = batch_of(alloc, entries, reverse)?;
    assert!(rt; batch.is_valid() && batch.has_keys_in(layout));
    let mut values = Values::new(alloc, layout)?;
    let outcomes = fold(alloc, &mut values, &batch)?;
    Ok((outcomes, values))
}

/// Whether an event at this time committed with these values of its targets, or aborted if none are given.
fn has_fate(outcome: &Outcome, ts: u64, after: &[u64]) -> bool {
    outcome.ts == ts
        && outcome.committed != after.is_empty()
        && (after.is_empty() || outcome.values.as_slice() == after)
}

/// The keys whose values are not 0, with these, in order.
fn kept(alloc: Global, values: &Values) -> Result<Vec<(u8, u32, u64)>, OutOfMemory> {
    let layout = values.layout();
    let mut kept = Vec::new(alloc);
    for table in 0..layout.tables {
        for id in 0..layout.size {
            let value = values.get(Key { table, id });
            if value != 0 {
                kept.push((table, id, value))?;
            }
        }
    }
    Ok(kept)
}

/// A batch, the fate of each event by rising time as [`has_fate`] has it, and the values after it that are not 0.
#[derive(Clone, Copy)]
struct Worked<'a> {
    name: &'a str,
    layout: Layout,
    entries: &'a [(u64, Entry)],
    fates: &'a [(u64, &'a [u64])],
    kept: &'a [(u8, u32, u64)],
}

/// Whether the events have the fates of a worked batch.
fn have_fates(outcomes: &[Outcome], fates: &[(u64, &[u64])]) -> bool {
    outcomes.len() == fates.len()
        && outcomes
            .iter()
            .zip(fates)
            .all(|(outcome, (ts, after))| has_fate(outcome, *ts, *after))
}

/// Runs a worked batch in order of arrival or in the reverse order, which gives the same: whether the fates and the
/// values after it are the worked ones.
fn comes_out(
    rt: &impl Abort,
    alloc: Global,
    worked: &Worked<'_>,
    reverse: bool,
) -> Result<(bool, bool), OutOfMemory> {
    let (outcomes, values) = run(rt, alloc, worked.layout, worked.entries, reverse)?;
    let kept = kept(alloc, &values)?;
    Ok((
        have_fates(outcomes.as_slice(), worked.fates),
        kept.as_slice() == worked.kept,
    ))
}

/// Runs worked batches in both orders of arrival.
fn check_all(rt: &impl Abort, alloc: Global, batches: &[Worked<'_>]) -> Result<(), OutOfMemory> {
    for worked in batches {
        let forward = comes_out(rt, alloc, worked, false)?;
        let reversed = comes_out(rt, alloc, worked, true)?;
        let want = ((true, true), (true, true));
        assert_eq!(rt; (forward, reversed), want, "{}", worked.name);
    }
    Ok(())
}

const LEDGER: Layout = Layout { tables: 2, size: 3 };

const CELLS: Layout = Layout { tables: 1, size: 3 };

const TOLLS: Layout = Layout { tables: 4, size: 4 };

static LEDGER_BATCHES: [Worked<'static>; 4] = [
    Worked {
        name: "a deposit",
        layout: LEDGER,
        entries: &[(1, Entry::Deposit((0, 0), (100, 5)))],
        fates: &[(1, &[100, 5])],
        kept: &[(0, 0, 100), (1, 0, 5)],
    },
    Worked {
        name: "a failed transfer leaves the balances",
        layout: LEDGER,
        entries: &[
            (1, Entry::Deposit((0, 0), (100, 5))),
            (2, Entry::Transfer((0, 0), (1, 1), (101, 1))),
        ],
        fates: &[(1, &[100, 5]), (2, &[])],
        kept: &[(0, 0, 100), (1, 0, 5)],
    },
    Worked {
        name: "a transfer after a failed one, and one that moves on what it brought",
        layout: LEDGER,
        entries: &[
            (1, Entry::Deposit((0, 0), (100, 5))),
            (2, Entry::Transfer((0, 0), (1, 1), (60, 6))),
            (3, Entry::Transfer((0, 0), (1, 1), (60, 5))),
            (4, Entry::Transfer((1, 1), (2, 2), (60, 5))),
        ],
        fates: &[
            (1, &[100, 5]),
            (2, &[]),
            (3, &[40, 0, 60, 5]),
            (4, &[0, 0, 60, 5]),
        ],
        kept: &[(0, 0, 40), (0, 2, 60), (1, 2, 5)],
    },
    Worked {
        name: "nothing goes above the greatest value",
        layout: LEDGER,
        entries: &[
            (1, Entry::Deposit((0, 0), (FIRST_MAX, 0))),
            (2, Entry::Deposit((0, 0), (1, 0))),
        ],
        fates: &[(1, &[FIRST_MAX, 0]), (2, &[])],
        kept: &[(0, 0, FIRST_MAX)],
    },
];

#[test]
fn ledger_batches(rt: HostRuntime) -> Result<(), Fail> {
    Ok(check_all(&rt, rt.alloc(), &LEDGER_BATCHES)?)
}

static CELL_AND_TOLL_BATCHES: [Worked<'static>; 3] = [
    Worked {
        name: "a sum of cells that were never written",
        layout: CELLS,
        entries: &[(1, Entry::Gather(0, 10, (1, 2)))],
        fates: &[(1, &[0, 0, 0])],
        kept: &[],
    },
    Worked {
        name: "a sum is at most its limit",
        layout: CELLS,
        entries: &[
            (1, Entry::Write(1, 6)),
            (2, Entry::Write(2, 4)),
            (3, Entry::Gather(0, 10, (1, 2))),
            (4, Entry::Gather(0, 9, (1, 2))),
        ],
        fates: &[(1, &[6]), (2, &[4]), (3, &[10, 6, 4]), (4, &[])],
        kept: &[(0, 0, 10), (0, 1, 6), (0, 2, 4)],
    },
    Worked {
        name: "speeds are averaged, and a vehicle that stays is counted once",
        layout: TOLLS,
        entries: &[
            (1, Entry::Report(3, 0, 10)),
            (2, Entry::Report(3, 0, 11)),
            (3, Entry::Report(3, 0, 11)),
            (4, Entry::Report(3, 0, 11)),
        ],
        fates: &[
            (1, &[1000, 1, 1, 0]),
            (2, &[1050, 1, 1, 0]),
            (3, &[1075, 1, 1, 0]),
            (4, &[1087, 1, 1, 0]),
        ],
        kept: &[(0, 0, 1087), (1, 3, 1), (2, 0, 1)],
    },
];

#[test]
fn cell_and_toll_batches(rt: HostRuntime) -> Result<(), Fail> {
    Ok(check_all(&rt, rt.alloc(), &CELL_AND_TOLL_BATCHES)?)
}

/// `count` vehicles, each reported once in one segment, all at 10 miles per hour.
fn run_reports(
    rt: &impl Abort,
    alloc: Global,
    count: u32,
) -> Result<(List<Outcome>, Values), Fail> {
    let mut entries = Vec::new(alloc);
    for vehicle in 0..count {
        let report = Entry::Report(vehicle, 0, 10);
        entries.push((u64::from(vehicle) + 1, report))?;
    }
    Ok(run(
        rt,
        alloc,
        Layout {
            tables: 4,
            size: count,
        },
        &entries,
        false,
    )?)
}

/// What the value of a key should be after 52 reports.
fn tolled(table: u8, id: u32) -> u64 {
    match (table, id) {
        (0, 0) => 1000,
        (1, _) => 1,
        (2, 0) => 52,
        (3, 51) => 2,
        _ => 0,
    }
}

/// Whether the values are for 52 vehicles, and each as after their reports.
fn are_tolled(values: &Values) -> bool {
    let layout = values.layout();
    for table in 0..layout.tables {
        for id in 0..layout.size {
            if values.get(Key { table, id }) != tolled(table, id) {
                return false;
            }
        }
    }
    layout
        == Layout {
            tables: 4,
            size: 52,
        }
}

/// Whether the outcomes at these places have these fates.
fn have_fates_at(outcomes: &[Outcome], fates: &[(usize, u64, &[u64])]) -> bool {
    fates.iter().all(|&(at, ts, after)| match outcomes.get(at) {
        Some(outcome) => has_fate(outcome, ts, after),
        None => false,
    })
}

/// How many of the events committed.
fn committed(outcomes: &[Outcome]) -> usize {
    outcomes.iter().filter(|outcome| outcome.committed).count()
}

/// The result of some reports: the number of outcomes and of those that committed, whether those at some places have
/// the given fates, and whether the values are those after 52 reports.
#[derive(Clone, Copy, Debug, PartialEq, Eq)]
struct Told {
    outcomes: usize,
    committed: usize,
    have_fates: bool,
    tolled: bool,
}

/// Runs some reports, and returns their result.
fn reported(
    rt: &impl Abort,
    alloc: Global,
    count: u32,
    fates: &[(usize, u64, &[u64])],
) -> Result<Told, Fail> {
    let (outcomes, values) = run_reports(rt, alloc, count)?;
    Ok(Told {
        outcomes: outcomes.len(),
        committed: committed(outcomes.as_slice()),
        have_fates: have_fates_at(outcomes.as_slice(), fates),
        tolled: are_tolled(&values),
    })
}

#[test]
fn tolls_from_the_fifty_first_vehicle_on(rt: HostRuntime) -> Result<(), Fail> {
    let fates: [(usize, u64, &[u64]); 2] = [
        (50, 51, &[1000, 1, 51, 0]),
        (51, 52, &[1000, 1, 52, 2]),
    ];
    let want = Told {
        outcomes: 52,
        committed: 52,
        have_fates: true,
        tolled: true,
    };
    assert_eq!(rt; reported(&rt, rt.alloc(), 52, &fates)?, want);
    Ok(())
}

#[test]
fn a_bill_is_at_most_its_limit(rt: HostRuntime) -> Result<(), Fail> {
    let fates: [(usize, u64, &[u64]); 2] = [(757, 758, &[1000, 1, 758, 999_698]), (758, 759, &[])];
    let want = Told {
        outcomes: 759,
        committed: 758,
        have_fates: true,
        tolled: false,
    };
    assert_eq!(rt; reported(&rt, rt.alloc(), 759, &fates)?, want);
    Ok(())
}
