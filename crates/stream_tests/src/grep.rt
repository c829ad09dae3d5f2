use crate::app_lines::{check_drawn, check_refused, told};
use event_reader::{Cause, Version};
use grep_app::{CELLS, Grep};
use morph_base::{Func, Key, Op};

fn cell(id: u32) -> Key {
    Key::of(CELLS, id)
}

fn keep(id: u32) -> Op {
    Op::new(Func::Keep, cell(id), &[], 0)
}

#[test]
fn lines_say_their_operations(rt: HostRuntime) {
    let set = [Op::new(Func::Set, cell(9), &[], 6)];
    let one = [Op::new(Func::Sum, cell(0), &[cell(1)], 10), keep(1)];
    let two = [
        Op::new(Func::Sum, cell(0), &[cell(2), cell(1)], 9),
        keep(2),
        keep(1),
    ];
    let three = [
        Op::new(Func::Sum, cell(9), &[cell(1), cell(0), cell(8)], 0),
        keep(1),
        keep(0),
        keep(8),
    ];
    let rows: [(&[u8], u64, &[Op]); 4] = [
        (b"W 1 9 6", 1, &set),
        (b"G 2 0 10 1", 2, &one),
        (b"G 3 0 9 2 1", 3, &two),
        (b"G 1000000000000 9 0 1 0 8", 1_000_000_000_000, &three),
    ];
    for (line, ts, ops) in rows {
        assert_eq!(rt;
            told(rt.alloc(), &Grep, line, 10, Version::One, ops),
            Some((ts, ops.len(), true)),
            "at {line:?}"
        );
    }
}

/// In version 2 a value and a limit may be up to 10^13.
#[test]
fn values_are_greater_in_version_2(rt: HostRuntime) {
    let high = Version::Two.greatest();
    let set = [Op::new(Func::Set, cell(9), &[], high).limited(0, high)];
    let sum = [
        Op::new(Func::Sum, cell(0), &[cell(1)], high).limited(0, high),
        keep(1).limited(0, high),
    ];
    let rows: [(&[u8], u64, &[Op]); 2] = [
        (b"W 1 9 10000000000000", 1, &set),
        (b"G 2 0 10000000000000 1", 2, &sum),
    ];
    for (line, ts, ops) in rows {
        assert_eq!(rt;
            told(rt.alloc(), &Grep, line, 10, Version::Two, ops),
            Some((ts, ops.len(), true)),
            "at {line:?}"
        );
    }
}

/// In version 2 a line sums up to seven cells, in version 1 up to three.
#[test]
fn seven_cells_are_summed_in_version_2(rt: HostRuntime) {
    let high = Version::Two.greatest();
    let others = [1, 2, 3, 4, 5, 6, 7].map(cell);
    let kept = |id| keep(id).limited(0, high);
    let sum = Op::new(Func::Sum, cell(0), &others, 10).limited(0, high);
    let ops = [
        sum,
        kept(1),
        kept(2),
        kept(3),
        kept(4),
        kept(5),
        kept(6),
        kept(7),
    ];
    assert_eq!(rt;
        told(
            rt.alloc(),
            &Grep,
            b"G 2 0 10 1 2 3 4 5 6 7",
            10,
            Version::Two,
            &ops
        ),
        Some((2, 8, true))
    );
}

/// Lines for 10 cells, their version, and why they are refused.
static REFUSED: [(&[u8], Version, Cause); 24] = [
    (b"W 1 2", Version::One, Cause::Form),
    (b"W 1 2 3 4", Version::One, Cause::Form),
    (b"G 1 2 3", Version::One, Cause::Form),
    (b"G 1 2 3 4 5 6 7", Version::One, Cause::Form),
    (b"D 1 0 0 1 1", Version::One, Cause::Form),
    (b"W 0 x 3", Version::One, Cause::Form),
    (b"G 0 1 10 01", Version::One, Cause::Form),
    (b"W 0 1 1", Version::One, Cause::Range),
    (b"W 1 10 1", Version::One, Cause::Range),
    (b"W 1 1 1000000000001", Version::One, Cause::Range),
    (b"W 1 9 10000000000000", Version::One, Cause::Range),
    (b"G 1 0 1000000000001 0", Version::One, Cause::Range),
    (b"G 2 0 10000000000000 1", Version::One, Cause::Range),
    (b"G 1 1 10 1 2 10", Version::One, Cause::Range),
    (b"G 1 0 10 0", Version::One, Cause::Same),
    (b"G 1 0 10 1 0", Version::One, Cause::Same),
    (b"G 1 0 10 1 1", Version::One, Cause::Same),
    (b"G 1 0 10 1 2 0", Version::One, Cause::Same),
    (b"G 1 0 10 1 2 1", Version::One, Cause::Same),
    (b"G 1 0 10 1 2 2", Version::One, Cause::Same),
    (b"G 2 0 10 1 2 3 4", Version::One, Cause::Form),
    (b"G 2 0 10 1 2 3 4 5 6 7 8", Version::Two, Cause::Form),
    (b"G 2 0 10 1 2 3 4 5 6 1", Version::Two, Cause::Same),
    (b"G 2 0 10 1 2 3 4 5 6 10", Version::Two, Cause::Range),
];

#[test]
fn causes_come_in_their_order(rt: HostRuntime) {
    check_refused(&rt, rt.alloc(), &Grep, 10, &REFUSED);
}

/// A seed, how many cells there are, and the first two lines of the text.
static DRAWN: [(u64, u32, &[u8], &[u8]); 5] = [
    (
        0,
        10_000,
        b"G 1 6424 1236 6425 6426",
        b"G 2 6891 3975 6892 6893 6894",
    ),
    (0, 3, b"W 1 0 937", b"W 2 2 891"),
    (3, 4, b"G 1 3 138 0 1 2", b"W 2 3 375"),
    (6, 4, b"G 1 2 3039 3", b"W 2 3 566"),
    (7, 10_000, b"W 1 3231 753", b"G 2 5545 1864 5546 5547 5548"),
];

#[test]
fn lines_are_generated_by_draws_in_order(rt: HostRuntime) {
    check_drawn(&rt, &Grep, &DRAWN);
}
