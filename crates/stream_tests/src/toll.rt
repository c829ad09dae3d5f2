use crate::app_lines::{check_drawn, check_refused, told};
use event_reader::{Cause, EventApp, Version};
use morph_base::{Func, Key, Op};
use toll_app::{BILLS, COUNTS, PLACES, SPEEDS, Toll};

/// The operations of a report: the average speed in hundredths, the place and the entry, and the toll on the bill.
fn report(vehicle: u32, segment: u32, hundredths: u64, place: u64) -> [Op; 4] {
    let average = Key::of(SPEEDS, segment);
    let count = Key::of(COUNTS, segment);
    let at = Key::of(PLACES, vehicle);
    let bill = Key::of(BILLS, vehicle);
    [
        Op::new(Func::Blend, average, &[], hundredths),
        Op::new(Func::Set, at, &[], place),
        Op::new(Func::Enter, count, &[at], place),
        Op::new(Func::Charge, bill, &[average, count], 1_000_000),
    ]
}

/// A line, its timestamp, the vehicle, the segment, the speed in hundredths, and the place.
static REPORTS: [(&[u8], u64, u32, u32, u64, u64); 3] = [
    (b"T 1 3 0 10", 1, 3, 0, 1_000, 1),
    (b"T 7 9 9 0", 7, 9, 9, 0, 10),
    (
        b"T 1000000000000 0 5 100",
        1_000_000_000_000,
        0,
        5,
        10_000,
        6,
    ),
];

#[test]
fn reports_say_their_operations(rt: HostRuntime) {
    for &(line, ts, vehicle, segment, hundredths, place) in &REPORTS {
        let ops = report(vehicle, segment, hundredths, place);
        assert_eq!(rt;
            told(rt.alloc(), &Toll, line, 10, Version::One, &ops),
            Some((ts, 4, true)),
            "at {line:?}"
        );
    }
}

#[test]
fn tables_have_their_names(rt: HostRuntime) {
    let names = [
        Toll.table_name(SPEEDS),
        Toll.table_name(PLACES),
        Toll.table_name(COUNTS),
        Toll.table_name(BILLS),
    ];
    assert_eq!(rt; (Toll.tables(), names), (4, ["spd", "at", "cnt", "bill"]));
}

/// Lines for 10 vehicles and 10 segments, and why they are refused.
static REFUSED: [(&[u8], Version, Cause); 9] = [
    (b"T 1 0 0", Version::One, Cause::Form),
    (b"T 1 0 0 10 0", Version::One, Cause::Form),
    (b"t 1 0 0 10", Version::One, Cause::Form),
    (b"W 1 0 0 10", Version::One, Cause::Form),
    (b"T 0 0 0 1x", Version::One, Cause::Form),
    (b"T 0 0 0 10", Version::One, Cause::Range),
    (b"T 1 10 0 10", Version::One, Cause::Range),
    (b"T 1 0 10 10", Version::One, Cause::Range),
    (b"T 1 0 0 101", Version::One, Cause::Range),
];

#[test]
fn causes_come_in_their_order(rt: HostRuntime) {
    check_refused(&rt, rt.alloc(), &Toll, 10, &REFUSED);
}

/// A line for no vehicles and no segments.
static NOWHERE: [(&[u8], Version, Cause); 1] = [(b"T 1 0 0 10", Version::One, Cause::Range)];

#[test]
fn a_table_without_ids_has_no_line(rt: HostRuntime) {
    check_refused(&rt, rt.alloc(), &Toll, 0, &NOWHERE);
}

/// A seed, how many ids a table has, and the first two lines of the text.
static DRAWN: [(u64, u32, &[u8], &[u8]); 4] = [
    (0, 10_000, b"T 1 1807 24 23", b"T 2 5236 25 74"),
    (0, 10, b"T 1 7 4 23", b"T 2 6 5 74"),
    (1, 1, b"T 1 0 0 40", b"T 2 0 0 17"),
    (7, 10_000, b"T 1 5278 31 44", b"T 2 8673 45 79"),
];

#[test]
fn lines_are_generated_by_draws_in_order(rt: HostRuntime) {
    check_drawn(&rt, &Toll, &DRAWN);
}
