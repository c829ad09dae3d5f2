//! The functions of operations, as a table of answers says.
ghost use Rattle.std.specs.Prelude.{◌≤◌, ◌↔◌, All, IsTrue};

use morph_base::{FIRST_MAX, Func, Key, MAX, Op, PARAMS, eval};
use std::process::Abort;

/// Whether all are at most [`MAX`].
fn are_values(xs: &[u64]) -> bool
    ensures { IsTrue result ↔ All (λ x. x ≤ MAX) xs.now }
{
    xs.iter().all(|&x| x <= MAX)
}

/// What a function answers on the target's value and those of the parameters, with this constant, this floor and this
/// greatest value.
fn answer(rt: &impl Abort, func: Func, limits: [u64; 3], xs: &[u64]) -> Option<u64> {
    let [c, low, high] = limits;
    let params = [Key { table: 0, id: 0 }; PARAMS];
    assert!(rt; !xs.is_empty() && xs.len() <= params.len() + 1 && are_values(xs));
    let count = xs.len() - 1;
    assert!(rt; func.takes(count) && (high == FIRST_MAX || high == MAX));
    assert!(rt; c <= high && low <= high);
    let op = Op::new(func, params[0], &params[..count], c).limited(low, high);
    eval(&op, xs)
}

/// Functions with a constant, on the target's value and those of the parameters, and what they answer.
static ANSWERS: [(Func, u64, &[u64], Option<u64>); 41] = [
    (Func::Keep, 5, &[0], Some(0)),
    (Func::Keep, 5, &[FIRST_MAX], Some(FIRST_MAX)),
    (Func::Add, 0, &[FIRST_MAX], Some(FIRST_MAX)),
    (Func::Add, 1, &[FIRST_MAX - 1], Some(FIRST_MAX)),
    (Func::Add, 1, &[FIRST_MAX], None),
    (Func::Add, FIRST_MAX, &[0], Some(FIRST_MAX)),
    (Func::Add, FIRST_MAX, &[1], None),
    (Func::Sub, 0, &[0], Some(0)),
    (Func::Sub, 60, &[59], None),
    (Func::Sub, 60, &[60], Some(0)),
    (Func::Sub, FIRST_MAX, &[FIRST_MAX], Some(0)),
    (Func::MoveIn, 60, &[0, 59], None),
    (Func::MoveIn, 60, &[0, 60], Some(60)),
    (Func::MoveIn, 60, &[FIRST_MAX - 60, 60], Some(FIRST_MAX)),
    (Func::MoveIn, 60, &[FIRST_MAX - 59, 60], None),
    (Func::MoveIn, 0, &[FIRST_MAX, 0], Some(FIRST_MAX)),
    (Func::Sum, 0, &[7, 0], Some(0)),
    (Func::Sum, 10, &[7, 6, 4], Some(10)),
    (Func::Sum, 9, &[7, 6, 4], None),
    (Func::Sum, 9, &[7, 2, 3, 4], Some(9)),
    (Func::Sum, FIRST_MAX, &[0, FIRST_MAX], Some(FIRST_MAX)),
    (Func::Sum, FIRST_MAX, &[0, FIRST_MAX, 1], None),
    (Func::Blend, 1000, &[0], Some(1000)),
    (Func::Blend, 1100, &[1000], Some(1050)),
    (Func::Blend, 1100, &[1075], Some(1087)),
    (Func::Blend, 0, &[1], Some(0)),
    (Func::Blend, FIRST_MAX, &[FIRST_MAX], Some(FIRST_MAX)),
    (Func::Set, 0, &[5], Some(0)),
    (Func::Set, FIRST_MAX, &[0], Some(FIRST_MAX)),
    (Func::Enter, 1, &[5, 1], Some(5)),
    (Func::Enter, 1, &[5, 2], Some(6)),
    (Func::Enter, 1, &[FIRST_MAX, 1], Some(FIRST_MAX)),
    (Func::Enter, 1, &[FIRST_MAX - 1, 0], Some(FIRST_MAX)),
    (Func::Enter, 1, &[FIRST_MAX, 0], None),
    (Func::Charge, 1_000_000, &[0, 3999, 51], Some(2)),
    (Func::Charge, 1_000_000, &[0, 4000, 51], Some(0)),
    (Func::Charge, 1_000_000, &[999_999, 3999, 51], None),
    (Func::Charge, 1_000_000, &[0, 3999, 50], Some(0)),
    (
        Func::Charge,
        1_000_000,
        &[999_998, 3999, 51],
        Some(1_000_000),
    ),
    (
        Func::Charge,
        FIRST_MAX,
        &[FIRST_MAX, 4000, FIRST_MAX],
        Some(FIRST_MAX),
    ),
    (Func::Charge, FIRST_MAX, &[0, 0, FIRST_MAX], None),
];

#[test]
fn answers_as_the_table_says(rt: HostRuntime) {
    for (func, c, xs, want) in &ANSWERS {
        assert_eq!(rt;
            answer(&rt, *func, [*c, 0, FIRST_MAX], xs),
            *want,
            "{func:?} with {c} on {xs:?}"
        );
    }
}

/// The functions with a constant, a floor and a greatest value, and what they answer.
static LIMITED: [(Func, [u64; 3], &[u64], Option<u64>); 17] = [
    (Func::Sub, [60, 5, FIRST_MAX], &[64], None),
    (Func::Sub, [60, 5, FIRST_MAX], &[65], Some(5)),
    (Func::Sub, [0, 1, FIRST_MAX], &[0], None),
    (Func::Sub, [0, 1, FIRST_MAX], &[1], Some(1)),
    (Func::Sub, [1, MAX, MAX], &[MAX], None),
    (Func::Sub, [MAX, 0, MAX], &[MAX], Some(0)),
    (Func::MoveIn, [60, 5, FIRST_MAX], &[0, 64], None),
    (Func::MoveIn, [60, 5, FIRST_MAX], &[7, 65], Some(67)),
    (Func::MoveIn, [MAX, 0, MAX], &[0, MAX], Some(MAX)),
    (Func::MoveIn, [MAX, 1, MAX], &[0, MAX], None),
    (Func::Add, [1, 5, MAX], &[FIRST_MAX], Some(FIRST_MAX + 1)),
    (Func::Add, [1, 0, MAX], &[MAX - 1], Some(MAX)),
    (Func::Add, [1, 0, MAX], &[MAX], None),
    (
        Func::Enter,
        [1, 0, MAX],
        &[FIRST_MAX, 0],
        Some(FIRST_MAX + 1),
    ),
    (Func::Enter, [1, 0, MAX], &[MAX, 0], None),
    (
        Func::Sum,
        [MAX, 0, MAX],
        &[0, FIRST_MAX, 1],
        Some(FIRST_MAX + 1),
    ),
    (
        Func::Blend,
        [MAX, 0, MAX],
        &[FIRST_MAX],
        Some(5_500_000_000_000),
    ),
];

#[test]
fn answers_stay_within_the_limits(rt: HostRuntime) {
    for (func, limits, xs, want) in &LIMITED {
        assert_eq!(rt;
            answer(&rt, *func, *limits, xs),
            *want,
            "{func:?} with {limits:?} on {xs:?}"
        );
    }
}
