ghost use Rattle.std.specs.Prelude.{◌≡◌, ℕ, ◌+◌, ◌-◌, ◌^◌, ◌<◌, ◌≤◌, length, drop, min, sum, slice_index, All, IfSome};
ghost use Rattle.morph_base.specs.Functions.{at_most as at_most_of, toll as toll_of, result_of, value_of};
ghost use Rattle.morph_base.specs.Operations.{least_params, IsShaped};
ghost use Rattle.morph_base.specs.Words.{finished};

use crate::limits::{MAX, READS};
use crate::operation::{Func, Op};
use crate::word::{OpState, OpWord};

/// The new value of an operation's target, or `None` if the operation fails, as [`Func`] says for each function.
///
/// `xs` has the value of the target and then those of the parameters, each at most [`MAX`], and the operation has a
/// valid shape. If each value is at most the operation's greatest value, so is the answer.
#[tactic(auto, unfolding(crate::specs::Functions::value_of))]
pub fn eval(op: &Op, xs: &[u64]) -> Option<u64>
    requires shaped { IsShaped op.now }
    requires reads { length xs.now ≡ op.now.n_params + 1 }
    requires values { All (λ x. x ≤ MAX) xs.now }
    ensures value { result ≡ value_of op.now xs.now }
    ensures small { IfSome result (λ v. v ≤ MAX) }
    ensures within { All (λ x. x ≤ op.now.high) xs.now → IfSome result (λ v. v ≤ op.now.high) }
{
    eval_by(op.func, op.c, [op.low, op.high], xs)
}

/// The same by the parts of an operation: its function, its constant, and its limits, which are its floor and its
/// greatest value.
#[tactic(auto, unfolding(crate::specs::Functions::value_of))]
pub(crate) fn eval_by(func: Func, c: u64, limits: [u64; 2], xs: &[u64]) -> Option<u64>
    requires few { length xs.now ≤ READS }
    requires params { least_params func < length xs.now }
    requires values { All (λ x. x ≤ MAX) xs.now }
    requires constant { c ≤ MAX }
    requires floor { slice_index limits 0 ≤ MAX }
    requires limit { slice_index limits 1 ≤ MAX }
    ensures value { result ≡ result_of (slice_index limits 0) (slice_index limits 1) func c
        (slice_index xs.now 0) (drop 1 xs.now) }
    ensures small { IfSome result (λ v. v ≤ MAX) }
    ensures within { c ≤ slice_index limits 1 → All (λ x. x ≤ slice_index limits 1) xs.now
        → IfSome result (λ v. v ≤ slice_index limits 1) }
{
    let [low, high] = limits;
    let x = xs[0];
    let least = c + low;
    match func {
        Func::Keep => Some(x),
        Func::Add => at_most(high, x + c),
        Func::Sub => { if x < least { None } else { Some(x - c) } }
        Func::MoveIn => {
            if xs[1] < least {
                None
            } else {
                at_most(high, x + c)
            }
        }
        Func::Sum => at_most(c, total(&xs[1..])),
        Func::Blend => Some(if x == 0 { c } else { (x + c) / 2 }),
        Func::Set => Some(c),
        Func::Enter => {
            if xs[1] == c {
                Some(x)
            } else {
                at_most(high, x + 1)
            }
        }
        Func::Charge => at_most(c, x.saturating_add(toll(xs[1], xs[2]))),
    }
}

/// The word that an attempt at an operation leaves, on the values of its places.
///
/// It is executed with the operation's answer, or failed with the value of place 0 if there is none. `xs` and the
/// operation are as for [`eval`]. Attempts are numbered from 1, up to [`ATTEMPTS`](crate::ATTEMPTS).
pub fn evaluate(op: &Op, xs: &[u64], attempt: u8) -> OpWord
    requires shaped { IsShaped op.now }
    requires reads { length xs.now ≡ op.now.n_params + 1 }
    requires values { All (λ x. x ≤ MAX) xs.now }
    ensures { result ≡ finished op.now attempt xs.now }
{
    let (value, state) = match eval(op, xs) {
        Some(value) => (value, OpState::Executed),
        None => (xs[0], OpState::Failed),
    };
    OpWord {
        value,
        attempt,
        state,
        by: 0,
    }
}

/// The value, or `None` if it is above the limit.
fn at_most(limit: u64, value: u64) -> Option<u64>
    ensures { result ≡ at_most_of limit value }
{
    if value <= limit { Some(value) } else { None }
}

/// The sum of some values.
fn total(values: &[u64]) -> u64
    requires { sum values.now < 2 ^ 64 }
    ensures { result ≡ sum values.now }
{
    values.iter().sum()
}

/// Linear Road's toll for a segment with this average speed, in hundredths of a mile per hour, and count of entries.
///
/// A toll that does not fit is the greatest u64, which is above every limit.
fn toll(speed: u64, count: u64) -> u64
    ensures { result ≡ min (toll_of speed count) (2 ^ 64 - 1) }
{
    if speed < 4000 && count > 50 {
        let above = count - 50;
        above.saturating_mul(above).saturating_mul(2)
    } else {
        0
    }
}
