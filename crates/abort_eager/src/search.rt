//! Finds what reads from some operations of a plan, from a position on.
ghost use Rattle.std.specs.Prelude.{◌≡◌, ℕ, ◌<◌, ◌≤◌};
ghost use Rattle.std.specs.List.Sorted.{IsNonDecreasingBy};
ghost use Rattle.morph_base.specs.Plans.{IsPlan, op_count};
ghost use Rattle.morph_base.specs.Graphs.{IsValidPlan};
ghost use Rattle.morph_base.specs.Readers.{dependents_of};
ghost use Rattle.abort_eager.specs.Targets.{is_among};
ghost use Rattle.abort_eager.specs.Finding.{IsFirstAt, IsLesser, IsFirstReader, IsFirstPlace};

use morph_base::{Origin, Plan, Rows};
use op_words::places_of;

/// The first number of a rising list that is not below `from`.
fn first_at(list: &[u32], from: u32) -> Option<u32>
    requires rising { IsNonDecreasingBy (λ (x : ℕ). x) list.now }
    ensures first { IsFirstAt list.now from result }
{
    let at = list.partition_point(|x| *x < from);
    if at < list.len() {
        Some(list[at])
    } else {
        None
    }
}

/// The lesser of two numbers, if there are two.
fn lesser(a: Option<u32>, b: Option<u32>) -> Option<u32>
    ensures { IsLesser a b result }
{
    match (a, b) {
        (Some(x), Some(y)) => Some(x.min(y)),
        (Some(x), None) => Some(x),
        (None, _) => b,
    }
}

/// The first operation from `from` on that reads from one of the operations from `first` up to `end`.
pub(crate) fn reader_from(
    plan: &Plan,
    dependents: &Rows,
    first: u32,
    end: u32,
    from: u32,
) -> Option<u32>
    requires plan { IsValidPlan plan.now }
    requires dependents { dependents.now ≡ dependents_of plan.now }
    requires first { first ≤ end }
    requires end { end ≤ op_count plan.now }
    ensures { IsFirstReader plan.now first end from result }
{
    let mut least = None;
    for op in first..end {
        least = lesser(least, first_at(dependents.row(op as usize), from));
    }
    least
}

/// Whether a source is one of the operations from `first` up to `end`.
fn is_one_of(origin: Origin, first: u32, end: u32) -> bool
    ensures { result ≡ is_among first end origin }
{
    match origin {
        Origin::Base(_) => false,
        Origin::Op(source) => source >= first && source < end,
    }
}

/// The first place of an operation, from `from` on, whose source is one of the operations from `first` up to `end`.
pub(crate) fn place_from(plan: &Plan, first: u32, end: u32, op: u32, from: u8) -> Option<u8>
    requires plan { IsPlan plan.now }
    requires in_range { op < op_count plan.now }
    ensures { IsFirstPlace plan.now first end op from result }
{
    let count = places_of(plan, op);
    for j in from..count {
        if is_one_of(plan.ops.origin(op as usize, j as usize), first, end) {
            return Some(j);
        }
    }
    None
}
