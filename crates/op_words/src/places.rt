//! The places that an operation of a plan reads.
ghost use Rattle.std.specs.Prelude.{◌≡◌, ◌≤◌, ◌<◌};
ghost use Rattle.morph_base.specs.declared.limits.TheConstants.{READS};
ghost use Rattle.morph_base.specs.Plans.{IsPlan, op_count, origin_at};
ghost use Rattle.interleaving_core.specs.Core.{places};

use morph_base::{Origin, Plan};

/// How many places an operation reads, its target's among them: at least 1, and at most [`READS`](morph_base::READS).
pub fn places_of(plan: &Plan, op: u32) -> u8
    requires plan { IsPlan plan.now }
    requires in_range { op < op_count plan.now }
    ensures places { result ≡ places plan.now op }
    ensures few { result ≤ READS }
    ensures some { 0 < result }
{
    plan.ops.places(op as usize) as u8
}

/// Where the value of a place comes from.
pub(crate) fn origin_of(plan: &Plan, op: u32, j: u8) -> Origin
    requires plan { IsPlan plan.now }
    requires in_range { op < op_count plan.now }
    requires in_places { j < places plan.now op }
    ensures { result ≡ origin_at plan.now op j }
{
    plan.ops.origin(op as usize, j as usize)
}
