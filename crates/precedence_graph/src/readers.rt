ghost use Rattle.std.specs.Prelude.{◌≡◌, ℕ, ◌^◌, ◌<◌, ◌++◌, [], ◌∷◌, length, map, filter, All, IfOk, OnOk};
ghost use Rattle.std.specs.Prelude.{◌≤◌, take, if◌then◌else◌};
ghost use Rattle.std.specs.List.{list_any};
ghost use Rattle.morph_base.specs.declared.limits.TheConstants.{READS};
ghost use Rattle.morph_base.specs.Graphs.{below, is_written_by, IsValidPlan};
ghost use Rattle.morph_base.specs.Readers.{reads_among, dependents_of};
ghost use Rattle.morph_base.specs.Operations.{reads};
ghost use Rattle.precedence_graph.specs.Links.{items_of};
ghost use Rattle.precedence_graph.specs.Planned.{IsAmong, IsSoundPlanOp, planned, sources_of};

use crate::links::{Link, grouped};
use morph_base::{List, Origin, OutOfMemory, Plan, PlanOps, Rows};
use std::alloc::Global;

/// For each operation of a plan those that read from it, rising, each once.
///
/// A plan has no such lists itself, since most ways to run it need none. They are for exploring by deques, which hands
/// on what reads from an operation once that has its value, and for eager abort, which goes from an operation that
/// failed to what reads from it. The lists take memory: a number for each operation and for each of its dependents.
pub fn dependents(alloc: Global, plan: &Plan) -> Result<Rows, OutOfMemory>
    requires valid { IsValidPlan plan.now }
    ensures { IfOk result (λ rows. rows ≡ dependents_of plan.now) }
{
    let reads = plan.edges.temporal.saturating_add(plan.edges.parametric);
    let links = read_links(alloc, &plan.ops, reads as usize)?;
    grouped(alloc, plan.ops.len(), links.as_slice())
}

/// Makes each operation an item of the groups of the operations that it reads from. `reads` of all places read from
/// operations.
fn read_links(alloc: Global, ops: &PlanOps, reads: usize) -> Result<List<Link>, OutOfMemory>
    requires ready { All (IsSoundPlanOp (length ops.now.items)) ops.now.items }
    requires few { length ops.now.items < 2 ^ 32 }
    ensures items { IfOk result (λ links. (o : ℕ) → items_of links.items o
        ≡ filter (reads_among ops.now.items o) (below (length ops.now.items))) }
    ensures groups { IfOk result (λ links. All (λ link. link.group < length ops.now.items) links.items) }
{
    let mut links = List::with_room(alloc, reads)?;
    for t in 0..ops.len() {
        // An operation of level 1 reads from no operation.
        if ops.level(t) > 1 {
            link_sources(&mut links, ops, t)?;
        }
    }
    Ok(links)
}

/// Makes an operation an item of the group of each operation among its sources, once.
fn link_sources(links: &mut List<Link>, ops: &PlanOps, t: usize) -> Result<(), OutOfMemory>
    requires inside { t < length ops.now.items }
    requires few { length ops.now.items < 2 ^ 32 }
    requires places { length (planned ops.now.items t).origins ≡ READS }
    ensures items { OnOk result ((o : ℕ) → items_of links.new.items o
        ≡ items_of links.old.items o
        ++ (if list_any (is_written_by o) (sources_of (planned ops.now.items t)) then t ∷ [] else [])) }
    ensures groups { OnOk result ((n : ℕ) → All (IsAmong n) (sources_of (planned ops.now.items t))
        → All (λ link. link.group < n) links.old.items
        → All (λ link. link.group < n) links.new.items) }
{
    for j in 0..ops.places(t) {
        if let Origin::Op(s) = ops.origin(t, j) {
            if !has_source(ops, t, j, s) {
                links.push(Link {
                    group: s,
                    item: t as u32,
                })?;
            }
        }
    }
    Ok(())
}

/// Whether operation `s` is among the first `count` sources of an operation.
fn has_source(ops: &PlanOps, t: usize, count: usize, s: u32) -> bool
    requires inside { t < length ops.now.items }
    requires places { length (planned ops.now.items t).origins ≡ READS }
    requires few { length (reads (planned ops.now.items t).op) ≤ READS }
    requires used { count ≤ length (reads (planned ops.now.items t).op) }
    ensures { result ≡ list_any (is_written_by s) (take count (sources_of (planned ops.now.items t))) }
{
    'sources: for j in 0..count {
        if is_written_by(s, ops.origin(t, j)) {
            return true;
        }
    }
    false
}

/// Whether the source is operation `s`.
fn is_written_by(s: u32, origin: Origin) -> bool
    ensures { result ≡ is_written_by s origin }
{
    match origin {
        Origin::Base(_) => false,
        Origin::Op(t) => t == s,
    }
}
