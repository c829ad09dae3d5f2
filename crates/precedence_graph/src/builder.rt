ghost use Rattle.std.specs.Prelude.{◌≡◌, ℕ, map, IfOk};
ghost use Rattle.morph_base.specs.declared.plan.Origin.TheVariants.{Base};
ghost use Rattle.morph_base.specs.Plans.{IsPlan, origin_at, transactions};
ghost use Rattle.morph_base.specs.Graphs.{IsGraph};
ghost use Rattle.txn_splitter.specs.Txns.{IsTxns, txn_ops, txn_transactions};
ghost use Rattle.precedence_graph.specs.Planned.{txn_event};

use crate::edges::logical;
use crate::level_lists::{event_level_lists, op_level_lists};
use crate::planned::{Planned, plan_transactions};
use morph_base::{Edges, OutOfMemory, Plan};
use std::alloc::Global;
use txn_splitter::Txns;

/// Makes the plan of split transactions, with its graph.
///
/// Each place that reads what an earlier event wrote names the last operation that did so. Each other place holds
/// `Base(0)`, for the caller to fill in.
pub fn build(alloc: Global, txns: Txns) -> Result<Plan, OutOfMemory>
    requires { IsTxns txns }

    // It is a valid plan with its graph: sources, levels, level lists and counts.
    ensures plan { IfOk result IsPlan }
    ensures graph { IfOk result IsGraph }

    // Its operations and its events are those of the transactions.
    ensures ops { IfOk result (λ plan. map (λ q. q.op) plan.ops.items ≡ txn_ops txns) }
    ensures events_of { IfOk result
        (λ plan. map (λ q. q.event) plan.ops.items ≡ txns.event_of) }
    ensures events { IfOk result (λ plan. map txn_event plan.events.items ≡ txns.events) }
    ensures transactions { IfOk result (λ plan. transactions plan ≡ txn_transactions txns) }

    // Every base is 0.
    ensures blank { IfOk result (λ plan. (o j v : ℕ) → origin_at plan o j ≡ Base v → v ≡ 0) }
{
    let Planned {
        ops,
        events,
        written,
    } = plan_transactions(alloc, txns)?;
    let edges = Edges {
        temporal: written.targets,
        parametric: written.parameters,
        logical: logical(events.as_slice()),
    };
    let op_levels = op_level_lists(alloc, &ops)?;
    let event_levels = event_level_lists(alloc, events.as_slice())?;
    Ok(Plan {
        events,
        ops,
        op_levels,
        event_levels,
        edges,
    })
}
