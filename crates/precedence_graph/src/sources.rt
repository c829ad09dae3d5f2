ghost use Rattle.std.specs.Prelude.{◌≡◌, ℕ, ◌<◌, length, map, replicate, slice_set, slice_index_or};
ghost use Rattle.morph_base.specs.declared.limits.TheConstants.{READS};
ghost use Rattle.morph_base.specs.declared.plan.Origin.TheVariants.{Base};
ghost use Rattle.morph_base.specs.Operations.{reads, IsShaped};
ghost use Rattle.morph_base.specs.OpLists.{with_origin};
ghost use Rattle.precedence_graph.specs.Planned.{IsSumOf, padded, planned};
ghost use Rattle.precedence_graph.specs.Writers.{source_in};

use crate::edges::written_count;
use crate::writers::Writers;
use morph_base::{Origin, PlanOps};

/// What is known of the sources of an operation.
#[derive(Clone, Copy, Debug, PartialEq, Eq)]
pub struct Reads {
    /// The greatest level of the operations among them, or 0 if there is none.
    pub level: u32,
    /// The greatest level of the events of these operations.
    pub event_level: u32,
    /// It is 1 if the target's source is an operation, and 0 if it is a base.
    pub target: u32,
    /// How many of the parameters' sources are operations.
    pub parameters: u32,
}

/// Sets the sources of operation `o`, its target's first, once the operations of the events before its own are
/// entered. It has none yet. Returns what is known of them.
pub fn set_sources(ops: &mut PlanOps, o: usize, writers: &Writers) -> Reads
    requires inside { o < length ops.old.items }
    requires shaped { IsShaped (planned ops.old.items o).op }
    requires blank { (planned ops.old.items o).origins ≡ replicate READS (Base 0) }
    ensures ops { ops.new ≡ record ops.old {
      items = slice_set ops.old.items o
          (record (planned ops.old.items o) {
            origins = padded (map (source_in writers.now) (reads (planned ops.old.items o).op));
          });
    } }
    ensures sums { IsSumOf writers.now (planned ops.old.items o).op result }
{
    let target = writers.source(ops.key(o));
    set_written(ops, o, 0, target.origin);
    let mut level = target.level;
    let mut event_level = target.event_level;
    let mut parameters: u32 = 0;
    for j in 1..ops.places(o) {
        let source = writers.source(ops.read_key(o, j));
        set_written(ops, o, j, source.origin);
        level = level.max(source.level);
        event_level = event_level.max(source.event_level);
        parameters += written_count(source.origin);
    }
    Reads {
        level,
        event_level,
        target: written_count(target.origin),
        parameters,
    }
}

/// Sets the source of a place that has `Base(0)`. Only an operation has to be put there, since each base is 0.
fn set_written(ops: &mut PlanOps, o: usize, j: usize, origin: Origin)
    requires inside { o < length ops.old.items }
    requires place { j < length (reads (planned ops.old.items o).op) }
    requires blank { slice_index_or (planned ops.old.items o).origins j (Base 0) ≡ Base 0 }
    requires zero { (v : ℕ) → origin ≡ Base v → v ≡ 0 }
    ensures { ops.new ≡ record ops.old {
      items = slice_set ops.old.items o
          (with_origin (planned ops.old.items o) j origin);
    } }
{
    if let Origin::Op(source) = origin {
        ops.set_source(o, j, source);
    }
}
