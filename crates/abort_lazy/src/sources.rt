ghost use Rattle.std.specs.Prelude.{◌≡◌, ◌<◌, length, take};
ghost use Rattle.morph_base.specs.Plans.{IsPlan, op_count, event_at, event_of, keys_of};
ghost use Rattle.abort_lazy.specs.Finishing.{settled_sources, HasValues};

use morph_base::{List, Plan, READS};

/// The settled values of an operation's sources, place by place, and 0 past them. `values` has those of all earlier
/// events.
pub(crate) fn read_settled(plan: &Plan, o: usize, values: &List<u64>) -> [u64; READS]
    requires plan { IsPlan plan.now }
    requires op { o < op_count plan.now }
    requires values { HasValues plan.now (event_at plan.now (event_of plan.now o)).first
        values.now.items }
    ensures long { length result ≡ READS }
    ensures values { take (length (keys_of plan.now o)) result ≡ settled_sources plan.now o }
{
    let mut xs = [0; READS];
    for j in 0..plan.ops.places(o) {
        xs[j] = plan.ops.origin(o, j).value_in(values);
    }
    xs
}
