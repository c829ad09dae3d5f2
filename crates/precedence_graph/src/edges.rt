ghost use Rattle.std.specs.Prelude.{◌≡◌, ◌-◌, ◌*◌, ◌/◌, ◌^◌, ◌<◌, ◌≤◌, length, All, sum_by, if◌then◌else◌};
ghost use Rattle.morph_base.specs.declared.limits.TheConstants.{EVENT_OPS};
ghost use Rattle.morph_base.specs.Graphs.{is_written};

use morph_base::{Origin, PlanEvent};

/// How many reads of an earlier event's operations there are: by targets, and by parameters.
#[derive(Clone, Copy, Debug, PartialEq, Eq)]
pub struct Written {
    pub targets: u64,
    pub parameters: u64,
}

/// Returns 1 if the source is an operation, and 0 if it is a base.
pub fn written_count(origin: Origin) -> u32
    ensures count { result ≡ (if is_written origin then 1 else 0) }
    ensures few { result ≤ 1 }
{
    match origin {
        Origin::Base(_) => 0,
        Origin::Op(_) => 1,
    }
}

/// How many pairs of operations of one event there are.
pub fn logical(events: &[PlanEvent]) -> u64
    requires counts { All (λ e. (0 < e.count) × (e.count ≤ EVENT_OPS)) events.now }
    requires few { length events.now < 2 ^ 32 }
    ensures { result ≡ sum_by (λ e. e.count * (e.count - 1) / 2) events.now }
{
    let mut all = 0;
    for event in events {
        all += pairs(event.count);
    }
    all
}

/// How many pairs this many operations have.
fn pairs(count: u32) -> u64
    requires some { 0 < count }
    requires few { count ≤ EVENT_OPS }
    ensures pairs { result ≡ count * (count - 1) / 2 }
    ensures few { result ≤ EVENT_OPS * EVENT_OPS }
{
    let count = u64::from(count);
    count * (count - 1) / 2
}
