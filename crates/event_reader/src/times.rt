ghost use Rattle.std.specs.Prelude.{◌≡◌, ℕ, [], ◌==◌, ◌||◌, not, IfOk, OnOk};
ghost use Rattle.event_reader.specs.Times.{is_among};

use morph_base::OutOfMemory;
use std::alloc::Global;
use std::collections::BTreeSet;
use std::marker::Model;

/// The timestamps of a batch, which contracts see as a list in some order. One that comes twice is found fast in any
/// order of arrival: those that were greater than all before them rise in a vector, and the others are in a set.
#[derive(Drop)]
pub(crate) struct Times {
    rising: Vec<u64>,
    others: BTreeSet<u64>,
    greatest: u64,
}

impl Model for Times {
    ghost use Rattle.std.specs.Prelude.{ℕ, List, ◌++◌};

    ghost Value = { List ℕ };

    ghost use Rattle.event_reader.specs.RisingTimes.{IsRising};

    ghost view = { λ times. times.rising.items ++ times.others.keys };

    ghost invariant = { IsRising };
}

impl Times {
    /// No timestamps.
    pub(crate) fn new(alloc: Global) -> Self
        ensures { result ≡ [] }
    {
        Times {
            rising: Vec::new(alloc),
            others: BTreeSet::new(alloc),
            greatest: 0,
        }
    }

    /// Adds a timestamp, which is not 0, and says whether it is new.
    pub(crate) fn add(&mut self, ts: u64) -> Result<bool, OutOfMemory>
        ensures fresh { IfOk result (λ fresh. fresh ≡ not (is_among self.old ts)) }
        ensures added { OnOk result
            ((t : ℕ) → is_among self.new t ≡ (ts == t || is_among self.old t)) }
    {
        if ts > self.greatest {
            self.rising.push(ts)?;
            self.greatest = ts;
            return Ok(true);
        }
        if self.rising.binary_search(&ts).is_ok() {
            return Ok(false);
        }
        let is_new = self.others.insert(ts)?;
        Ok(is_new)
    }
}
