ghost use Rattle.std.specs.Prelude.{◌≡◌, ℕ, ◌<◌, ◌≤◌, List, Option, Some, Result, length, take, codes, IfOk};
ghost use Rattle.std.specs.Prelude.{OnOk, OnErr};
ghost use Rattle.morph_io.specs.declared.sink.WriteFailed.{WriteFailed};
ghost use Rattle.morph_io.specs.Told.{behind, HasRisen};

use std::error::Error;
use std::fmt;

/// A write that failed: nothing was appended, and the sink's count of faults rose.
#[derive(Clone, Copy, Debug, PartialEq, Eq, Hash)]
pub struct WriteFailed;

impl fmt::Display for WriteFailed {
    ghost output = { λ _. Some (codes "write failed") };

    fn fmt<W: fmt::Write>(&self, f: &mut fmt::Formatter<W>) -> fmt::Result {
        f.write_str("write failed")
    }
}

impl Error for WriteFailed {}

/// Where bytes go.
///
/// Its meanings are the bytes written, if it reveals them, a count of faults that never falls, and what one write may
/// do. The count is a `u64`: at its last value it is taken to have risen in every call.
pub trait Sink {
    /// The bytes that were written so far, or `None` if the sink reveals nothing of them.
    ghost written: { Self → Option (List ℕ) };

    /// The number of writes that have failed so far.
    ghost faults: { Self → ℕ };

    /// What one write of these bytes may do, from the sink before to its answer and the sink after. It is `Unit` if the
    /// sink says no more of it than the clauses of [`write`](Sink::write).
    ghost writes: { Self → (piece : List ℕ) → Result ℕ WriteFailed → Self → Type 0 };

    /// Appends the first bytes of `piece`, and returns how many: at least one, and at most all.
    ///
    /// `Err` is returned only if the count of faults rose in this call, and nothing was appended then. `Ok` leaves the
    /// count as it was.
    fn write(&mut self, piece: &[u8]) -> Result<usize, WriteFailed>
        requires { 0 < length piece.now }
        ensures some { IfOk result (λ n. 0 < n) }
        ensures bound { IfOk result (λ n. n ≤ length piece.now) }
        ensures bytes { IfOk result
            (λ n. written self.new ≡ behind (written self.old) (take n piece.now)) }
        ensures kept { OnErr result (written self.new ≡ written self.old) }
        ensures never_falls { faults self.old ≤ faults self.new }
        ensures steady { OnOk result (faults self.new ≡ faults self.old) }
        ensures cause { OnErr result (HasRisen (faults self.old) (faults self.new)) }
        ensures answer { writes self.old piece.now result self.new };
}
