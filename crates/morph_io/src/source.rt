ghost use Rattle.std.specs.Prelude.{◌≡◌, ℕ, ◌<◌, ◌≤◌, List, Option, Some, Result, length, take, codes, IfOk};
ghost use Rattle.std.specs.Prelude.{OnOk, OnErr};
ghost use Rattle.morph_io.specs.declared.source.ReadFailed.{ReadFailed};
ghost use Rattle.morph_io.specs.Told.{ahead, IsAtEnd, HasRisen};

use std::error::Error;
use std::fmt;

/// A read that failed: nothing was taken, and the source's count of faults rose.
#[derive(Clone, Copy, Debug, PartialEq, Eq, Hash)]
pub struct ReadFailed;

impl fmt::Display for ReadFailed {
    ghost output = { λ _. Some (codes "read failed") };

    fn fmt<W: fmt::Write>(&self, f: &mut fmt::Formatter<W>) -> fmt::Result {
        f.write_str("read failed")
    }
}

impl Error for ReadFailed {}

/// Where bytes come from.
///
/// Its meanings are the bytes left, if it reveals them, a count of faults that never falls, and what one read may do.
/// The count is a `u64`: at its last value it is taken to have risen in every call.
pub trait Source {
    /// The bytes that are still to be read, or `None` if the source reveals nothing of them.
    ghost left: { Self → Option (List ℕ) };

    /// The number of reads that have failed so far.
    ghost faults: { Self → ℕ };

    /// What one read for `asked` bytes may do, from the source before to its answer and the source after. It is `Unit`
    /// if the source says no more of it than the clauses of [`read`](Source::read).
    ghost reads: { Self → (asked : ℕ) → Result ℕ ReadFailed → Self → Type 0 };

    /// Moves the first bytes that are left into the front of `buf`, and returns how many: at least one, or 0 at the end
    /// of the input.
    ///
    /// `Err` is returned only if the count of faults rose in this call, and the bytes left are then as before. `Ok`
    /// leaves the count as it was.
    fn read(&mut self, buf: &mut [u8]) -> Result<usize, ReadFailed>
        requires { 0 < length buf.old }
        ensures bound { IfOk result (λ n. n ≤ length buf.new) }
        ensures bytes { IfOk result (λ n. left self.old ≡ ahead (take n buf.new) (left self.new)) }
        ensures end { IfOk result (λ n. n ≡ 0 → IsAtEnd (left self.new)) }
        ensures kept { OnErr result (left self.new ≡ left self.old) }
        ensures never_falls { faults self.old ≤ faults self.new }
        ensures steady { OnOk result (faults self.new ≡ faults self.old) }
        ensures cause { OnErr result (HasRisen (faults self.old) (faults self.new)) }
        ensures answer { reads self.old (length buf.new) result self.new };
}
