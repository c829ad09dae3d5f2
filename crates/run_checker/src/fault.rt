use morph_base::OutOfMemory;
use thiserror::Error;

/// Why a text is not read as a journal.
#[derive(Clone, Copy, Debug, PartialEq, Eq, Error)]
pub enum JournalFault {
    /// This line, counted from 1, is the first that is no line of a journal, or that LF does not end.
    #[error("line {line} is no line of a journal")]
    Form { line: u64 },
    /// Memory for the events was refused.
    #[error("out of memory")]
    OutOfMemory,
}

impl From<OutOfMemory> for JournalFault {
    ghost use Rattle.run_checker.specs.declared.fault.JournalFault.TheVariants.{OutOfMemory as MemoryRefused};
    ghost use Rattle.std.specs.Prelude.{◌≡◌};

    ghost from_gives = { λ _ fault. fault ≡ MemoryRefused };

    fn from(_error: OutOfMemory) -> Self {
        JournalFault::OutOfMemory
    }
}
