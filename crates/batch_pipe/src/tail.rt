ghost use Rattle.std.specs.Prelude.{◌≡◌, Some};
ghost use Rattle.batch_pipe.specs.PipeRounds.{or_else};

use crate::runner::RunEnd;
use event_reader::{Cause, ReaderFault};

/// Why no further batch comes.
#[derive(Clone, Copy, Debug, PartialEq, Eq)]
pub enum Tail {
    /// The input was read to its end.
    End,
    /// A line was refused, by its number from 1 and the first cause that applies to it.
    Refused { line: u64, cause: Cause },
    /// Reading ended early, or memory for a batch or its plan was refused.
    Fault(ReaderFault),
    /// Memory to run a batch was refused.
    RunMemory,
    /// The teller refused the result of a batch that was run.
    Untold,
}

/// The tail after a round: the one by which its runs ended early, or else the earlier one, or else the one that its
/// planner met.
pub(crate) fn tail_after(before: Option<Tail>, stop: Option<Tail>, end: RunEnd) -> Option<Tail>
    ensures whole { end ≡ RunEnd.Whole → result ≡ or_else before stop }
    ensures memory { end ≡ RunEnd.NoMemory → result ≡ Some Tail.RunMemory }
    ensures untold { end ≡ RunEnd.Untold → result ≡ Some Tail.Untold }
{
    match (end, before) {
        (RunEnd::Whole, None) => stop,
        (RunEnd::Whole, Some(tail)) => Some(tail),
        (RunEnd::NoMemory, _) => Some(Tail::RunMemory),
        (RunEnd::Untold, _) => Some(Tail::Untold),
    }
}
