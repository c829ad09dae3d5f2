use crate::runners::Runners;
use op_words::Board;

/// Why exploring ended.
#[derive(Clone, Copy, Debug, PartialEq, Eq)]
pub enum RunEnd {
    /// After a pass over each level.
    Whole,
    /// Each worker found nothing more to take.
    Drained,
    /// The turns or passes that were allowed are used up.
    Spent,
}

/// A board and its runners after a batch was explored, before it is settled.
///
/// Exploring is only a head start: settling goes through all events, whatever was tried before.
pub struct Explored {
    board: Board,
    runners: Runners,
    end: RunEnd,
    /// The first of the counters that no runner took a number from.
    next_counter: u32,
}

// Not derived: see "What costs" in docs/CONTRIBUTING.md.
impl Drop for Explored {
    fn drop(self) {
        let Explored {
            board: _,
            runners: _,
            end: _,
            next_counter: _,
        } = self;
    }
}

impl Explored {
    ghost use Rattle.std.specs.Prelude.{◌≡◌};
    ghost use Rattle.op_eval.specs.Exploring.{parts_of, MayExplore, IsExploredBoard};

    /// Puts together what is handed on to settling: runners of the board that hold nothing, the first with the root.
    ///
    /// In each runner, `evaluated` is at most the number of its hand's finish steps, the other three answers together
    /// are at most the number of words that it loaded, and `kept` is empty, with room for what the plan's events leave.
    /// No runner took a number from the counter `next_counter` or a later one.
    pub fn new(board: Board, runners: Runners, end: RunEnd, next_counter: u32) -> Explored
        requires { MayExplore board next_counter runners }
        ensures parts { parts_of result ≡ (board, runners, end, next_counter) }
        ensures explored { IsExploredBoard result }
    {
        Explored {
            board,
            runners,
            end,
            next_counter,
        }
    }

    /// Returns the four parts. What [`Explored::new`] asked of them holds.
    pub fn parts(self) -> (Board, Runners, RunEnd, u32)
        requires { IsExploredBoard self }
        ensures parts { result ≡ parts_of self }
        ensures explored { MayExplore result.0 result.3 result.1 }
    {
        let Explored {
            board,
            runners,
            end,
            next_counter: next,
        } = self;
        (board, runners, end, next)
    }
}
