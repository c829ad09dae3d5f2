use crate::answers::{Answers, Left};
use crate::burst::Burst;
use morph_base::List;
use op_words::{Board, Hand};

/// A worker's hand, the answers of `evaluate`, and why events that the worker tried were not settled.
///
/// Calls of the board use its field `hand`.
#[derive(Drop)]
pub struct Runner {
    /// The worker's right to change the board.
    pub hand: Hand,
    /// The answers of `evaluate`.
    pub answers: Answers,
    /// Why events were not settled, with at most one entry for each event.
    pub kept: List<Left>,
}

impl Runner {
    ghost use Rattle.std.specs.Prelude.{◌+◌, ◌<◌, ◌≤◌, ◌^◌};
    ghost use Rattle.op_words.specs.Counting.{times};
    ghost use Rattle.op_words.specs.Hands.{counters_of, IsHandOf};
    ghost use Rattle.op_words.specs.Rule.{most_taken};
    ghost use Rattle.op_eval.specs.Running.{hand_view};
    ghost use Rattle.op_eval.specs.Turns.{TakesNumber};
    ghost use Rattle.op_eval.specs.Bursts.{TakesBurst};
    ghost use Rattle.op_eval.specs.declared.burst.TheConstants.{BURST};

    /// Takes the next number of a counter. Nothing else of the runner changes.
    pub fn take(&mut self, board: &Board, counter: u32) -> u64
        requires hand { IsHandOf board.now self.old.hand }
        requires in_range { counter < counters_of board.now }
        requires few { times counter (hand_view self.old).places < most_taken }
        ensures hand { IsHandOf board.now self.new.hand }
        ensures number { TakesNumber counter result self.old self.new }
    {
        board.take(&mut self.hand, counter)
    }

    /// Takes up to `most` numbers of a counter, 1 to [`BURST`](crate::BURST), each by a single addition, for so many
    /// places. It takes no further number after one that is past the last place.
    ///
    /// Workers who take several places before they try the first of them write to different lines of memory, as far as
    /// neighbouring places have neighbouring words.
    pub fn take_burst(&mut self, board: &Board, counter: u32, places: usize, most: usize) -> Burst
        requires hand { IsHandOf board.now self.old.hand }
        requires in_range { counter < counters_of board.now }
        requires few { times counter (hand_view self.old).places + most ≤ most_taken }
        requires some { 1 ≤ most }
        requires most { most ≤ BURST }
        requires small { places < 2 ^ 32 }
        ensures hand { IsHandOf board.now self.new.hand }
        ensures burst { TakesBurst counter places most result self.old self.new }
    {
        let mut burst = Burst::new();
        for _turn in 0..most {
            let number = self.take(board, counter);
            if number >= places as u64 {
                burst.end();
                return burst;
            }
            burst.add(number as u32);
        }
        burst
    }
}
