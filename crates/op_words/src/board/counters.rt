//! Counters, which give each of their numbers to one hand, and the level word.
ghost use Rattle.std.specs.Prelude.{◌≡◌, ◌<◌};
ghost use Rattle.op_words.specs.Counting.{taking, times, IsNumberTaken};
ghost use Rattle.op_words.specs.Rule.{most_taken};
ghost use Rattle.op_words.specs.declared.board.Hand.{Hand};
ghost use Rattle.op_words.specs.Hands.{plan_of, cap_of, counters_of, view_of, IsHandOf};

use super::{Board, Hand};
use crate::counter_plays::{Pass, Take};
use crate::words::NO_LEVEL;

impl Board {
    /// Takes the next number of a counter. Each number below the counter goes to one hand.
    ///
    /// A hand that calls this has taken fewer than 2^59 numbers from the counter, so sixteen hands cannot make it
    /// overflow.
    pub fn take(&self, hand: &mut Hand, counter: u32) -> u64
        requires hand { IsHandOf self.now hand.old }
        requires in_range { counter < counters_of self.now }
        requires few { times counter (view_of hand.old).places < most_taken }
        ensures hand { IsHandOf self.now hand.new }
        ensures view { view_of hand.new ≡ taking counter result (view_of hand.old) }
        ensures takes { IsNumberTaken counter result (view_of hand.old) }
    {
        let word = self.level + 1 + counter as usize;
        self.table.shared.fetch_add::<Take>(&mut hand.seat, word, 1)
    }

    /// Puts a level into the level word, if it is lower than the level there.
    pub fn lower(&self, hand: &mut Hand, level: u32)
        requires hand { IsHandOf self.now hand.old }
        ensures hand { IsHandOf self.now hand.new }
        ensures view { view_of hand.new ≡ view_of hand.old }
    {
        self.table
            .shared
            .fetch_min::<Pass>(&mut hand.seat, self.level, u64::from(level));
    }

    /// Returns the level in the level word.
    pub fn level(&self, hand: &mut Hand) -> u32
        requires hand { IsHandOf self.now hand.old }
        ensures hand { IsHandOf self.now hand.new }
        ensures view { view_of hand.new ≡ view_of hand.old }
    {
        let level = self.table.shared.load::<Pass>(&mut hand.seat, self.level);
        level.min(NO_LEVEL) as u32
    }

    /// Puts the greatest level into the level word, between two passes. Nobody else uses the board at that time. All
    /// else stays, so each hand of the board is still one of its hands.
    pub fn reset_level(&mut self, root: &mut Hand)
        requires hand { IsHandOf self.old root.old }
        ensures hand { IsHandOf self.new root.new }
        ensures view { view_of root.new ≡ view_of root.old }
        ensures plan { plan_of self.new ≡ plan_of self.old }
        ensures cap { cap_of self.new ≡ cap_of self.old }
        ensures counters { counters_of self.new ≡ counters_of self.old }
        ensures hands { (h : Hand) → IsHandOf self.old h → IsHandOf self.new h }
    {
        self.table
            .shared
            .store::<Pass>(&mut root.seat, self.level, NO_LEVEL);
    }
}
