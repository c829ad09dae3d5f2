ghost use Rattle.std.specs.Prelude.{◌≡◌, [], OnOk, OnErr};
ghost use Rattle.op_words.specs.declared.board.Board.{Board as B};
ghost use Rattle.op_words.specs.Hands.{view_of, op_held, counts_of, IsHandOf};
ghost use Rattle.op_words.specs.Journals.{roomed};
ghost use Rattle.op_words.specs.Views.{IsLone};

use super::{Board, Hand};
use crate::answers::Counts;
use crate::counter_plays::Fit;
use crate::journal::Journal;
use morph_base::OutOfMemory;
use std::alloc::Global;

impl Hand {
    /// The hand's number. The root has 1, and each other hand has the number of hands made up to then, itself included.
    pub fn tag(&self) -> u8
        ensures { (b : B) → IsHandOf b self.now → result ≡ (view_of self.now).tag }
    {
        self.tag
    }

    /// The operation that the hand holds. `None` means that it holds none.
    pub fn held(&self) -> Option<u32>
        ensures { (b : B) → IsHandOf b self.now → result ≡ op_held (view_of self.now).claim }
    {
        match self.held.get() {
            Some(holding) => Some(holding.op),
            None => None,
        }
    }

    /// Keeps a journal from now on: the hand's own steps in order, as many as there is room for. This is for the root
    /// of a new board, before any step and any other hand. If memory is refused, the hand stays as it was.
    pub fn keep(&mut self, alloc: Global, board: &Board, room: usize) -> Result<(), OutOfMemory>
        requires hand { IsHandOf board.now self.old }
        requires lone { IsLone (view_of self.old) }
        requires new { (view_of self.old).events ≡ [] }
        ensures hand { IsHandOf board.now self.new }
        ensures view { OnOk result (view_of self.new ≡ roomed room (view_of self.old)) }
        ensures refused { OnErr result (self.new ≡ self.old) }
    {
        let journal = Journal::with_room(alloc, room)?;
        self.journal = Some(journal);
        // The exchange leaves the level word as it is: it only records the room.
        let room = room as u64;
        board
            .table
            .shared
            .compare_exchange::<Fit>(&mut self.seat, board.level, room, room);
        Ok(())
    }

    /// How many operations this hand and those joined into it evaluated, spread and rolled back.
    pub fn counts(&self) -> Counts
        ensures { (b : B) → IsHandOf b self.now → result ≡ counts_of (view_of self.now).events }
    {
        self.counts
    }
}
