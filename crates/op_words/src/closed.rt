//! A board after its end.
ghost use Rattle.std.specs.Prelude.{◌≡◌, ℕ, ◌<◌, ◌≤◌, length, reverse, take};
ghost use Rattle.std.specs.Slots.{slots_len, IsFull};

use crate::answers::Counts;
use crate::board::Hand;
use crate::journal::Journal;
use atomic_table::Closed as ClosedTable;
use interleaving_core::CoreEvent;
use morph_base::OpWord;
use std::alloc::Global;
use std::snapshot::Snapshot;

/// A board on which nobody steps any more. Its words do not change, and can be read until it is dropped.
pub struct Closed {
    pub(crate) table: ClosedTable<(), Global>,
    /// The place of the first decision.
    pub(crate) decisions: usize,
    pub(crate) counts: Counts,
    pub(crate) journal: Option<Journal>,
    /// The hand that closed it, as contracts see it: its view has the trails of all hands.
    pub(crate) root: Snapshot<Hand>,
    ghost full: { IsFull table.words },
    ghost slotless: { slots_len table.slots ≡ 0 },
}

impl Drop for Closed {
    fn drop(self) {
        let Closed {
            table,
            decisions: _,
            counts: _,
            journal,
            root: _,
        } = self;
        drop(journal);
        table.free();
    }
}

impl Closed {
    ghost use Rattle.morph_base.specs.declared.plan.Plan.{Plan};
    ghost use Rattle.morph_base.specs.Plans.{op_count, event_count};
    ghost use Rattle.morph_base.specs.Words.{IsWord};
    ghost use Rattle.op_words.specs.declared.trail.View.{View};
    ghost use Rattle.op_words.specs.Closing.{IsClosed, journal_of};
    ghost use Rattle.op_words.specs.Hands.{counts_of};
    ghost use Rattle.op_words.specs.Journals.{IsJournalOf};

    /// The word of an operation.
    pub fn word(&self, op: u32) -> OpWord
        requires op { (p : Plan) × (cap : ℕ) × (counters : ℕ) × (v : View)
            × IsClosed p cap counters v self.now
            × (op < op_count p) }
        ensures in_range { IsWord result }
        ensures word { (p : Plan) (cap counters : ℕ) (v : View)
            (is : IsClosed p cap counters v self.now)
            → op < op_count p → result ≡ is.ends.core.word op }
    {
        OpWord::of_packed(self.table.word(op as usize))
    }

    /// Whether an event was committed. `None` means that it was not decided.
    pub fn decision(&self, event: u32) -> Option<bool>
        requires event { (p : Plan) × (cap : ℕ) × (counters : ℕ) × (v : View)
            × IsClosed p cap counters v self.now
            × (event < event_count p) }
        ensures { (p : Plan) (cap counters : ℕ) (v : View) (is : IsClosed p cap counters v self.now)
            → event < event_count p → result ≡ is.ends.core.decision event }
    {
        let word = self.table.word(self.decisions + event as usize);
        if word == 0 { None } else { Some(word == 1) }
    }

    /// The first of the steps that the root took itself, in order, as many as it had room for. There are none if it
    /// kept no journal. If the root was the only hand made, the machine takes them one after another, and if there was
    /// room for more, they are all the steps.
    pub fn journal(&self) -> &[CoreEvent]
        ensures steps { result.now ≡ journal_of self.now }
        ensures own { (p : Plan) (cap counters : ℕ) (v : View) → IsClosed p cap counters v self.now
            → result.now ≡ take v.room (reverse v.own) }
        ensures few { (p : Plan) (cap counters : ℕ) (v : View) → IsClosed p cap counters v self.now
            → length result.now ≤ v.room }
        ensures leads { (p : Plan) (cap counters : ℕ) (v : View)
            (is : IsClosed p cap counters v self.now) → v.made ≡ 1
            → IsJournalOf p cap v.room result.now is.ends.core }
    {
        match &self.journal {
            Some(journal) => journal.steps(),
            None => &[],
        }
    }

    /// How many operations all hands evaluated, spread and rolled back.
    pub fn counts(&self) -> Counts
        ensures { (p : Plan) (cap counters : ℕ) (v : View) (is : IsClosed p cap counters v self.now)
            → result ≡ counts_of is.ends.history }
    {
        self.counts
    }
}
