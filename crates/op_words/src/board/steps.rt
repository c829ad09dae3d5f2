//! The single steps of a hand on the table.
ghost use Rattle.std.specs.Prelude.{◌≡◌, ℕ, ◌≤◌, ◌<◌, List, [], length, Some, None};
ghost use Rattle.morph_base.specs.declared.limits.TheConstants.{MAX};
ghost use Rattle.morph_base.specs.Plans.{op_at, op_count, origin_at};
ghost use Rattle.morph_base.specs.Words.{IsWord};
ghost use Rattle.interleaving_core.specs.Core.{blocked as blocked_at, ready as ready_at};
ghost use Rattle.interleaving_core.specs.Core.{claimed as claimed_at, finished, places};
ghost use Rattle.op_words.specs.declared.trail.View.{View as V};
ghost use Rattle.op_words.specs.Trails.{left};
ghost use Rattle.op_words.specs.Views.{Holds, IsLone, making, claiming, finishing, giving_back};
ghost use Rattle.op_words.specs.Plays.{IsTold};
ghost use Rattle.op_words.specs.Stepping.{IsPlaceKept, Looked, Left, Swapped};
ghost use Rattle.op_words.specs.Kinds.{IsUsable};
ghost use Rattle.op_words.specs.Hands.{plan_of, cap_of, view_of, call_on, IsHandOf};

use super::{Board, Hand};
use crate::answers::Counts;
use crate::note::note;
use crate::rule::{Claim, End, Give, Keep, LoadUnnoted, LoadWord, Make};
use crate::trail::View;
use crate::words::{claimed, pack_record, ready};
use atomic_table::Seat;
use interleaving_core::CoreEvent;
use morph_base::{OpWord, Plan};

impl Board {
    /// Loads an operation's word.
    pub(super) fn look(&self, hand: &mut Hand, op: u32) -> OpWord
        requires hand { IsHandOf self.now hand.old }
        requires in_range { op < op_count (plan_of self.now) }
        ensures { Looked (call_on self.now hand.old hand.new) op result }
    {
        let n = self
            .table
            .shared
            .load::<LoadWord>(&mut hand.seat, op as usize);
        OpWord::of_packed(n)
    }

    /// Loads the first word. The view does not note this load.
    pub(super) fn tell(&self, seat: &mut Seat<(), Option<View>>)
        requires table { seat.old.table_id ≡ self.now.table.shared.table_id }
        requires live { (v : V) × (seat.old.me.0 ≡ Some v) }
        ensures table { seat.new.table_id ≡ seat.old.table_id }
        ensures same { seat.new.me ≡ seat.old.me }
        ensures told { (v : V) → seat.old.me.0 ≡ Some v → IsTold v }
        ensures lone { (v : V) → seat.old.me.0 ≡ Some v → IsLone v → v.joined ≡ [] }
    {
        self.table.shared.load::<LoadUnnoted>(seat, 0);
    }

    /// Exchanges blocked for ready. Returns the word that was found, if it is another one.
    pub(super) fn make(&self, hand: &mut Hand, op: u32, attempt: u8) -> Option<OpWord>
        requires hand { IsHandOf self.now hand.old }
        requires in_range { op < op_count (plan_of self.now) }
        requires word { IsWord (blocked_at attempt) }
        ensures { Swapped (call_on self.now hand.old hand.new) op (blocked_at attempt)
            (making op attempt (view_of hand.old)) (ready_at attempt) result }
    {
        let (first, new) = (OpWord::blocked(attempt).pack(), ready(attempt).pack());
        let found = self
            .table
            .shared
            .compare_exchange::<Make>(&mut hand.seat, op as usize, first, new);
        if found == first {
            note(&mut hand.journal, CoreEvent::Ready { op });
            return None;
        }
        let Some(word) = OpWord::unpack(found) else {
            unreachable!()
        };
        Some(word)
    }

    /// Exchanges ready for claimed, for a hand that holds nothing. Returns the word that was found, if it is another
    /// one.
    #[inline(always)]
    pub(super) fn hold(&self, hand: &mut Hand, op: u32, attempt: u8) -> Option<OpWord>
        requires hand { IsHandOf self.now hand.old }
        requires in_range { op < op_count (plan_of self.now) }
        requires word { IsWord (ready_at attempt) }
        requires free { (view_of hand.old).claim ≡ None }
        ensures { Swapped (call_on self.now hand.old hand.new) op (ready_at attempt)
            (claiming op attempt (view_of hand.old))
            (claimed_at attempt (view_of hand.old).tag) result }
    {
        let (first, new) = (ready(attempt).pack(), claimed(attempt, hand.tag).pack());
        let found = self
            .table
            .shared
            .compare_exchange::<Claim>(&mut hand.seat, op as usize, first, new);
        if found == first {
            hand.held.take(op, attempt);
            note(&mut hand.journal, CoreEvent::Claim { op, by: hand.tag });
            return None;
        }
        let Some(word) = OpWord::unpack(found) else {
            unreachable!()
        };
        Some(word)
    }

    /// Stores blocked over claimed, for the hand that holds the operation: nobody else changes its word meanwhile.
    pub(super) fn give(&self, hand: &mut Hand, op: u32, attempt: u8)
        requires hand { IsHandOf self.now hand.old }
        requires in_range { op < op_count (plan_of self.now) }
        requires held { (xs : List ℕ) × Holds (view_of hand.old) op attempt xs }
        requires word { IsWord (blocked_at attempt) }
        ensures { Left (call_on self.now hand.old hand.new) (giving_back op attempt (view_of hand.old))
            (left op (blocked_at attempt)) }
    {
        let word = OpWord::blocked(attempt).pack();
        self.table
            .shared
            .store::<Give>(&mut hand.seat, op as usize, word);
        hand.held.let_go();
        note(&mut hand.journal, CoreEvent::GiveBack { op, by: hand.tag });
    }

    /// Stores a record: the next place of the operation that the hand holds gets the value.
    pub(super) fn keep(&self, hand: &mut Hand, plan: &Plan, value: u64)
        requires hand { IsHandOf self.now hand.old }
        requires plan { plan.now ≡ plan_of self.now }
        requires value { value ≤ MAX }
        requires held { (o a : ℕ) × (xs : List ℕ) × Holds (view_of hand.old) o a xs
            × (o < op_count plan.now)
            × (length xs < places plan.now o)
            × IsUsable (view_of hand.old) (cap_of self.now) a
            (origin_at plan.now o (length xs)) value }
        ensures { (o a : ℕ) (xs : List ℕ) → Holds (view_of hand.old) o a xs
            → IsPlaceKept (call_on self.now hand.old hand.new) o a xs value }
    {
        let Some(holding) = hand.held.get() else {
            unreachable!()
        };
        let place = plan.ops.places_before(holding.op as usize) + holding.count as usize;
        let record = pack_record(value, holding.attempt);
        let step = CoreEvent::Fetch {
            op: holding.op,
            j: holding.count,
            by: hand.tag,
            value,
        };
        hand.held.put(value);
        self.table
            .shared
            .store::<Keep>(&mut hand.seat, plan.ops.len() + place, record);
        note(&mut hand.journal, step);
    }

    /// Stores executed or failed over claimed, for the hand that holds the operation: nobody else changes its word
    /// meanwhile.
    pub(super) fn end(&self, hand: &mut Hand, op: u32, word: OpWord)
        requires hand { IsHandOf self.now hand.old }
        requires in_range { op < op_count (plan_of self.now) }
        requires held { (a : ℕ) × (xs : List ℕ) × Holds (view_of hand.old) op a xs
            × (length xs ≡ places (plan_of self.now) op)
            × (word ≡ finished (op_at (plan_of self.now) op).op a xs) }
        requires word { IsWord word }
        ensures { (a : ℕ) (xs : List ℕ) → Holds (view_of hand.old) op a xs
            → Left (call_on self.now hand.old hand.new)
            (finishing op word xs (view_of hand.old)) (left op word) }
    {
        let n = word.pack();
        self.table
            .shared
            .store::<End>(&mut hand.seat, op as usize, n);
        hand.held.let_go();
        hand.counts = hand.counts.and(Counts {
            evaluated: 1,
            spread: 0,
            rolled: 0,
        });
        note(&mut hand.journal, CoreEvent::Finish { op, by: hand.tag });
    }
}
