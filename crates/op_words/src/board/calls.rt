//! The board's first calls: a new board, its hands, and the way of an operation from ready to finished. Each call is
//! made of the single steps in `steps`.
ghost use Rattle.std.specs.Prelude.{◌≡◌, ℕ, ◌+◌, ◌<◌, ◌↔◌, List, length, None, IfOk, IsTrue};
ghost use Rattle.morph_base.specs.Limits.{most_attempts, most_workers};
ghost use Rattle.morph_base.specs.Plans.{IsPlan, origin_at};
ghost use Rattle.morph_base.specs.declared.plan.Origin.TheVariants.{Op as Written};
ghost use Rattle.morph_base.specs.Words.{IsWord};
ghost use Rattle.interleaving_core.specs.Core.{places};
ghost use Rattle.op_words.specs.Views.{Holds, IsFresh, looked, parent, child, merged};
ghost use Rattle.op_words.specs.Calls.{PeekDoes, MakeDoes, ClaimDoes, FetchDoes, FinishDoes, GiveBackDoes};
ghost use Rattle.op_words.specs.Rule.{first_view};
ghost use Rattle.op_words.specs.Hands.{plan_of, cap_of, counters_of, view_of, IsHandOf, MayBegin, MayCall};

use super::{Board, Hand, HeldOp};
use crate::answers::{Claimed, Counts, Fetched, Outcome, Readied};
use crate::places::origin_of;
use crate::rule::{JoinHand, Known, SplitHand};
use crate::words::{first_words, is_in, is_usable};
use atomic_table::Table;
use morph_base::{OpState, OpWord, Origin, OutOfMemory, Plan};
use std::alloc::Global;
use std::snapshot::Snapshot;

impl Board {
    /// Makes a board, on which each operation of the plan is blocked at attempt 1, nothing is recorded or decided, and
    /// each counter is 0. Returns it with its first hand, the root. An operation has at most `cap` + 1 attempts.
    ///
    /// The plan is valid, with its bases filled in. All memory that steps need is taken here.
    pub fn new(
        alloc: Global,
        plan: &Plan,
        cap: u8,
        counters: u32,
    ) -> Result<(Board, Hand), OutOfMemory>
        requires plan { IsPlan plan.now }
        requires cap { cap < most_attempts }
        ensures plan { IfOk result (λ r. plan_of r.0 ≡ plan.now) }
        ensures cap { IfOk result (λ r. cap_of r.0 ≡ cap) }
        ensures counters { IfOk result (λ r. counters_of r.0 ≡ counters) }
        ensures hand { IfOk result (λ r. IsHandOf r.0 r.1) }
        ensures view { IfOk result (λ r. view_of r.1 ≡ first_view r.0.table.shared.key.plan cap) }
    {
        let words = first_words(alloc, plan, counters)?;
        let level = words.len() - counters as usize - 1;
        let known = Known {
            plan: Snapshot::of(plan),
            cap,
            counters,
        };
        let (table, seat) = Table::of_words(alloc, words.as_slice(), &known)?;
        let root = Hand {
            seat,
            tag: 1,
            made: 1,
            held: HeldOp::nothing(),
            counts: Counts::none(),
            journal: None,
        };
        Ok((Board { table, cap, level }, root))
    }

    /// Loads the word of an operation. It is no older than what the hand saw or made of the operation.
    pub fn peek(&self, hand: &mut Hand, plan: &Plan, op: u32) -> OpWord
        requires may { MayCall self.now hand.old plan.now op }
        ensures hand { IsHandOf self.now hand.new }
        ensures view { view_of hand.new ≡ looked op result (view_of hand.old) }
        ensures word { IsWord result }
        ensures fresh { IsFresh (view_of hand.old) op result }
        ensures answer { (view_of hand.old).claim ≡ None
            → PeekDoes plan.now (cap_of self.now) op (view_of hand.old) (view_of hand.new) result }
    {
        self.look(hand, op)
    }

    /// Splits off a new hand. Its tag is one more than the number of hands made so far. It starts with the root's notes
    /// and decisions and nothing else.
    pub fn split(&self, root: &mut Hand) -> Hand
        requires hand { IsHandOf self.now root.old }
        requires root { (view_of root.old).tag ≡ 1 }
        requires few { (view_of root.old).made < most_workers }
        ensures root { IsHandOf self.now root.new }
        ensures hand { IsHandOf self.now result }
        ensures parent { view_of root.new ≡ parent (view_of root.old) }
        ensures child { view_of result ≡ child (view_of root.old) }
    {
        let seat = self.table.shared.split_seat::<SplitHand>(&mut root.seat);
        root.made += 1;
        Hand {
            seat,
            tag: root.made,
            made: 0,
            held: HeldOp::nothing(),
            counts: Counts::none(),
            journal: None,
        }
    }

    /// Joins a hand that holds nothing into the root. The root gets its lists, and keeps its trail under its tag.
    pub fn join(&self, root: &mut Hand, other: Hand)
        requires hand { IsHandOf self.now root.old }
        requires root { (view_of root.old).tag ≡ 1 }
        requires other { IsHandOf self.now other }
        requires free { (view_of other).claim ≡ None }
        ensures hand { IsHandOf self.now root.new }
        ensures view { view_of root.new ≡ merged (view_of root.old) (view_of other) }
    {
        let Hand { seat, counts, .. } = other;
        self.table
            .shared
            .join_seat::<JoinHand>(&mut root.seat, seat);
        root.counts = root.counts.and(counts);
        self.tell(&mut root.seat);
    }

    /// Makes a blocked operation ready, if each of its sources has a value.
    ///
    /// The call loads the operation's word and then, as long as nothing stops it, those of its sources, place by place.
    /// The exchange comes last.
    pub fn ready(&self, hand: &mut Hand, plan: &Plan, op: u32) -> Readied
        requires may { MayBegin self.now hand.old plan.now op }
        ensures hand { IsHandOf self.now hand.new }
        ensures answer { MakeDoes plan.now (cap_of self.now) op (view_of hand.old)
            (view_of hand.new) result }
    {
        let word = self.look(hand, op);
        if !is_in(word, OpState::Blocked) {
            return Readied::Not { at: op, word };
        }
        if let Some(idle) = self.idle_source(hand, plan, op) {
            return Readied::Not {
                at: idle.source,
                word: idle.word,
            };
        }
        match self.make(hand, op, word.attempt) {
            None => Readied::Made,
            Some(word) => Readied::Not { at: op, word },
        }
    }

    /// Claims a ready operation, for a hand that holds nothing.
    pub fn claim(&self, hand: &mut Hand, plan: &Plan, op: u32) -> Claimed
        requires may { MayBegin self.now hand.old plan.now op }
        ensures hand { IsHandOf self.now hand.new }
        ensures answer { ClaimDoes plan.now (cap_of self.now) op (view_of hand.old)
            (view_of hand.new) result }
    {
        let word = self.look(hand, op);
        if !is_in(word, OpState::Ready) {
            return Claimed::Not { word };
        }
        match self.hold(hand, op, word.attempt) {
            None => Claimed::Held {
                attempt: word.attempt,
            },
            Some(word) => Claimed::Not { word },
        }
    }

    /// Fetches the value of the next place of the operation that the hand holds, and records it.
    ///
    /// A value need not be settled, except at the last attempt.
    pub fn fetch(&self, hand: &mut Hand, plan: &Plan, op: u32, j: u8) -> Fetched
        requires may { MayCall self.now hand.old plan.now op }
        requires in_places { j < places plan.now op }
        requires held { (a : ℕ) × (xs : List ℕ) × Holds (view_of hand.old) op a xs
            × (length xs ≡ j) }
        ensures hand { IsHandOf self.now hand.new }
        ensures answer { FetchDoes plan.now (cap_of self.now) op (view_of hand.old)
            (view_of hand.new) j result }
    {
        match origin_of(plan, op, j) {
            Origin::Base(value) => {
                self.keep(hand, plan, value);
                Fetched::Value(value)
            }
            Origin::Op(source) => self.read(hand, plan, op, j, source),
        }
    }

    /// Fetches the value of a place whose source is an operation: loads its word, and takes its value if it may be
    /// read.
    fn read(&self, hand: &mut Hand, plan: &Plan, op: u32, j: u8, source: u32) -> Fetched
        requires may { MayCall self.now hand.old plan.now op }
        requires in_places { j < places plan.now op }
        requires held { (a : ℕ) × (xs : List ℕ) × Holds (view_of hand.old) op a xs
            × (length xs ≡ j) }
        requires source { origin_at plan.now op j ≡ Written source }
        ensures hand { IsHandOf self.now hand.new }
        ensures answer { FetchDoes plan.now (cap_of self.now) op (view_of hand.old)
            (view_of hand.new) j result }
    {
        let word = self.look(hand, source);
        let Some(holding) = hand.held.get() else {
            unreachable!()
        };
        if !is_usable(word, self.is_last(holding.attempt)) {
            return Fetched::Unready { source, word };
        }
        self.keep(hand, plan, word.value);
        Fetched::Value(word.value)
    }

    /// Whether the attempt is the last one, at which only settled values are read.
    fn is_last(&self, attempt: u8) -> bool
        requires { cap_of self.now < most_attempts }
        ensures { IsTrue result ↔ (attempt ≡ cap_of self.now + 1) }
    {
        attempt == self.cap + 1
    }

    /// Finishes the operation that the hand holds, once all its places were fetched. It is executed with the value that
    /// its function gives, or failed with the value of its target. The hand holds nothing afterwards.
    pub fn finish(&self, hand: &mut Hand, plan: &Plan, op: u32) -> Outcome
        requires may { MayCall self.now hand.old plan.now op }
        requires held { (a : ℕ) × (xs : List ℕ) × Holds (view_of hand.old) op a xs
            × (length xs ≡ places plan.now op) }
        ensures hand { IsHandOf self.now hand.new }
        ensures answer { FinishDoes plan.now (cap_of self.now) op (view_of hand.old)
            (view_of hand.new) result }
    {
        let Some(holding) = hand.held.get() else {
            unreachable!()
        };
        let answer = holding.answer(plan);
        let word = holding.word(answer);
        self.end(hand, op, word);
        Outcome::of(answer)
    }

    /// Gives back the operation that the hand holds: it is blocked again, at the same attempt. The hand holds nothing
    /// afterwards.
    pub fn give_back(&self, hand: &mut Hand, plan: &Plan, op: u32)
        requires may { MayCall self.now hand.old plan.now op }
        requires held { (a : ℕ) × (xs : List ℕ) × Holds (view_of hand.old) op a xs }
        ensures hand { IsHandOf self.now hand.new }
        ensures view { GiveBackDoes plan.now (cap_of self.now) op (view_of hand.old)
            (view_of hand.new) }
    {
        let Some(holding) = hand.held.get() else {
            unreachable!()
        };
        let attempt = holding.attempt;
        self.give(hand, op, attempt);
    }
}
