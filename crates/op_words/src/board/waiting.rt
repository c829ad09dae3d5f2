//! What a worker looks at while it waits, or before it evaluates an operation. The hand notes none of these loads, so
//! its view stays as it was.
ghost use Rattle.std.specs.Prelude.{◌≡◌, ◌<◌};
ghost use Rattle.morph_base.specs.Plans.{op_count};
ghost use Rattle.op_words.specs.Hands.{plan_of, view_of, IsHandOf, MayCall};

use super::{Board, Hand};
use crate::places::{origin_of, places_of};
use crate::rule::LoadUnnoted;
use crate::words::is_usable;
use morph_base::{OpWord, Origin, Plan};

impl Board {
    /// Whether each source of an operation has a value, or is settled if that is asked for. A base is always there.
    ///
    /// The call loads the words of the sources, place by place, up to the first one that is not there. The answer is
    /// for a worker that would wait, and nothing rests on it: the hand notes no load, and another hand may change a
    /// word right afterwards.
    pub fn has_sources(&self, hand: &mut Hand, plan: &Plan, op: u32, settled: bool) -> bool
        requires may { MayCall self.now hand.old plan.now op }
        ensures hand { IsHandOf self.now hand.new }
        ensures view { view_of hand.new ≡ view_of hand.old }
    {
        for j in 0..places_of(plan, op) {
            if let Origin::Op(source) = origin_of(plan, op, j)
                && !self.is_there(hand, source, settled)
            {
                return false;
            }
        }
        true
    }

    /// Loads the word of an operation, and returns whether it has a value, or is settled if that is asked for.
    fn is_there(&self, hand: &mut Hand, op: u32, settled: bool) -> bool
        requires hand { IsHandOf self.now hand.old }
        requires in_range { op < op_count (plan_of self.now) }
        ensures hand { IsHandOf self.now hand.new }
        ensures view { view_of hand.new ≡ view_of hand.old }
    {
        let n = self.glance(hand, op as usize);
        match OpWord::unpack(n) {
            Some(word) => is_usable(word, settled),
            None => false,
        }
    }

    /// Loads what evaluating an operation begins with, so that the processor has it at hand by then: the operation's
    /// word, the record of its first place, and the word of this place's source.
    ///
    /// The hand notes no load, and nothing rests on what they find.
    pub fn preload(&self, hand: &mut Hand, plan: &Plan, op: u32)
        requires may { MayCall self.now hand.old plan.now op }
        ensures hand { IsHandOf self.now hand.new }
        ensures view { view_of hand.new ≡ view_of hand.old }
    {
        self.glance(hand, op as usize);
        self.glance(hand, plan.ops.len() + plan.ops.places_before(op as usize));
        if let Origin::Op(source) = origin_of(plan, op, 0) {
            self.glance(hand, source as usize);
        }
    }

    /// Loads a number of the table. The view does not note this load.
    fn glance(&self, hand: &mut Hand, index: usize) -> u64
        requires hand { IsHandOf self.now hand.old }
        requires in_range { index < self.now.table.shared.table_id.words }
        ensures hand { IsHandOf self.now hand.new }
        ensures view { view_of hand.new ≡ view_of hand.old }
    {
        self.table.shared.load::<LoadUnnoted>(&mut hand.seat, index)
    }
}
