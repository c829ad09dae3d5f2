//! What a hand looks for before it takes a value back: the value of one source, and whether all are settled.
ghost use Rattle.std.specs.Prelude.{◌<◌, None};
ghost use Rattle.interleaving_core.specs.Core.{places};
ghost use Rattle.op_words.specs.Grounds.{SourceDoes, OpenDoes};
ghost use Rattle.op_words.specs.Hands.{call_on, MayBegin};

use super::{Board, Hand};
use crate::answers::Stop;
use crate::places::{origin_of, places_of};
use crate::words::is_usable;
use morph_base::{Origin, Plan};

impl Board {
    /// Loads the source at a place, if it is an operation, and returns the source's value. Returns the operation with
    /// its word if that has no value, or is not settled although it is `needed` settled.
    pub(super) fn source_value(
        &self,
        hand: &mut Hand,
        plan: &Plan,
        op: u32,
        j: u8,
        needed: bool,
    ) -> Result<u64, Stop>
        requires may { MayBegin self.now hand.old plan.now op }
        requires in_places { j < places plan.now op }
        ensures { SourceDoes (call_on self.now hand.old hand.new) plan.now op j needed result }
    {
        match origin_of(plan, op, j) {
            Origin::Base(value) => Ok(value),
            Origin::Op(source) => {
                let word = self.look(hand, source);
                if is_usable(word, needed) {
                    Ok(word.value)
                } else {
                    Err(Stop { source, word })
                }
            }
        }
    }

    /// Loads the sources of an operation that are `needed` settled, place by place, up to the first one that is not.
    pub(super) fn open_source(
        &self,
        hand: &mut Hand,
        plan: &Plan,
        op: u32,
        needed: bool,
    ) -> Option<Stop>
        requires may { MayBegin self.now hand.old plan.now op }
        ensures { OpenDoes (call_on self.now hand.old hand.new) plan.now op needed result }
    {
        if !needed {
            return None;
        }
        for k in 0..places_of(plan, op) {
            if let Err(stop) = self.source_value(hand, plan, op, k, true) {
                return Some(stop);
            }
        }
        None
    }
}
