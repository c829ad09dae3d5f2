//! Loads the sources of an operation, place by place.
ghost use Rattle.std.specs.Prelude.{◌<◌, None};
ghost use Rattle.interleaving_core.specs.Core.{places};
ghost use Rattle.op_words.specs.Stepping.{Sought, SoughtAt};
ghost use Rattle.op_words.specs.Hands.{call_on, MayBegin};

use super::{Board, Hand};
use crate::answers::Stop;
use crate::places::places_of;
use morph_base::Plan;

impl Board {
    /// Loads the sources of an operation, place by place, and returns the first one that has no value.
    pub(super) fn idle_source(&self, hand: &mut Hand, plan: &Plan, op: u32) -> Option<Stop>
        requires may { MayBegin self.now hand.old plan.now op }
        ensures { Sought (call_on self.now hand.old hand.new) plan.now op result }
    {
        for j in 0..places_of(plan, op) {
            if let Some(stop) = self.idle_at(hand, plan, op, j) {
                return Some(stop);
            }
        }
        None
    }

    /// Loads the source at a place, if it is an operation, and returns it if it has no value.
    fn idle_at(&self, hand: &mut Hand, plan: &Plan, op: u32, j: u8) -> Option<Stop>
        requires may { MayBegin self.now hand.old plan.now op }
        requires in_places { j < places plan.now op }
        ensures { SoughtAt (call_on self.now hand.old hand.new) plan.now op j result }
    {
        self.source_value(hand, plan, op, j, false).err()
    }
}
