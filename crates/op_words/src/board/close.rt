//! The end of a board.
ghost use Rattle.std.specs.Prelude.{◌≡◌, ℕ, ◌<◌, ◌≤◌};
ghost use Rattle.op_words.specs.Closing.{IsJoined, IsClosed};
ghost use Rattle.op_words.specs.Hands.{plan_of, cap_of, counters_of, view_of, IsHandOf};

use super::{Board, Hand};
use crate::closed::Closed;
use morph_base::Plan;
use std::snapshot::Snapshot;

impl Board {
    /// Ends the board, once every other hand is joined into the root.
    pub fn close(self, plan: &Plan, root: Hand) -> Closed
        requires root { IsHandOf self root }
        requires plan { plan.now ≡ plan_of self }
        requires tag { (view_of root).tag ≡ 1 }
        requires joined { (t : ℕ) → 1 < t → t ≤ (view_of root).made → IsJoined (view_of root) t }
        ensures { IsClosed (plan_of self) (cap_of self) (counters_of self) (view_of root) result }
    {
        let decisions = self.level - plan.events.len();
        let shown = Snapshot::of(&root);
        let Board { table, .. } = self;
        let Hand {
            seat,
            counts,
            journal,
            ..
        } = root;
        Closed {
            table: table.close_with(seat),
            decisions,
            counts,
            journal,
            root: shown,
        }
    }
}
