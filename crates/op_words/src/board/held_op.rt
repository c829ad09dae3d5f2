ghost use Rattle.std.specs.Prelude.{◌≡◌, ◌<◌, ◌≤◌, Some, None, MatchOption};
ghost use Rattle.morph_base.specs.declared.limits.TheConstants.{MAX, READS};
ghost use Rattle.op_words.specs.declared.board.Holding.{Holding as H};
ghost use Rattle.op_words.specs.Hands.{HasHeldValues, HasOneMore, IsBegun};

use super::Holding;
use morph_base::READS;
use std::marker::Model;

/// The operation that a hand holds, if it holds one. To let go of it writes one byte: its values stay in memory until
/// others are put over them.
#[derive(Drop)]
pub(crate) struct HeldOp {
    holding: Holding,
    holds: bool,
}

impl Model for HeldOp {
    ghost use Rattle.std.specs.Prelude.{◌≡◌, Option, Some, None, if◌then◌else◌, length};
    ghost use Rattle.morph_base.specs.declared.limits.TheConstants.{READS};
    ghost use Rattle.op_words.specs.declared.board.Holding.{Holding as H};

    ghost Value = { Option H };

    ghost view = { λ x. if x.holds then Some x.holding else None };

    ghost invariant = { λ x. length x.holding.values ≡ READS };
}

impl HeldOp {
    /// Of a hand that holds nothing.
    pub(super) fn nothing() -> Self
        ensures { result ≡ None }
    {
        HeldOp {
            holding: Holding {
                op: 0,
                attempt: 0,
                count: 0,
                values: [0; READS],
            },
            holds: false,
        }
    }

    /// What is held.
    pub(super) fn get(&self) -> Option<&Holding>
        ensures { MatchOption result (self.now ≡ None) (λ k. self.now ≡ Some k.now) }
    {
        if self.holds {
            Some(&self.holding)
        } else {
            None
        }
    }

    /// Holds an operation at this attempt, without any values.
    pub(super) fn take(&mut self, op: u32, attempt: u8)
        ensures { (k : H) × (self.new ≡ Some k) × IsBegun op attempt k }
    {
        self.holding.op = op;
        self.holding.attempt = attempt;
        self.holding.count = 0;
        self.holds = true;
    }

    /// Adds the value of the next place of the operation that is held.
    pub(super) fn put(&mut self, value: u64)
        requires held { (k : H) × (self.old ≡ Some k) × HasHeldValues k × (k.count < READS) }
        requires value { value ≤ MAX }
        ensures { (k : H) → self.old ≡ Some k
            → (m : H) × (self.new ≡ Some m) × HasOneMore k value m }
    {
        self.holding.put(value);
    }

    /// Holds nothing any more.
    pub(super) fn let_go(&mut self)
        ensures { self.new ≡ None }
    {
        self.holds = false;
    }
}
