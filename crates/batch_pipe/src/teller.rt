ghost use Rattle.std.specs.Prelude.{ℕ, ◌+◌, ◌≤◌, Bool, true};
ghost use Rattle.event_reader.specs.Limits.{input_bytes};
ghost use Rattle.batch_pipe.specs.declared.items.Ran.{Ran};
ghost use Rattle.batch_pipe.specs.Results.{IsResult};

use crate::items::Ran;

/// What takes the results of batches, in the order of the input, each as soon as its batch was run.
pub trait Teller {
    /// That the result of the batch with this number, from 1 on, can be taken next.
    ghost can_take: { Self → (number : ℕ) → Type 0 };

    /// What taking a result does, from the teller before to the answer and the teller after.
    ghost takes: { Self → Ran → Bool → Self → Type 0 };

    /// Takes the result of the next batch. `false` refuses it, and then no further batch is run.
    fn take(&mut self, ran: Ran) -> bool
        requires number { can_take self.old ran.number }
        requires few { ran.number ≤ input_bytes + 1 }
        requires result { IsResult ran }
        ensures { takes self.old ran result self.new };

    /// After a result was taken, that of the next number can be taken.
    ghost goes_on: { (old new : Self) (ran : Ran) → can_take old ran.number → IsResult ran
        → takes old ran true new → can_take new (ran.number + 1) };
}
