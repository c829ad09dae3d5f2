//! How long a worker waits for what other workers do.
ghost use Rattle.std.specs.Prelude.{◌≡◌};
ghost use Rattle.op_words.specs.Hands.{IsHandOf, MayBegin};
ghost use Rattle.op_eval.specs.Running.{hand_view};

use crate::runner::Runner;
use morph_base::Plan;
use op_words::Board;
use std::hint::spin_loop;
use std::thread::yield_now;

/// How many looks in vain a worker has for a phase. They take some seconds.
const LOOKS: u32 = 100_000_000;

/// A worker lets other threads run at each look of this number.
const LOOKS_TO_YIELD: u32 = 64;

/// How often a worker that looks in vain for what it waits for looks again, over a whole phase.
#[derive(Drop)]
pub struct Patience {
    looks: u32,
}

impl Patience {
    /// For a worker who is alone, and would wait for nobody. It never looks.
    pub fn none() -> Patience {
        Patience { looks: 0 }
    }

    /// For a worker in one of so many threads: enough looks to outlast the turns of the others, and few enough that
    /// waiting ends. In one thread there is nobody to wait for.
    pub fn among(threads: usize) -> Patience {
        if threads > 1 {
            Patience { looks: LOOKS }
        } else {
            Patience::none()
        }
    }

    /// Whether a look is left.
    pub fn lasts(&self) -> bool {
        self.looks > 0
    }

    /// Looks at the sources of an operation until all are there, or no look is left. A source is there once it has a
    /// value, or once it is settled if that is asked for.
    ///
    /// Without a look left the call returns at once and loads nothing. It says nothing of what it saw: the caller goes
    /// on either way. Of the runner nothing changes that a contract speaks of.
    #[inline(always)]
    pub fn await_sources(
        &mut self,
        board: &Board,
        runner: &mut Runner,
        plan: &Plan,
        op: u32,
        settled: bool,
    )
        requires may { MayBegin board.now runner.old.hand plan.now op }
        ensures hand { IsHandOf board.now runner.new.hand }
        ensures view { hand_view runner.new ≡ hand_view runner.old }
        ensures answers { runner.new.answers ≡ runner.old.answers }
        ensures kept { runner.new.kept ≡ runner.old.kept }
    {
        if self.lasts() {
            self.look(board, runner, plan, op, settled);
        }
    }

    /// Looks at the sources of an operation until all are there, or no look is left.
    fn look(&mut self, board: &Board, runner: &mut Runner, plan: &Plan, op: u32, settled: bool)
        requires may { MayBegin board.now runner.old.hand plan.now op }
        ensures hand { IsHandOf board.now runner.new.hand }
        ensures view { hand_view runner.new ≡ hand_view runner.old }
        ensures answers { runner.new.answers ≡ runner.old.answers }
        ensures kept { runner.new.kept ≡ runner.old.kept }
    {
        while self.looks > 0 {
            if board.has_sources(&mut runner.hand, plan, op, settled) {
                return;
            }
            self.looks -= 1;
            pause(self.looks);
        }
    }
}

/// Lets the processor rest between two looks, or another thread run, by how many looks are left.
fn pause(looks: u32) {
    if looks.is_multiple_of(LOOKS_TO_YIELD) {
        yield_now();
    } else {
        spin_loop();
    }
}
