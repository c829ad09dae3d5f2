ghost use Rattle.std.specs.Prelude.{◌≡◌, ◌<◌, ◌↔◌, List, IfOk};
ghost use Rattle.morph_base.specs.Limits.{most_attempts};
ghost use Rattle.morph_base.specs.Plans.{IsPlan};
ghost use Rattle.interleaving_core.specs.declared.event.Step.TheVariants.{Taken, Refused};
ghost use Rattle.interleaving_core.specs.Core.{start};
ghost use Rattle.interleaving_core.specs.Steps.{May, after};
ghost use Rattle.interleaving_core.specs.Stored.{core_of, cap_of, word_count, decision_count, IsStateOf};

use crate::claim::Claim;
use crate::entry::{Record, Settling};
use crate::event::{CoreEvent, Step};
use morph_base::{List, OpWord, OutOfMemory, Plan, READS, WORKERS};
use published::Published;
use std::alloc::Global;

mod answers;
mod effects;
mod guards;
mod published;
mod reads;
mod steps;

/// The state of the machine on plain data, for one plan.
///
/// ```text
/// let mut state = CoreState::new(alloc, &plan, 7)?;
/// state.step(&plan, &CoreEvent::Ready { op: 0 });      // Taken
/// state.step(&plan, &CoreEvent::Finish { op: 0, by: 1 });  // Refused: nobody has claimed it
/// ```
#[derive(Debug)]
pub struct CoreState {
    /// The last attempt at which values that are not settled may be read.
    cap: u8,
    words: List<OpWord>,
    /// The places of operation 0, then those of operation 1 and so on, [`READS`] of each.
    records: List<Option<Record>>,
    /// The claims by worker, from 1 on.
    claims: List<Option<Claim>>,
    decisions: List<Option<bool>>,
    published: Published,
    settlings: List<Settling>,
}

// Not derived: see "What costs" in docs/CONTRIBUTING.md.
impl Drop for CoreState {
    fn drop(self) {
        let CoreState {
            cap: _,
            words: _,
            records: _,
            claims: _,
            decisions: _,
            published: _,
            settlings: _,
        } = self;
    }
}

impl CoreState {
    /// Makes the state at the start, in which every operation is blocked at attempt 1. Operations have at most `cap` +
    /// 1 attempts.
    ///
    /// All memory that steps ever need is taken here.
    pub fn new(alloc: Global, plan: &Plan, cap: u8) -> Result<CoreState, OutOfMemory>
        requires plan { IsPlan plan.now }
        requires cap { cap < most_attempts }
        ensures state { IfOk result (λ state. IsStateOf plan.now state) }
        ensures cap { IfOk result (λ state. cap_of state ≡ cap) }
        ensures start { IfOk result (λ state. core_of state ≡ start) }
    {
        let ops = plan.ops.len();
        Ok(CoreState {
            cap,
            words: List::filled(alloc, ops, OpWord::blocked(1))?,
            records: List::filled(alloc, ops * READS, None)?,
            claims: List::filled(alloc, WORKERS as usize + 1, None)?,
            decisions: List::filled(alloc, plan.events.len(), None)?,
            published: Published::new(alloc, ops, ops * (cap as usize + 1))?,
            settlings: List::with_room(alloc, ops)?,
        })
    }

    /// Makes a step, if it may be made: its numbers are in range, the state that it goes from is there, and its guard
    /// holds. Else it is refused, and nothing changes. Numbers are in range if operation and event are the plan's, the
    /// place is one that the operation reads, the worker is from 1 to [`WORKERS`], and the sibling is another operation
    /// of the same event.
    ///
    /// It takes no memory.
    pub fn step(&mut self, plan: &Plan, event: &CoreEvent) -> Step
        requires plan { IsPlan plan.now }
        requires state { IsStateOf plan.now self.old }
        ensures taken { (result ≡ Taken)
            ↔ May plan.now (cap_of self.old) (core_of self.old) event.now }
        ensures next { result ≡ Taken
            → core_of self.new ≡ after plan.now (core_of self.old) event.now }
        ensures refused { result ≡ Refused → self.new ≡ self.old }
        ensures state { IsStateOf plan.now self.new }
        ensures cap { cap_of self.new ≡ cap_of self.old }
    {
        if !self.may(plan, event) {
            return Step::Refused;
        }
        self.make(plan, event);
        Step::Taken
    }

    /// The word of an operation of the plan.
    pub fn word(&self, op: u32) -> OpWord
        requires { op < word_count self.now }
        ensures { result ≡ (core_of self.now).word op }
    {
        *self.words.get(op as usize)
    }

    /// Whether an event of the plan commits. `None` means that it is not decided.
    pub fn decision(&self, event: u32) -> Option<bool>
        requires { event < decision_count self.now }
        ensures { result ≡ (core_of self.now).decision event }
    {
        *self.decisions.get(event as usize)
    }
}
