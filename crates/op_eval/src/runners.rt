ghost use Rattle.std.specs.Prelude.{◌≡◌, ℕ, ◌+◌, ◌-◌, ◌<◌, ◌≤◌, ◌↔◌, ◌++◌, ◌∷◌, [], All, None, IsNone};
ghost use Rattle.std.specs.Prelude.{IfSome, IfOk, length, map, drop, max, reverse, slice_set, slice_index_or};
ghost use Rattle.std.specs.Borrow.{sem};
ghost use Rattle.morph_base.specs.Limits.{most_workers};
ghost use Rattle.op_words.specs.Hands.{view_of, IsHandOf};
ghost use Rattle.op_eval.specs.declared.runner.Runner.{Runner as R};
ghost use Rattle.op_eval.specs.Running.{hand_view, no_answers};
ghost use Rattle.op_eval.specs.Gathering.{runners_of, spare, gathered, HasPlaces, AreNew, AreAtRest};

use crate::answers::{Answers, Left};
use crate::runner::Runner;
use morph_base::{List, OutOfMemory, WORKERS};
use op_words::{Board, Hand};
use std::alloc::Global;

/// The runners of a board, worker 1 first. Worker 1 has the root.
///
/// What the runners hold may be changed at will: [`Runners::gather`] states what it needs of them.
pub struct Runners {
    runners: List<Runner>,
    /// The list that [`Runners::gather`] fills.
    left: List<List<Left>>,
}

// Not derived: see "What costs" in docs/CONTRIBUTING.md.
impl Drop for Runners {
    fn drop(self) {
        let Runners {
            runners: _,
            left: _,
        } = self;
    }
}

/// Makes this many empty lists, each with room for what `events` events leave. Their list has room for one for each
/// worker that there can be.
fn empty_lists(alloc: Global, count: usize, events: usize) -> Result<List<List<Left>>, OutOfMemory>
    ensures len { IfOk result (λ lists. length lists.items ≡ count) }
    ensures empty { IfOk result
        (λ lists. All (λ list. (list.items ≡ []) × (events ≤ list.room)) lists.items) }
    ensures room { IfOk result (λ lists. lists.room + count ≡ max count most_workers) }
{
    let mut lists = List::with_room(alloc, count.max(WORKERS as usize))?;
    'lists: for _ in 0..count {
        lists.add(List::with_room(alloc, events)?);
    }
    Ok(lists)
}

/// Makes a runner that was asked nothing yet.
fn begin(hand: Hand, kept: List<Left>) -> Runner
    ensures { result ≡ record { hand = hand; answers = no_answers; kept = kept } }
{
    Runner {
        hand,
        answers: Answers::none(),
        kept,
    }
}

/// Makes a runner of the root and of each hand that the root splits off, one for each list, in order.
fn seat_all(board: &Board, root: Hand, runners: &mut List<Runner>, lists: &mut List<List<Left>>)
    requires root { IsHandOf board.now root }
    requires tag { (view_of root).tag ≡ 1 }
    requires some { 0 < length lists.old.items }
    requires few { length lists.old.items + (view_of root).made ≤ most_workers + 1 }
    requires none { runners.old.items ≡ [] }
    requires room { length lists.old.items ≤ runners.old.room }
    ensures new { (events : ℕ)
        → All (λ list. (list.items ≡ []) × (events ≤ list.room)) lists.old.items
        → AreNew board.now (view_of root) (length lists.old.items) events runners.new.items }
    ensures full { runners.old.room ≡ runners.new.room + length lists.old.items }
    ensures empty { lists.new.items ≡ [] }
    ensures places { lists.new.room ≡ lists.old.room + length lists.old.items }
{
    let mut root = root;
    'hands: for _ in 1..lists.len() {
        let Some(kept) = lists.pop() else {
            unreachable!()
        };
        let hand = board.split(&mut root);
        runners.add(begin(hand, kept));
    }
    let Some(kept) = lists.pop() else {
        unreachable!()
    };
    runners.add(begin(root, kept));
    runners.as_mut_slice().rotate_right(1);
}

/// Joins the hands of runners into the root, the last one first, and puts what each runner left into the list.
fn join_all(board: &Board, root: &mut Hand, runners: &mut List<Runner>, left: &mut List<List<Left>>)
    requires root { IsHandOf board.now root.old }
    requires tag { (view_of root.old).tag ≡ 1 }
    requires hands { All (λ r. IsHandOf board.now r.hand) runners.old.items }
    requires free { All (λ r. (hand_view r).claim ≡ None) runners.old.items }
    requires room { length runners.old.items ≤ left.old.room }
    ensures root { IsHandOf board.now root.new }
    ensures view { view_of root.new ≡ gathered (view_of root.old)
        (map hand_view (reverse runners.old.items)) }
    ensures left { left.new.items ≡ left.old.items
        ++ map (λ r. r.kept) (reverse runners.old.items) }
    ensures places { left.old.room ≡ left.new.room + length runners.old.items }
{
    'joins: for _ in 0..runners.len() {
        let Some(Runner { hand, kept, .. }) = runners.pop() else {
            unreachable!()
        };
        board.join(root, hand);
        left.add(kept);
    }
}

impl Runners {
    ghost use Rattle.morph_base.specs.Plans.{event_count};
    ghost use Rattle.op_words.specs.Hands.{plan_of};
    ghost use Rattle.op_eval.specs.Exploring.{MayExplore};
    ghost use Rattle.op_eval.specs.Lending.{LendsRunner, LendsRunners};

    /// Makes a runner for each worker from 1 to `workers`, with room for what `events` events leave. The first has the
    /// root, and each other one a hand that the root splits off here.
    ///
    /// It takes its memory first. If that is refused, the root is dropped and no hand was made. A batch can be explored
    /// with these runners if the root took no number from a counter yet.
    pub fn new(
        alloc: Global,
        board: &Board,
        root: Hand,
        workers: u32,
        events: u32,
    ) -> Result<Runners, OutOfMemory>
        requires root { IsHandOf board.now root }
        requires tag { (view_of root).tag ≡ 1 }
        requires some { 1 ≤ workers }
        requires few { workers + (view_of root).made ≤ most_workers + 1 }
        ensures places { IfOk result HasPlaces }
        ensures full { IfOk result (λ runners. spare runners ≡ 0) }
        ensures new { IfOk result
            (λ runners. AreNew board.now (view_of root) workers events (runners_of runners)) }
        ensures rest { IfOk result (λ runners. (view_of root).claim ≡ None
            → AreAtRest board.now (runners_of runners)) }
        ensures fresh { IfOk result (λ runners. (view_of root).claim ≡ None
            → (view_of root).places ≡ []
            → event_count (plan_of board.now) ≤ events → MayExplore board.now 0 runners) }
    {
        let mut runners = List::with_room(alloc, workers as usize)?;
        let mut left = empty_lists(alloc, workers as usize, events as usize)?;
        seat_all(board, root, &mut runners, &mut left);
        Ok(Runners { runners, left })
    }

    /// Lends the runner of a number, if it is there.
    pub fn runner(&mut self, number: u32) -> &mut Runner
        requires some { 1 ≤ number }
        requires inside { number ≤ length (runners_of self.old) }
        ensures* lends { sem 𝓛 (LendsRunner self.entry number result) }
        ensures item { (d : R) → result.now ≡ slice_index_or (runners_of self.old) (number - 1) d }
    {
        self.runners.get_mut(number as usize - 1)
    }

    /// Lends all runners.
    pub fn as_mut_slice(&mut self) -> &mut [Runner]
        ensures* lends { sem 𝓛 (LendsRunners self.entry result) }
        ensures items { result.now ≡ runners_of self.old }
    {
        self.runners.as_mut_slice()
    }

    /// Takes out the runner of the greatest number. `None` means that there is none.
    pub fn pop(&mut self) -> Option<Runner>
        ensures empty { IsNone result ↔ (runners_of self.old ≡ []) }
        ensures last { IfSome result
            (λ runner. runners_of self.old ≡ runners_of self.new ++ runner ∷ []) }
        ensures none { IsNone result → runners_of self.new ≡ runners_of self.old }
        ensures spare { IfSome result (λ _. spare self.new ≡ spare self.old + 1) }
        ensures places { HasPlaces self.old → HasPlaces self.new }
    {
        self.runners.pop()
    }

    /// Adds a runner after the others, if fewer are there than were made.
    pub fn add(&mut self, runner: Runner)
        requires { 0 < spare self.old }
        ensures items { runners_of self.new ≡ runners_of self.old ++ runner ∷ [] }
        ensures spare { spare self.old ≡ spare self.new + 1 }
        ensures places { HasPlaces self.old → HasPlaces self.new }
    {
        self.runners.add(runner);
    }

    /// Joins the hands of the others into the root, and returns the root and what each runner left, worker 1 first. It
    /// takes no memory.
    pub fn gather(self, board: &Board) -> (Hand, List<List<Left>>)
        requires places { HasPlaces self }
        requires rest { AreAtRest board.now (runners_of self) }
        ensures hand { IsHandOf board.now result.0 }
        ensures view { (d : R) → view_of result.0
            ≡ gathered (hand_view (slice_index_or (runners_of self) 0 d))
            (map hand_view (drop 1 (runners_of self))) }
        ensures left { result.1.items ≡ map (λ r. r.kept) (runners_of self) }
        ensures room { most_workers ≤ length result.1.items + result.1.room }
    {
        let Runners {
            mut runners,
            mut left,
        } = self;
        runners.as_mut_slice().reverse();
        let Some(Runner { mut hand, kept, .. }) = runners.pop() else {
            unreachable!()
        };
        left.add(kept);
        join_all(board, &mut hand, &mut runners, &mut left);
        (hand, left)
    }
}
