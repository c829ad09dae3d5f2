ghost use Rattle.std.specs.Prelude.{◌≡◌, ◌<◌, ◌≤◌, ◌+◌, ◌++◌, None};
ghost use Rattle.morph_base.specs.Plans.{IsPlan, op_count};
ghost use Rattle.morph_base.specs.Graphs.{IsValidPlan};
ghost use Rattle.morph_base.specs.Readers.{dependents_of};
ghost use Rattle.op_words.specs.Hands.{plan_of, cap_of, view_of, IsHandOf};
ghost use Rattle.abort_eager.specs.Targets.{first_source, end_source, targets, targets_left, IsCascade};
ghost use Rattle.abort_eager.specs.Finding.{IsFirstPlace, IsSiblingFrom};
ghost use Rattle.abort_eager.specs.Popping.{GoesOn, PlacePops, Pops};
ghost use Rattle.abort_eager.specs.Touching.{HasCause, CanTouch, Touches, NextDoes, touch_steps};

use crate::answers::{Target, Touch, Touched};
use crate::search::{place_from, reader_from};
use morph_base::{Plan, Rows};
use op_words::{Board, Hand};

/// The targets of an operation that failed, or that ran again, as a position among them.
///
/// If the operation failed, the failure is spread to each other operation of its event. Then what read from one of
/// these operations is rolled back, for each place at which it read from them. If the operation did not fail, only what
/// read from the operation itself is rolled back.
///
/// Its *sources* are the operations from `first` up to `end`. The targets that are left are those from `sibling` on
/// except `op`, which get the failure; then the places of operation `reader` from `place` on, and all places of later
/// operations, if they read from a source.
#[derive(Debug, Drop)]
pub struct Cascade {
    op: u32,
    failed: bool,
    first: u32,
    end: u32,
    sibling: u32,
    reader: u32,
    place: u8,
}

/// The sources of an operation's cascade, from the first one up to the end.
fn sources(plan: &Plan, op: u32, failed: bool) -> (u32, u32)
    requires plan { IsPlan plan.now }
    requires in_range { op < op_count plan.now }
    ensures first { result.0 ≡ first_source plan.now op failed }
    ensures end { result.1 ≡ end_source plan.now op failed }
{
    if !failed {
        return (op, op + 1);
    }
    let event = plan.events.get(plan.ops.event(op as usize) as usize);
    (event.first, event.first + event.count)
}

/// The first number from `from` on, and below `end`, that is not `op`. It is `end` if there is none.
fn sibling_from(op: u32, from: u32, end: u32) -> u32
    requires { from ≤ end }
    ensures { IsSiblingFrom op from end result }
{
    if from == op && from < end {
        from + 1
    } else {
        from
    }
}

/// Touches a target of the cascade of operation `op`.
fn touch(board: &Board, hand: &mut Hand, plan: &Plan, op: u32, target: Target) -> Touched
    requires hand { IsHandOf board.now hand.old }
    requires plan { plan.now ≡ plan_of board.now }
    requires free { (view_of hand.old).claim ≡ None }
    requires target { CanTouch plan.now op (view_of hand.old) target }
    ensures hand { IsHandOf board.now hand.new }
    ensures touches { Touches plan.now (cap_of board.now) target (view_of hand.old)
        (view_of hand.new) result }
    ensures steps { (view_of hand.new).events
        ≡ touch_steps target op result.touch ++ (view_of hand.old).events }
{
    match target {
        Target::Spread { op: sibling } => {
            let answer = board.spread(hand, plan, sibling, op);
            Touched {
                op: sibling,
                touch: Touch::of_spread(sibling, answer),
            }
        }
        Target::RollBack { op: reader, place } => {
            let answer = board.roll_back(hand, plan, reader, place);
            Touched {
                op: reader,
                touch: Touch::of_roll(answer),
            }
        }
    }
}

impl Cascade {
    /// The cascade of an operation, with all its targets. `failed` says whether the operation failed.
    pub fn start(plan: &Plan, op: u32, failed: bool) -> Cascade
        requires plan { IsPlan plan.now }
        requires in_range { op < op_count plan.now }
        ensures cascade { IsCascade plan.now result }
        ensures targets { targets_left plan.now result ≡ targets plan.now op failed }
        ensures op { result.op ≡ op }
        ensures failed { result.failed ≡ failed }
    {
        let (first, end) = sources(plan, op, failed);
        Cascade {
            op,
            failed,
            first,
            end,
            sibling: first,
            reader: 0,
            place: 0,
        }
    }

    /// Takes the first target that is left.
    fn pop(&mut self, plan: &Plan, dependents: &Rows) -> Option<Target>
        requires plan { IsValidPlan plan.now }
        requires dependents { dependents.now ≡ dependents_of plan.now }
        requires cascade { IsCascade plan.now self.old }
        ensures goes { GoesOn plan.now self.old self.new }
        ensures pops { Pops plan.now self.old self.new result }
    {
        let op = sibling_from(self.op, self.sibling, self.end);
        if op < self.end {
            self.sibling = op + 1;
            return Some(Target::Spread { op });
        }
        self.pop_place(plan, dependents)
    }

    /// Takes the first place that is left.
    fn pop_place(&mut self, plan: &Plan, dependents: &Rows) -> Option<Target>
        requires plan { IsValidPlan plan.now }
        requires dependents { dependents.now ≡ dependents_of plan.now }
        requires cascade { IsCascade plan.now self.old }
        ensures pops { PlacePops plan.now self.old self.new result }
    {
        match place_from(plan, self.first, self.end, self.reader, self.place) {
            Some(place) => {
                self.place = place + 1;
                Some(Target::RollBack {
                    op: self.reader,
                    place,
                })
            }
            None => self.pop_reader(plan, dependents),
        }
    }

    /// Takes the first place of the next reader, once the present one has none left.
    fn pop_reader(&mut self, plan: &Plan, dependents: &Rows) -> Option<Target>
        requires plan { IsValidPlan plan.now }
        requires dependents { dependents.now ≡ dependents_of plan.now }
        requires cascade { IsCascade plan.now self.old }
        requires none { IsFirstPlace plan.now self.old.first self.old.end self.old.reader
            self.old.place None }
        ensures pops { PlacePops plan.now self.old self.new result }
    {
        let reader = reader_from(plan, dependents, self.first, self.end, self.reader + 1)?;
        let Some(place) = place_from(plan, self.first, self.end, reader, 0) else {
            unreachable!()
        };
        self.reader = reader;
        self.place = place + 1;
        Some(Target::RollBack { op: reader, place })
    }

    /// Touches the next target, and says what became of it. `None` means that all were touched.
    ///
    /// If the cascade was started for a failure, the hand has shown a failure of its operation. The dependents are the
    /// plan's. The hand holds nothing before and after. The call takes no memory and waits for nobody.
    pub fn next(
        &mut self,
        board: &Board,
        hand: &mut Hand,
        plan: &Plan,
        dependents: &Rows,
    ) -> Option<Touched>
        requires hand { IsHandOf board.now hand.old }
        requires plan { plan.now ≡ plan_of board.now }
        requires valid { IsValidPlan plan.now }
        requires dependents { dependents.now ≡ dependents_of plan.now }
        requires cascade { IsCascade plan.now self.old }
        requires free { (view_of hand.old).claim ≡ None }
        requires cause { HasCause self.old (view_of hand.old) }
        ensures hand { IsHandOf board.now hand.new }
        ensures goes { GoesOn plan.now self.old self.new }
        ensures answer { NextDoes plan.now (cap_of board.now) self.old self.new
            (view_of hand.old) (view_of hand.new) result }
        ensures still { result ≡ None → hand.new ≡ hand.old }
        ensures free { (view_of hand.new).claim ≡ None }
        ensures cause { HasCause self.new (view_of hand.new) }
    {
        let target = self.pop(plan, dependents)?;
        Some(touch(board, hand, plan, self.op, target))
    }
}
