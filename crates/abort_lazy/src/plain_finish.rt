//! Completes what is left of a plan on a closed board, on plain data.
ghost use Rattle.std.specs.Prelude.{◌≡◌, ℕ, ◌+◌, ◌<◌, slice_index};
ghost use Rattle.morph_base.specs.Clean.{outcome};
ghost use Rattle.morph_base.specs.Plans.{IsPlan, IsSettledOf, op_count, event_count, event_at, event_of};
ghost use Rattle.morph_base.specs.Plans.{final, verdict};
ghost use Rattle.op_words.specs.declared.trail.View.{View};
ghost use Rattle.op_words.specs.Closing.{IsClosed};
ghost use Rattle.abort_lazy.specs.Finishing.{settler, HasValues, AreFinishedSoFar};
ghost use Rattle.abort_lazy.specs.Rooms.{IsRoomFor, AreDecidedSoFar};

use crate::room::Room;
use crate::sources::read_settled;
use morph_base::{List, Plan, Settled, eval};
use op_words::Closed;

/// Completes a plan after its board is closed, however far workers got with it. It takes no memory.
///
/// An operation that is settled on the board keeps its value, and the tag of the worker that settled it. The others are
/// evaluated here, event by event, on the values of their sources. They have the tag 0, which is no worker's.
pub fn finish(closed: &Closed, plan: &Plan, room: Room) -> Settled
    requires plan { IsPlan plan.now }
    requires closed { (cap counters : ℕ) × (v : View)
        × IsClosed plan.now cap counters v closed.now }
    requires room { IsRoomFor plan.now room }
    ensures settled { IsSettledOf plan.now result }
    ensures tags { (cap counters : ℕ) (v : View)
        (is : IsClosed plan.now cap counters v closed.now) (o : ℕ)
        → o < op_count plan.now → slice_index result.by.items o ≡ settler (is.ends.core.word o) }
{
    let Room {
        values,
        committed,
        by,
    } = room;
    let mut settled = Settled {
        values,
        committed,
        by,
    };
    for i in 0..plan.events.len() {
        finish_event(closed, plan, i, &mut settled);
    }
    settled
}

/// Completes an event. All earlier events are completed.
fn finish_event(closed: &Closed, plan: &Plan, i: usize, settled: &mut Settled)
    requires plan { IsPlan plan.now }
    requires closed { (cap counters : ℕ) × (v : View)
        × IsClosed plan.now cap counters v closed.now }
    requires event { i < event_count plan.now }
    requires earlier { AreFinishedSoFar plan.now closed.now
        (event_at plan.now i).first settled.old }
    requires decided { AreDecidedSoFar plan.now i settled.old }
    ensures finished { let event = event_at plan.now i in
        AreFinishedSoFar plan.now closed.now (event.first + event.count) settled.new }
    ensures decided { AreDecidedSoFar plan.now (i + 1) settled.new }
{
    let committed = verdict_on(closed, plan, i, &settled.values);
    finish_ops(closed, plan, i, committed, settled);
    settled.committed.add(committed);
}

/// Whether an event commits: as it was decided on the board, or by its operations' answers if nobody decided it.
fn verdict_on(closed: &Closed, plan: &Plan, i: usize, values: &List<u64>) -> bool
    requires plan { IsPlan plan.now }
    requires closed { (cap counters : ℕ) × (v : View)
        × IsClosed plan.now cap counters v closed.now }
    requires event { i < event_count plan.now }
    requires values { HasValues plan.now (event_at plan.now i).first values.now.items }
    ensures { result ≡ verdict plan.now i }
{
    match closed.decision(i as u32) {
        Some(committed) => committed,
        None => commits(plan, i, values),
    }
}

/// Whether each operation of an event has an answer.
fn commits(plan: &Plan, i: usize, values: &List<u64>) -> bool
    requires plan { IsPlan plan.now }
    requires event { i < event_count plan.now }
    requires values { HasValues plan.now (event_at plan.now i).first values.now.items }
    ensures { result ≡ verdict plan.now i }
{
    let event = plan.events.get(i);
    for o in event.first..event.first + event.count {
        if answer(plan, o as usize, values).is_none() {
            return false;
        }
    }
    true
}

/// What an operation answers on the values of its sources.
fn answer(plan: &Plan, o: usize, values: &List<u64>) -> Option<u64>
    requires plan { IsPlan plan.now }
    requires op { o < op_count plan.now }
    requires values { HasValues plan.now (event_at plan.now (event_of plan.now o)).first
        values.now.items }
    ensures { result ≡ outcome plan.now (final plan.now) o }
{
    let sources = read_settled(plan, o, values);
    plan.ops.eval(o, &sources[..plan.ops.places(o)])
}

/// Completes the operations of an event whose verdict is known.
fn finish_ops(closed: &Closed, plan: &Plan, i: usize, committed: bool, settled: &mut Settled)
    requires plan { IsPlan plan.now }
    requires closed { (cap counters : ℕ) × (v : View)
        × IsClosed plan.now cap counters v closed.now }
    requires event { i < event_count plan.now }
    requires verdict { committed ≡ verdict plan.now i }
    requires earlier { AreFinishedSoFar plan.now closed.now
        (event_at plan.now i).first settled.old }
    ensures finished { let event = event_at plan.now i in
        AreFinishedSoFar plan.now closed.now (event.first + event.count) settled.new }
    ensures verdicts { settled.new.committed ≡ settled.old.committed }
{
    let event = plan.events.get(i);
    for o in event.first..event.first + event.count {
        finish_op(closed, plan, o, committed, settled);
    }
}

/// Completes an operation: as it was settled on the board, or as the verdict on its event says.
fn finish_op(closed: &Closed, plan: &Plan, o: u32, committed: bool, settled: &mut Settled)
    requires plan { IsPlan plan.now }
    requires closed { (cap counters : ℕ) × (v : View)
        × IsClosed plan.now cap counters v closed.now }
    requires op { o < op_count plan.now }
    requires verdict { committed ≡ verdict plan.now (event_of plan.now o) }
    requires earlier { AreFinishedSoFar plan.now closed.now o settled.old }
    ensures finished { AreFinishedSoFar plan.now closed.now (o + 1) settled.new }
    ensures verdicts { settled.new.committed ≡ settled.old.committed }
{
    let word = closed.word(o);
    let (value, by) = if word.state.is_settled() {
        (word.value, word.by)
    } else {
        (value_left(plan, o as usize, committed, &settled.values), 0)
    };
    settled.values.add(value);
    settled.by.add(by);
}

/// The value of an operation whose event has this verdict: its own answer, or that of its target's source.
fn value_left(plan: &Plan, o: usize, committed: bool, values: &List<u64>) -> u64
    requires plan { IsPlan plan.now }
    requires op { o < op_count plan.now }
    requires verdict { committed ≡ verdict plan.now (event_of plan.now o) }
    requires values { HasValues plan.now (event_at plan.now (event_of plan.now o)).first
        values.now.items }
    ensures { result ≡ final plan.now o }
{
    if committed {
        let Some(value) = answer(plan, o, values) else {
            unreachable!()
        };
        return value;
    }
    plan.ops.origin(o, 0).value_in(values)
}
