//! What the rounds of a whole run do together, as the contracts of functions that do nothing.
//!
//! A crate above cites the lemmas in `proofs/` that prove them.
ghost use Rattle.std.specs.Prelude.{◌≡◌, ℕ, ◌+◌, ◌*◌, ◌<◌, ◌≤◌, [], ◌++◌, List, length, Option, Some, IfSome};
ghost use Rattle.morph_base.specs.Flat.{Kept};
ghost use Rattle.morph_base.specs.Transactions.{Transaction};
ghost use Rattle.event_reader.specs.Accepted.{Ending, closed_batches};
ghost use Rattle.event_reader.specs.Reader.{ReaderView, accepted_by, new_reader, TakesBytes};
ghost use Rattle.event_reader.specs.declared.fault.ReaderFault.TheVariants.{ReadFault};
ghost use Rattle.batch_pipe.specs.declared.items.Ran.{Ran};
ghost use Rattle.batch_pipe.specs.declared.tail.Tail.{Tail};
ghost use Rattle.batch_pipe.specs.declared.tail.Tail.TheVariants.{Fault};
ghost use Rattle.batch_pipe.specs.Courses.{pipe_point, pipe_start, IsCourse, ending_of, steps_left};
ghost use Rattle.batch_pipe.specs.PlannedBatches.{ArePlansOf, plans_of};
ghost use Rattle.batch_pipe.specs.PlanRuns.{Manner};
ghost use Rattle.batch_pipe.specs.PipeRounds.{PipeView, IsGoing, IsRound, IsUncut, new_pipe};

use crate::teller::Teller;
use event_reader::EventApp;

/// Over a whole run, the plans that are run are the first of those that are sent, in order, and these are the plans of
/// the first accepted batches, each once, numbered from 1. A new pipe has such a course, and each round goes on with
/// it.
pub fn courses_go_on<A: EventApp, T: Teller>()
    ensures begins { (m : Manner) (reader : ReaderView A) (engine : Kept) (ahead : ℕ)
        (left : Option (List ℕ))
        → IsCourse A.event_of m (pipe_start reader engine left) 0 [] (pipe_point (new_pipe reader engine ahead) left) }
    ensures round { (m : Manner) (reader : ReaderView A) (engine : Kept)
        (left before after : Option (List ℕ)) (rounds : ℕ) (rans : List Ran) (old new : PipeView A)
        (teller teller' : T)
        → IsCourse A.event_of m (pipe_start reader engine left) rounds rans (pipe_point old before)
        → IsGoing old → (round : IsRound A.event_of T.takes m old before teller new after teller')
        → IsCourse A.event_of m (pipe_start reader engine left) (rounds + 1) (rans ++ round.rans)
        (pipe_point new after) }
{}

/// A run ends: each round lowers the number of rounds that there can still be, even if each result counts half a round.
/// There is at most one more round than batches that were read.
pub fn rounds_are_few<A: EventApp, T: Teller>()
    ensures fall { (m : Manner) (before after : Option (List ℕ)) (old new : PipeView A)
        (teller teller' : T)
        → (round : IsRound A.event_of T.takes m old before teller new after teller') → IsGoing old
        → old.reader.lines.number ≤ old.reader.lines.limit + 1
        → length round.rans + 2 * steps_left new < 2 * steps_left old }
    ensures few { (m : Manner) (reader : ReaderView A) (engine : Kept)
        (left after : Option (List ℕ)) (rounds : ℕ) (rans : List Ran) (v : PipeView A)
        (course : IsCourse A.event_of m (pipe_start reader engine left) rounds rans (pipe_point v after))
        → rounds ≤ length course.plans.batches + 1 }
{}

/// What was read and what was run, at the end of a run or before.
///
/// The batches that were read are the first of those that are accepted, and the batches whose plans were run are the
/// first of these. If the pipe is not going, and neither memory to run a plan nor a result was refused, all that were
/// read were run. If the input came to its end, a line was refused, or the limit was reached, they are all that are
/// accepted. If the source failed, they are those that are closed within the bytes that were taken.
pub fn courses_end<A: EventApp>()
    ensures front { (m : Manner) (reader : ReaderView A) (engine : Kept)
        (left after : Option (List ℕ)) (rounds : ℕ) (rans : List Ran) (v : PipeView A)
        (course : IsCourse A.event_of m (pipe_start reader engine left) rounds rans (pipe_point v after))
        → IfSome (accepted_by A.event_of reader left) (λ all. (rest : List (List Transaction))
        × (all.batches ≡ course.plans.batches ++ rest)) }
    ensures ran { (m : Manner) (reader : ReaderView A) (engine : Kept)
        (left after : Option (List ℕ)) (rounds : ℕ) (rans : List Ran) (v : PipeView A)
        (course : IsCourse A.event_of m (pipe_start reader engine left) rounds rans (pipe_point v after))
        → (done : List (List Transaction)) × (rest : List (List Transaction))
        × (course.plans.batches ≡ done ++ rest) × ArePlansOf done (plans_of course.runs) }
    ensures whole { (m : Manner) (reader : ReaderView A) (engine : Kept)
        (left after : Option (List ℕ)) (rounds : ℕ) (rans : List Ran) (v : PipeView A)
        (course : IsCourse A.event_of m (pipe_start reader engine left) rounds rans (pipe_point v after))
        → (IsGoing v → ⊥) → IsUncut v.tail
        → (course.runs ≡ course.more) × (v.waiting ≡ []) }
    ensures ended { (m : Manner) (reader : ReaderView A) (engine : Kept)
        (left after : Option (List ℕ)) (rounds : ℕ) (rans : List Ran) (v : PipeView A)
        (course : IsCourse A.event_of m (pipe_start reader engine left) rounds rans (pipe_point v after))
        (tail : Tail) (ending : Ending)
        → course.stop ≡ Some tail → ending_of tail ≡ Some ending
        → IfSome (accepted_by A.event_of reader left) (λ all.
        (all.ending ≡ ending) × (all.batches ≡ course.plans.batches)) }
    ensures cut { (m : Manner) (reader : ReaderView A) (engine : Kept)
        (left after : Option (List ℕ)) (rounds : ℕ) (rans : List Ran) (v : PipeView A)
        (course : IsCourse A.event_of m (pipe_start reader engine left) rounds rans (pipe_point v after))
        (app : A) (size limit : ℕ)
        → reader ≡ new_reader app size limit → course.stop ≡ Some (Fault ReadFault)
        → TakesBytes left after (λ got.
        closed_batches (A.event_of app size) got ≡ course.plans.batches) }
{}
