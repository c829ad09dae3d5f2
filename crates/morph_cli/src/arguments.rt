ghost use Rattle.std.specs.Prelude.{◌≡◌, ◌⊎◌, None, map, IsSome, IfSome, IfOk, OnErr, IsTrue};
ghost use Rattle.std.specs.Process.{exit_status};
ghost use Rattle.morph_io.specs.Told.{HasRisen};
ghost use Rattle.morph_cli.specs.Apps.{input_of, left_by, meaning_of, telling_of};
ghost use Rattle.morph_cli.specs.Calls.{IsReadBy};
ghost use Rattle.morph_cli.specs.Headline.{Headline, Completes, input_limit};
ghost use Rattle.morph_cli.specs.Outputs.{has_notes};
ghost use Rattle.morph_cli.specs.Requests.{request_in};
ghost use Rattle.morph_cli.specs.Streams.{fault_counts, streams_of};
ghost use Rattle.morph_cli.specs.Tallies.{CallTold};
ghost use Rattle.run_text.specs.declared.tally.Tally.{Tally as Counted};
ghost use Rattle.run_text.specs.Settings.{settings_of};
ghost use Rattle.morph_cli.specs.Status.{IsStatus, IsMadeStatus, EndsNotes};
ghost use Rattle.morph_cli.specs.Words.{words_behind};

use crate::ended::end_run;
use crate::fault::Fault;
use crate::top_call::morph;
use morph_base::{List, OutOfMemory};
use morph_io::{Sink, Source};
use run_text::Tally;
use std::alloc::Global;
use std::process::ExitCode;
use std::sync::Wait;
use std::thread::Threads;
use worker_gate::FreeGate;

/// The words behind the program's name, which is the first of its arguments, as bytes.
pub fn words_of(alloc: Global, args: &[String]) -> Result<List<List<u8>>, OutOfMemory>
    ensures { IfOk result (λ words. map (λ word. word.items) words.items ≡ words_behind args.now) }
{
    let mut words = List::new(alloc);
    let Some((_, rest)) = args.split_first() else {
        return Ok(words);
    };
    for arg in rest {
        words.push(List::from_slice(alloc, arg.as_bytes())?)?;
    }
    Ok(words)
}

/// Ends a run for which there is no memory: writes the last line of the notes.
fn end_without_memory<N: Sink>(notes: &mut N) -> ExitCode
    ensures status { exit_status result ≡ 6 }
    ensures note { EndsNotes 6 (N.written notes.old) (N.written notes.new)
        (N.faults notes.old) (N.faults notes.new) }
{
    let end = end_run(notes, &Err(Fault::OutOfMemory), Tally::new());
    ExitCode::from(end.status)
}

/// Does all that the program does, with its arguments, and returns the status that it ends with, which is that of
/// [`morph`] for the words behind the name. The first argument is the program's own name. There are no arguments if
/// memory for them was refused.
///
/// If memory for the words is refused, or they are no settings, nothing is read, nothing goes to the sink, and the
/// notes get only their last line.
pub fn program<R: Threads + Wait + Sync, S: Source + Send, K: Sink, N: Sink>(
    rt: &R,
    alloc: Global,
    args: Result<Vec<String>, OutOfMemory>,
    source: &mut S,
    sink: &mut K,
    notes: &mut N,
) -> ExitCode
    ensures usage { IfOk args (λ args. let asked = settings_of (words_behind args.items) in
        (exit_status result ≡ 2 → asked ≡ None)
        × (asked ≡ None → (exit_status result ≡ 2) ⊎ (exit_status result ≡ 6))) }
    ensures headline { IfOk args (λ args. IfSome (settings_of (words_behind args.items)) (λ s.
        IfSome (input_of s (S.left source.old)) (λ input.
        Headline (meaning_of s) (telling_of s) input_limit input
        (left_by s.generated (S.left source.new))
        (K.written sink.old) (K.written sink.new) (exit_status result)))) }
    ensures completes { (HasRisen (S.faults source.old) (S.faults source.new) → ⊥)
        → (exit_status result ≡ 5 → ⊥)
        → IfOk args (λ args. IfSome (settings_of (words_behind args.items)) (λ s.
        IfSome (input_of s (S.left source.old)) (λ input.
        Completes (meaning_of s) input_limit input (exit_status result)))) }
    ensures untouched { IfOk args (λ args. settings_of (words_behind args.items) ≡ None
        → (source.new ≡ source.old) × (sink.new ≡ sink.old)
        × EndsNotes (exit_status result) (N.written notes.old) (N.written notes.new)
        (N.faults notes.old) (N.faults notes.new)) }
    ensures made { IfOk args (λ args. IfSome (settings_of (words_behind args.items)) (λ s.
        IsSome s.generated
        → (source.new ≡ source.old) × IsMadeStatus (exit_status result))) }
    ensures run { IfOk args (λ args. IfSome (settings_of (words_behind args.items)) (λ s.
        (tally : Counted) × CallTold (request_in s (S.left source.old)) (exit_status result) tally
        (streams_of (S.left source.old) (K.written sink.old) (N.written notes.old)
        (fault_counts (S.faults source.old) (K.faults sink.old) (N.faults notes.old)))
        (streams_of (S.left source.new) (K.written sink.new) (N.written notes.new)
        (fault_counts (S.faults source.new) (K.faults sink.new) (N.faults notes.new))))) }
    ensures read { exit_status result ≡ 4 → HasRisen (S.faults source.old) (S.faults source.new) }
    ensures write { IfOk args (λ args. IfSome (settings_of (words_behind args.items)) (λ s.
        exit_status result ≡ 5 → HasRisen (K.faults sink.old) (K.faults sink.new)
        ⊎ (IsTrue (has_notes s) × HasRisen (N.faults notes.old) (N.faults notes.new)))) }
    ensures steady { (exit_status result ≡ 5 → ⊥) → K.faults sink.new ≡ K.faults sink.old }
    ensures unread { IfOk args (λ args. IfSome (settings_of (words_behind args.items)) (λ s.
        s.ahead ≡ 0 → (exit_status result ≡ 4 → ⊥)
        → S.faults source.new ≡ S.faults source.old)) }
    ensures asks { IfOk args (λ args. IfSome (settings_of (words_behind args.items)) (λ s.
        s.ahead ≡ 0 → IsReadBy S.left S.reads (meaning_of s) source.old source.new)) }
    ensures statuses { IsStatus (exit_status result) }
    ensures memory { OnErr args ((exit_status result ≡ 6)
        × (source.new ≡ source.old) × (sink.new ≡ sink.old)
        × EndsNotes 6 (N.written notes.old) (N.written notes.new)
        (N.faults notes.old) (N.faults notes.new)) }
{
    let Ok(args) = args else {
        return end_without_memory(notes);
    };
    let Ok(words) = words_of(alloc, &args) else {
        return end_without_memory(notes);
    };
    let ended = morph(rt, alloc, words.as_slice(), source, sink, notes, &FreeGate);
    ExitCode::from(ended.status)
}
