ghost use Rattle.std.specs.Prelude.{◌≡◌, ◌⊎◌, None, Some, map, IsSome, IfSome, IsTrue};
ghost use Rattle.morph_io.specs.Told.{HasRisen};
ghost use Rattle.event_reader.specs.GeneratedText.{generated_text};
ghost use Rattle.morph_cli.specs.Apps.{input_by, input_of, left_by, meaning_of, telling_of};
ghost use Rattle.morph_cli.specs.Calls.{IsReadBy};
ghost use Rattle.morph_cli.specs.Headline.{Headline, Completes, input_limit};
ghost use Rattle.morph_cli.specs.Outputs.{has_notes};
ghost use Rattle.morph_cli.specs.Requests.{request_in, request_of};
ghost use Rattle.morph_cli.specs.RunContract.{RunDoes};
ghost use Rattle.morph_cli.specs.Runs.{EndsMade};
ghost use Rattle.run_text.specs.Settings.{AreInRange, settings_of};
ghost use Rattle.morph_cli.specs.Status.{EndsNotes, IsStatus, IsMadeStatus};
ghost use Rattle.morph_cli.specs.Streams.{fault_counts, streams_of};
ghost use Rattle.run_text.specs.Counts.{no_tally};
ghost use Rattle.morph_cli.specs.Tallies.{CallTold, IsBalanced};

use crate::ended::{Ended, end_run, end_unasked};
use crate::fault::Fault;
use crate::job::{Host, Job};
use crate::run::{Finish, run};
use event_reader::laws::generated_text_is_accepted;
use event_reader::{GenSource, MakesInput};
use grep_app::Grep;
use ledger_app::Ledger;
use morph_base::List;
use morph_io::{Sink, Source};
use run_text::{App, Generated, Settings, Tally, settings};
use std::alloc::Global;
use std::sync::Wait;
use std::thread::Threads;
use toll_app::Toll;
use worker_gate::Gate;

/// The last line of the notes if the words are no settings.
const USAGE: &[u8] = b"usage: morph app=ledger|grep|toll [name=value ...]\n";

/// Runs an application over the input that the settings ask for: the source's, or one that the program makes.
fn run_over<
    R: Threads + Wait + Sync,
    A: MakesInput + Copy + Send,
    S: Source + Send,
    K: Sink,
    N: Sink,
    G: Gate,
>(
    job: &Job<'_, A, R, G>,
    source: &mut S,
    sink: &mut K,
    notes: &mut N,
    tally: &mut Tally,
) -> Result<Finish, Fault>
    requires settings { AreInRange job.now.settings }
    requires tally { tally.old ≡ no_tally }
    ensures run { let app = job.now.app in let settings = job.now.settings in
        RunDoes (request_of (A.event_of app) (A.table_count app) (A.name_of app) settings
        (input_by settings.generated (generated_text (A.generated app settings.size))
        (S.left source.old))) result tally.new
        (streams_of (S.left source.old) (K.written sink.old) (N.written notes.old)
        (fault_counts (S.faults source.old) (K.faults sink.old) (N.faults notes.old)))
        (streams_of (left_by settings.generated (S.left source.new)) (K.written sink.new) (N.written notes.new)
        (fault_counts (S.faults source.new) (K.faults sink.new) (N.faults notes.new))) }
    ensures asks { let settings = job.now.settings in settings.ahead ≡ 0
        → IsReadBy S.left S.reads (A.event_of job.now.app settings.size) source.old source.new }
    ensures made { IsSome job.now.settings.generated → (source.new ≡ source.old) × EndsMade result }
{
    match job.settings.generated {
        None => run(job, source, sink, notes, tally),
        Some(generated) => run_made(job, generated, sink, notes, tally),
    }
}

/// Runs an application over an input that the program makes.
fn run_made<R: Threads + Wait + Sync, A: MakesInput + Copy + Send, K: Sink, N: Sink, G: Gate>(
    job: &Job<'_, A, R, G>,
    generated: Generated,
    sink: &mut K,
    notes: &mut N,
    tally: &mut Tally,
) -> Result<Finish, Fault>
    requires settings { AreInRange job.now.settings }
    requires generated { job.now.settings.generated ≡ Some generated }
    requires tally { tally.old ≡ no_tally }
    ensures run { let app = job.now.app in let settings = job.now.settings in
        RunDoes (request_of (A.event_of app) (A.table_count app) (A.name_of app) settings
        (Some (generated_text (A.generated app settings.size) generated.seed generated.events))) result tally.new
        (streams_of None (K.written sink.old) (N.written notes.old)
        (fault_counts 0 (K.faults sink.old) (N.faults notes.old)))
        (streams_of None (K.written sink.new) (N.written notes.new)
        (fault_counts 0 (K.faults sink.new) (N.faults notes.new))) }
    ensures made { EndsMade result }
{
    // None of its lines is refused, and it has few bytes.
    generated_text_is_accepted::<A>();
    let size = job.settings.size;
    let mut source = GenSource::new(job.app, generated.seed, generated.events, size);
    run(job, &mut source, sink, notes, tally)
}

/// Runs the application that the settings name.
fn run_app<R: Threads + Wait + Sync, S: Source + Send, K: Sink, N: Sink, G: Gate>(
    host: &Host<'_, R, G>,
    settings: Settings,
    source: &mut S,
    sink: &mut K,
    notes: &mut N,
    tally: &mut Tally,
) -> Result<Finish, Fault>
    requires settings { AreInRange settings }
    requires tally { tally.old ≡ no_tally }
    ensures run { RunDoes (request_in settings (S.left source.old)) result tally.new
        (streams_of (S.left source.old) (K.written sink.old) (N.written notes.old)
        (fault_counts (S.faults source.old) (K.faults sink.old) (N.faults notes.old)))
        (streams_of (left_by settings.generated (S.left source.new)) (K.written sink.new) (N.written notes.new)
        (fault_counts (S.faults source.new) (K.faults sink.new) (N.faults notes.new))) }
    ensures asks { settings.ahead ≡ 0
        → IsReadBy S.left S.reads (meaning_of settings) source.old source.new }
    ensures made { IsSome settings.generated → (source.new ≡ source.old) × EndsMade result }
{
    match settings.app {
        App::Ledger => {
            let job = Job {
                host,
                app: Ledger,
                settings,
            };
            run_over(&job, source, sink, notes, tally)
        }
        App::Grep => {
            let job = Job {
                host,
                app: Grep,
                settings,
            };
            run_over(&job, source, sink, notes, tally)
        }
        App::Toll => {
            let job = Job {
                host,
                app: Toll,
                settings,
            };
            run_over(&job, source, sink, notes, tally)
        }
    }
}

/// Does all that the program does: reads the settings from its words, runs the application over the source or over an
/// input that it makes itself, writes the text to the sink, and the last line to the notes if there is one.
///
/// The text is that of applying the events one transaction at a time, in the order of time within each batch, to a map
/// that is zero everywhere, for every strategy and number of workers and whatever the gate holds. The statuses are
/// those of [`Ended`]. A fault of writing the last line of the notes changes nothing, with notes on too: the status is
/// 5 only if a write failed before it.
pub fn morph<R: Threads + Wait + Sync, S: Source + Send, K: Sink, N: Sink, G: Gate>(
    rt: &R,
    alloc: Global,
    words: &[List<u8>],
    source: &mut S,
    sink: &mut K,
    notes: &mut N,
    gate: &G,
) -> Ended
    ensures usage { let asked = settings_of (map (λ word. word.items) words.now) in
        (result.status ≡ 2 → asked ≡ None) × (asked ≡ None → result.status ≡ 2) }
    ensures untouched { result.status ≡ 2 → (source.new ≡ source.old) × (sink.new ≡ sink.old) }
    ensures headline { IfSome (settings_of (map (λ word. word.items) words.now)) (λ s.
        IfSome (input_of s (S.left source.old)) (λ input.
        Headline (meaning_of s) (telling_of s) input_limit input
        (left_by s.generated (S.left source.new))
        (K.written sink.old) (K.written sink.new) result.status)) }
    ensures completes { (HasRisen (S.faults source.old) (S.faults source.new) → ⊥)
        → (result.status ≡ 5 → ⊥)
        → IfSome (settings_of (map (λ word. word.items) words.now)) (λ s.
        IfSome (input_of s (S.left source.old)) (λ input.
        Completes (meaning_of s) input_limit input result.status)) }

    // An input that the program makes is not read from the source, and none of its lines is refused.
    ensures made { IfSome (settings_of (map (λ word. word.items) words.now)) (λ s.
        IsSome s.generated → (source.new ≡ source.old) × IsMadeStatus result.status) }
    ensures read { result.status ≡ 4 → HasRisen (S.faults source.old) (S.faults source.new) }
    ensures write { IfSome (settings_of (map (λ word. word.items) words.now)) (λ s.
        result.status ≡ 5 → HasRisen (K.faults sink.old) (K.faults sink.new)
        ⊎ (IsTrue (has_notes s) × HasRisen (N.faults notes.old) (N.faults notes.new))) }
    ensures statuses { IsStatus result.status }

    // No fault occurs in a call unless the status names it.
    ensures steady { (result.status ≡ 5 → ⊥) → K.faults sink.new ≡ K.faults sink.old }
    ensures unread { IfSome (settings_of (map (λ word. word.items) words.now)) (λ s. s.ahead ≡ 0
        → (result.status ≡ 4 → ⊥) → S.faults source.new ≡ S.faults source.old) }

    // If nothing is read ahead, the source is read for the next batch only, and not beyond the end of the run.
    ensures asks { IfSome (settings_of (map (λ word. word.items) words.now)) (λ s. s.ahead ≡ 0
        → IsReadBy S.left S.reads (meaning_of s) source.old source.new) }
    ensures run { IfSome (settings_of (map (λ word. word.items) words.now)) (λ s.
        CallTold (request_in s (S.left source.old)) result.status result.tally
        (streams_of (S.left source.old) (K.written sink.old) (N.written notes.old)
        (fault_counts (S.faults source.old) (K.faults sink.old) (N.faults notes.old)))
        (streams_of (S.left source.new) (K.written sink.new) (N.written notes.new)
        (fault_counts (S.faults source.new) (K.faults sink.new) (N.faults notes.new)))) }
    ensures balanced { IfSome (settings_of (map (λ word. word.items) words.now))
        (λ s. IsBalanced s.planning s.workers result.tally) }
    ensures uncounted { result.status ≡ 2 → result.tally ≡ no_tally }
    ensures note { result.status ≡ 2 → EndsNotes result.status
        (N.written notes.old) (N.written notes.new) (N.faults notes.old) (N.faults notes.new) }
{
    let Some(settings) = settings(words) else {
        return end_unasked(notes, USAGE);
    };
    let host = Host { rt, alloc, gate };
    let mut tally = Tally::new();
    let end = run_app(&host, settings, source, sink, notes, &mut tally);
    end_run(notes, &end, tally)
}
