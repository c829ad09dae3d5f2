ghost use Rattle.std.specs.Prelude.{◌≡◌, ◌⊎◌, None, map, IfSome, IsTrue};
ghost use Rattle.morph_io.specs.Told.{HasRisen};
ghost use Rattle.morph_cli.specs.Apps.{telling_for};
ghost use Rattle.morph_cli.specs.Calls.{IsReadBy};
ghost use Rattle.morph_cli.specs.Headline.{Headline, Completes, input_limit};
ghost use Rattle.morph_cli.specs.Outputs.{has_notes};
ghost use Rattle.morph_cli.specs.Requests.{request_of};
ghost use Rattle.morph_cli.specs.Status.{EndsWith, IsStatus};
ghost use Rattle.morph_cli.specs.Streams.{fault_counts, streams_of};
ghost use Rattle.morph_cli.specs.Tallies.{CallTold, IsBalanced};
ghost use Rattle.run_text.specs.Counts.{no_tally};
ghost use Rattle.run_text.specs.Settings.{settings_of_own};

use crate::ended::{Ended, end_run, end_unasked};
use crate::job::{Host, Job};
use crate::run::run;
use event_reader::EventApp;
use morph_base::List;
use morph_io::{Sink, Source};
use run_text::{Tally, own_settings};
use std::alloc::Global;
use std::sync::Wait;
use std::thread::Threads;
use worker_gate::Gate;

/// Does all that a program of one application does: reads the settings from its words, runs the application over the
/// source, writes the text to the sink, and the last line to the notes if there is one.
///
/// It is [`morph`](crate::morph()) for an application of the caller's own. The settings are those of [`own_settings`],
/// without the names `app`, `self`, `seed` and `events`. If the words are no settings, the last line of the notes is
/// `usage`, which names the program; the other last lines are those of `morph`. The text, the notes, the statuses and
/// the tally are the same.
pub fn run_application<
    R: Threads + Wait + Sync,
    A: EventApp + Copy + Send,
    S: Source + Send,
    K: Sink,
    N: Sink,
    G: Gate,
>(
    rt: &R,
    alloc: Global,
    app: A,
    usage: &[u8],
    words: &[List<u8>],
    source: &mut S,
    sink: &mut K,
    notes: &mut N,
    gate: &G,
) -> Ended
    ensures usage { let asked = settings_of_own (map (λ word. word.items) words.now) in
        (result.status ≡ 2 → asked ≡ None) × (asked ≡ None → result.status ≡ 2) }
    ensures untouched { result.status ≡ 2 → (source.new ≡ source.old) × (sink.new ≡ sink.old) }
    ensures headline { IfSome (settings_of_own (map (λ word. word.items) words.now)) (λ s.
        IfSome (S.left source.old) (λ input. Headline (A.event_of app s.size)
        (telling_for s (A.table_count app) (A.name_of app)) input_limit input
        (S.left source.new) (K.written sink.old) (K.written sink.new) result.status)) }
    ensures completes { (HasRisen (S.faults source.old) (S.faults source.new) → ⊥)
        → (result.status ≡ 5 → ⊥)
        → IfSome (settings_of_own (map (λ word. word.items) words.now)) (λ s.
        IfSome (S.left source.old) (λ input.
        Completes (A.event_of app s.size) input_limit input result.status)) }
    ensures read { result.status ≡ 4 → HasRisen (S.faults source.old) (S.faults source.new) }
    ensures write { IfSome (settings_of_own (map (λ word. word.items) words.now)) (λ s.
        result.status ≡ 5 → HasRisen (K.faults sink.old) (K.faults sink.new)
        ⊎ (IsTrue (has_notes s) × HasRisen (N.faults notes.old) (N.faults notes.new))) }
    ensures statuses { IsStatus result.status }

    // No fault occurs in a call unless the status names it.
    ensures steady { (result.status ≡ 5 → ⊥) → K.faults sink.new ≡ K.faults sink.old }
    ensures unread { IfSome (settings_of_own (map (λ word. word.items) words.now)) (λ s.
        s.ahead ≡ 0 → (result.status ≡ 4 → ⊥) → S.faults source.new ≡ S.faults source.old) }

    // If nothing is read ahead, the source is read for the next batch only, and not beyond the end of the run.
    ensures asks { IfSome (settings_of_own (map (λ word. word.items) words.now)) (λ s.
        s.ahead ≡ 0 → IsReadBy S.left S.reads (A.event_of app s.size) source.old source.new) }
    ensures run { IfSome (settings_of_own (map (λ word. word.items) words.now)) (λ s.
        CallTold (request_of (A.event_of app) (A.table_count app) (A.name_of app)
        s (S.left source.old)) result.status result.tally
        (streams_of (S.left source.old) (K.written sink.old) (N.written notes.old)
        (fault_counts (S.faults source.old) (K.faults sink.old) (N.faults notes.old)))
        (streams_of (S.left source.new) (K.written sink.new) (N.written notes.new)
        (fault_counts (S.faults source.new) (K.faults sink.new) (N.faults notes.new)))) }
    ensures balanced { IfSome (settings_of_own (map (λ word. word.items) words.now))
        (λ s. IsBalanced s.planning s.workers result.tally) }
    ensures uncounted { result.status ≡ 2 → result.tally ≡ no_tally }
    ensures note { result.status ≡ 2 → EndsWith usage.now
        (N.written notes.old) (N.written notes.new) (N.faults notes.old) (N.faults notes.new) }
{
    let Some(settings) = own_settings(words) else {
        return end_unasked(notes, usage);
    };
    let host = Host { rt, alloc, gate };
    let job = Job {
        host: &host,
        app,
        settings,
    };
    let mut tally = Tally::new();
    let end = run(&job, source, sink, notes, &mut tally);
    end_run(notes, &end, tally)
}
