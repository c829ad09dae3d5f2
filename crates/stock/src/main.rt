//! The program `stock`: a shop's lines on standard input, each applied as one transaction, and the text of the results
//! on standard output. It is an example of a program for an application of one's own.
//!
//! All that it does is [`morph_cli::run_application`] over [`stock_app::Stock`]; its settings are those of `morph`
//! without `app`, `self`, `seed` and `events`.
#![tactic(auto)]

ghost use Rattle.std.specs.Prelude.{◌≡◌, None, map, IfSome};
ghost use Rattle.morph_io.specs.Told.{HasRisen};
ghost use Rattle.morph_cli.specs.Apps.{telling_for};
ghost use Rattle.morph_cli.specs.Headline.{Headline, Completes, input_limit};
ghost use Rattle.run_text.specs.Settings.{settings_of_own};
ghost use Rattle.stock_app.specs.Stock.{stock_event, table_name};

use morph_base::{List, OutOfMemory};
use morph_cli::{Ended, run_application, words_of};
use morph_io::{Sink, Source, StdSink, StdSource};
use std::alloc::Global;
use std::process::ExitCode;
use std::rt::Env;
use std::sync::Wait;
use std::thread::Threads;
use std::{env, io};
use stock_app::Stock;
use worker_gate::FreeGate;

/// The last line of the notes if the words are no settings.
const USAGE: &[u8] = b"usage: stock [name=value ...]\n";

/// The status if there is no memory for the words.
const NO_MEMORY: u8 = 6;

/// Runs the shop over a source, by the settings that the words ask for.
fn shop<R: Threads + Wait + Sync, S: Source + Send, K: Sink, N: Sink>(
    rt: &R,
    alloc: Global,
    words: &[List<u8>],
    source: &mut S,
    sink: &mut K,
    notes: &mut N,
) -> Ended
    ensures usage { let asked = settings_of_own (map (λ word. word.items) words.now) in
        (result.status ≡ 2 → asked ≡ None) × (asked ≡ None → result.status ≡ 2) }
    ensures headline { IfSome (settings_of_own (map (λ word. word.items) words.now)) (λ s.
        IfSome (S.left source.old) (λ input.
        Headline (stock_event s.size) (telling_for s 3 table_name) input_limit input
        (S.left source.new) (K.written sink.old) (K.written sink.new) result.status)) }
    ensures completes { (HasRisen (S.faults source.old) (S.faults source.new) → ⊥)
        → (result.status ≡ 5 → ⊥)
        → IfSome (settings_of_own (map (λ word. word.items) words.now)) (λ s.
        IfSome (S.left source.old) (λ input.
        Completes (stock_event s.size) input_limit input result.status)) }
{
    run_application(
        rt, alloc, Stock, USAGE, words, source, sink, notes, &FreeGate,
    )
}

/// The words behind the program's name; none if one of its arguments is not UTF-8.
fn words(rt: &(impl Env + Alloc<A = Global>)) -> Result<List<List<u8>>, OutOfMemory> {
    match env::args(rt) {
        Ok(args) => {
            let args: Vec<String> = args.collect(rt.alloc())?;
            words_of(rt.alloc(), &args)
        }
        Err(error) if error.kind() == io::ErrorKind::OutOfMemory => Err(OutOfMemory),
        Err(_) => Ok(List::new(rt.alloc())),
    }
}

fn main(rt: HostRuntime) -> ExitCode {
    let Ok(words) = words(&rt) else {
        return ExitCode::from(NO_MEMORY);
    };
    let mut source = StdSource::new(rt.stdin());
    let mut sink = StdSink::new(rt.stdout());
    let mut notes = StdSink::new(rt.stderr());
    let ended = shop(
        &rt,
        rt.alloc(),
        words.as_slice(),
        &mut source,
        &mut sink,
        &mut notes,
    );
    ExitCode::from(ended.status)
}
