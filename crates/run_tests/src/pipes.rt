//! Pipes over bytes in memory.
mod meeting;

ghost use Rattle.std.specs.Prelude.{ℕ, ◌≤◌};

use batch_pipe::{Picker, Pipe, Ran, Tail, Teller};
use event_reader::{BatchReader, EventApp, INPUT_BYTES};
use ledger_app::Ledger;
use morph_base::{Abort as AbortKind, Explore, Key, Layout, List, OutOfMemory, Strategy, Unit};
use morph_engine::Engine;
use morph_io::{MemSource, Source};
use std::alloc::Global;
use std::process::Abort;
use std::test::Fail;
use std::thread::Threads;
use worker_gate::{FreeGate, Gate};

const LAYOUT: Layout = Layout {
    tables: 2,
    size: 100,
};

const PICKER: Picker = Picker {
    auto: false,
    strategy: Strategy {
        unit: Unit::Op,
        explore: Explore::Strata,
        abort: AbortKind::Lazy,
    },
};

/// Keeps the numbers of each batch that was run, and refuses the result behind the first `most`.
#[derive(Drop)]
struct NumberTeller {
    told: List<[u64; 2]>,
    most: usize,
}

impl Teller for NumberTeller {
    ghost can_take = { λ _ _. Unit {0} };

    ghost takes = { λ _ _ _ _. Unit {0} };

    ghost goes_on = { λ _ _ _ _ _ _. tt };

    fn take(&mut self, ran: Ran) -> bool {
        self.told.len() < self.most && self.told.push(numbers_of(&ran)).is_ok()
    }
}

/// A new pipe of a ledger.
fn ledger_pipe(alloc: Global, ahead: u32) -> Result<Pipe<Ledger>, OutOfMemory>
    requires some { 1 ≤ ahead }
    requires few { ahead ≤ 2 }
{
    let reader = BatchReader::new(alloc, Ledger, LAYOUT.size, INPUT_BYTES)?;
    let engine = Engine::new(alloc, LAYOUT)?;
    Pipe::new(alloc, reader, engine, ahead)
}

/// The number of a batch that was run, and how many of its events committed.
fn numbers_of(ran: &Ran) -> [u64; 2] {
    let verdicts = ran.end.settled.committed.as_slice();
    let committed = verdicts.iter().filter(|verdict| **verdict).count();
    [ran.number, committed as u64]
}

/// Makes a round with two workers, if the pipe is going.
fn make_round<R: Threads + Sync + Abort, A: EventApp + Send, S: Source + Send, G: Gate, T: Teller>(
    rt: &R,
    alloc: Global,
    pipe: &mut Pipe<A>,
    source: &mut S,
    gate: &G,
    teller: &mut T,
)
    requires { (number : ℕ) → T.can_take teller.old number }
{
    if pipe.going() {
        pipe.round(rt, alloc, source, &PICKER, 2, gate, teller);
    }
}

/// Four events, one of which aborts, and a batch of one more.
const FIVE_EVENTS: &[u8] =
    b"D 1 0 0 100 5\nX 2 0 1 0 1 60 6\nX 3 0 1 0 1 60 5\nX 4 1 2 1 2 60 5\nP\nD 5 2 2 1 1\n";

/// Makes three rounds over them, and returns the numbers of each batch that was told, at most `most`.
fn five_events_told<R: Threads + Sync + Abort>(
    rt: &R,
    alloc: Global,
    pipe: &mut Pipe<Ledger>,
    most: usize,
) -> Result<List<[u64; 2]>, OutOfMemory> {
    let bytes = List::from_slice(alloc, FIVE_EVENTS)?;
    let mut source = MemSource::new(bytes, 14, List::new(alloc));
    let mut teller = NumberTeller {
        told: List::new(alloc),
        most,
    };
    make_round(rt, alloc, pipe, &mut source, &FreeGate, &mut teller);
    make_round(rt, alloc, pipe, &mut source, &FreeGate, &mut teller);
    make_round(rt, alloc, pipe, &mut source, &FreeGate, &mut teller);
    Ok(teller.told)
}

/// The values of account 2 and of asset 2, if the layout has both.
fn second_values(pipe: &Pipe<Ledger>) -> Option<[u64; 2]> {
    let state = pipe.engine().state();
    let (account, asset) = (Key::of(0, 2), Key::of(1, 2));
    if !state.layout().contains(account) || !state.layout().contains(asset) {
        return None;
    }
    Some([state.get(account), state.get(asset)])
}

/// Runs the five events through a pipe that reads `ahead` batches ahead.
fn run_five_events<R: Threads + Sync + Abort>(
    rt: &R,
    alloc: Global,
    ahead: u32,
) -> Result<(), OutOfMemory>
    requires some { 1 ≤ ahead }
    requires few { ahead ≤ 2 }
{
    let mut pipe = ledger_pipe(alloc, ahead)?;
    let told = five_events_told(rt, alloc, &mut pipe, 2)?;
    let end = (pipe.going(), pipe.tail(), second_values(&pipe));
    let want = (false, Some(Tail::End), Some([61, 6]));
    assert_eq!(rt; (told.as_slice(), end), ([[1, 3], [2, 1]].as_slice(), want));
    Ok(())
}

#[test]
fn five_events_are_run(rt: HostRuntime) -> Result<(), Fail> {
    run_five_events(&rt, rt.alloc(), 1)?;
    run_five_events(&rt, rt.alloc(), 2)?;
    Ok(())
}

/// The result of the second batch is refused: the batch was run, and the pipe goes on no more.
#[test]
fn a_refused_result_ends_the_rounds(rt: HostRuntime) -> Result<(), Fail> {
    let mut pipe = ledger_pipe(rt.alloc(), 1)?;
    let told = five_events_told(&rt, rt.alloc(), &mut pipe, 1)?;
    let end = (pipe.going(), pipe.tail(), second_values(&pipe));
    let want = (false, Some(Tail::Untold), Some([61, 6]));
    assert_eq!(rt; (told.as_slice(), end), ([[1, 3]].as_slice(), want));
    Ok(())
}
