ghost use Rattle.std.specs.Prelude.{◌≡◌, ◌+◌, ◌≤◌, ◌++◌, length, IsTrue, OnOk, OnErr};
ghost use Rattle.morph_base.specs.declared.limits.TheConstants.{WORKERS};
ghost use Rattle.morph_io.specs.declared.line_buf.TheConstants.{LINE_BYTES};
ghost use Rattle.run_text.specs.Calls.{WritesText};
ghost use Rattle.morph_io.specs.Told.{behind, HasRisen};
ghost use Rattle.morph_io.specs.SinkWrites.{AppendsPart};
ghost use Rattle.run_text.specs.Notes.{noted, strategy_words, batch_note};
ghost use Rattle.run_text.specs.Values.{unit_word, explore_word, abort_word};
ghost use Rattle.run_text.specs.Notes.{tally_note, settled_note, closing_notes, audit_note};

use crate::tally::Tally;
use crate::text::put_numbers;
use crate::values::{CHAIN, EAGER, LAZY, OP, STEAL, STRATA};
use morph_base::{Abort, Explore, Plan, Strategy, Unit};
use morph_io::{LineBuf, Sink, WriteFailed, write_all};

/// Writes the line of a batch to the notes, if they are on.
pub fn note_batch<N: Sink>(
    notes: &mut N,
    on: bool,
    number: u64,
    plan: &Plan,
    strategy: Strategy,
) -> Result<(), WriteFailed>
    ensures written { OnOk result (N.written notes.new ≡ behind (N.written notes.old)
        (noted on (batch_note number plan.now strategy))) }
    ensures prefix { OnErr result (AppendsPart (N.written notes.old)
        (noted on (batch_note number plan.now strategy)) (N.written notes.new)) }
    ensures never_falls { N.faults notes.old ≤ N.faults notes.new }
    ensures steady { OnOk result (N.faults notes.new ≡ N.faults notes.old) }
    ensures cause { OnErr result (IsTrue on × HasRisen (N.faults notes.old) (N.faults notes.new)) }
{
    if !on {
        return Ok(());
    }
    let line = batch_line(number, plan, strategy);
    write_all(notes, line.bytes())
}

/// Writes to the notes what a viewer of the balances saw: after how many batches it looked, and the sum of the values
/// of table 0 then. It is written whether the notes are on or off.
pub fn note_audit<N: Sink>(notes: &mut N, number: u64, total: u64) -> Result<(), WriteFailed>
    ensures written { OnOk result (N.written notes.new ≡ behind (N.written notes.old)
        (audit_note number total)) }
    ensures prefix { OnErr result (AppendsPart (N.written notes.old)
        (audit_note number total) (N.written notes.new)) }
    ensures never_falls { N.faults notes.old ≤ N.faults notes.new }
    ensures steady { OnOk result (N.faults notes.new ≡ N.faults notes.old) }
    ensures cause { OnErr result (HasRisen (N.faults notes.old) (N.faults notes.new)) }
{
    let seen = audit_line(number, total);
    write_all(notes, seen.bytes())
}

/// Writes the lines of the tally to the notes, if they are on: the tally, and what the plain finish and each of the
/// workers settled.
pub fn note_tally<N: Sink>(
    notes: &mut N,
    on: bool,
    workers: u32,
    tally: &Tally,
) -> Result<(), WriteFailed>
    requires few { workers ≤ WORKERS }
    requires all { length tally.now.settled_by ≡ 17 }
    ensures written { OnOk result (N.written notes.new ≡ behind (N.written notes.old)
        (noted on (closing_notes workers tally.now))) }
    ensures prefix { OnErr result (AppendsPart (N.written notes.old)
        (noted on (closing_notes workers tally.now)) (N.written notes.new)) }
    ensures never_falls { N.faults notes.old ≤ N.faults notes.new }
    ensures steady { OnOk result (N.faults notes.new ≡ N.faults notes.old) }
    ensures cause { OnErr result (IsTrue on × HasRisen (N.faults notes.old) (N.faults notes.new)) }
{
    if !on {
        return Ok(());
    }
    write_tally(notes, workers, tally)
}

/// Writes the lines of the tally.
fn write_tally<N: Sink>(notes: &mut N, workers: u32, tally: &Tally) -> Result<(), WriteFailed>
    requires few { workers ≤ WORKERS }
    requires all { length tally.now.settled_by ≡ 17 }
    ensures { WritesText N.written N.faults (closing_notes workers tally.now)
        result notes.old notes.new }
{
    let first = tally_line(tally);
    write_all(notes, first.bytes())?;
    let second = settled_line(workers, tally);
    write_all(notes, second.bytes())
}

/// The word of a unit.
fn unit_name(unit: Unit) -> &'static [u8]
    ensures word { result.now ≡ unit_word unit }
    ensures short { length result.now ≤ 6 }
{
    match unit {
        Unit::Op => OP,
        Unit::Chain => CHAIN,
    }
}

/// The word of a way to explore.
fn explore_name(explore: Explore) -> &'static [u8]
    ensures word { result.now ≡ explore_word explore }
    ensures short { length result.now ≤ 6 }
{
    match explore {
        Explore::Strata => STRATA,
        Explore::Steal => STEAL,
    }
}

/// The word of a way to deal with failures.
fn abort_name(abort: Abort) -> &'static [u8]
    ensures word { result.now ≡ abort_word abort }
    ensures short { length result.now ≤ 6 }
{
    match abort {
        Abort::Lazy => LAZY,
        Abort::Eager => EAGER,
    }
}

/// Puts the words of a strategy, each after a space, behind a line that has room for them.
fn put_strategy(strategy: Strategy, line: &mut LineBuf)
    requires room { length line.old + 21 ≤ LINE_BYTES }
    ensures text { line.new ≡ line.old ++ strategy_words strategy }
    ensures short { length line.new ≤ length line.old + 21 }
{
    line.word(b" ");
    line.word(unit_name(strategy.unit));
    line.word(b" ");
    line.word(explore_name(strategy.explore));
    line.word(b" ");
    line.word(abort_name(strategy.abort));
}

/// The line of a batch.
#[tactic(auto, unfolding(crate::specs::Notes::batch_note))]
fn batch_line(number: u64, plan: &Plan, strategy: Strategy) -> LineBuf
    ensures { result ≡ batch_note number plan.now strategy }
{
    let mut line = LineBuf::new();
    line.word(b"batch ");
    line.number(number);
    line.word(b": events ");
    line.number(plan.events.len() as u64);
    line.word(b" ops ");
    line.number(plan.ops.len() as u64);
    line.word(b" levels ");
    line.number(plan.op_levels.len() as u64);
    put_strategy(strategy, &mut line);
    line.word(b"\n");
    line
}

/// The line of what a viewer saw.
#[tactic(auto, unfolding(crate::specs::Notes::audit_note))]
fn audit_line(number: u64, total: u64) -> LineBuf
    ensures { result ≡ audit_note number total }
{
    let mut line = LineBuf::new();
    line.word(b"audit ");
    line.number(number);
    line.word(b" total ");
    line.number(total);
    line.word(b"\n");
    line
}

/// The line of the tally.
#[tactic(auto, unfolding(crate::specs::Notes::tally_note))]
fn tally_line(tally: &Tally) -> LineBuf
    ensures { result ≡ tally_note tally.now }
{
    let mut line = LineBuf::new();
    line.word(b"tally: evaluated ");
    line.number(tally.evaluated);
    line.word(b" spread ");
    line.number(tally.spread);
    line.word(b" rolled ");
    line.number(tally.rolled);
    line.word(b" left ");
    line.number(tally.left);
    line.word(b" handed ");
    line.number(tally.handed);
    line.word(b" stolen ");
    line.number(tally.stolen);
    line.word(b"\n");
    line
}

/// The line of what the plain finish and each of the workers settled.
#[tactic(auto, unfolding(crate::specs::Notes::settled_note))]
fn settled_line(workers: u32, tally: &Tally) -> LineBuf
    requires few { workers ≤ WORKERS }
    requires all { length tally.now.settled_by ≡ 17 }
    ensures { result ≡ settled_note workers tally.now }
{
    let mut line = LineBuf::new();
    line.word(b"settled");
    put_numbers(&tally.settled_by[..workers as usize + 1], &mut line);
    line.word(b"\n");
    line
}
