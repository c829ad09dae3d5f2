//! What the notes say of journals.
ghost use Rattle.std.specs.Prelude.{◌≡◌, ◌+◌, ◌*◌, ◌<◌, ◌≤◌, [], ◌++◌, length, IsTrue, OnOk, OnErr};
ghost use Rattle.morph_base.specs.Plans.{IsPlan};
ghost use Rattle.run_text.specs.Calls.{buffered, PutsText, WritesText};
ghost use Rattle.morph_io.specs.Told.{behind, HasRisen};
ghost use Rattle.morph_io.specs.SinkWrites.{AppendsPart};
ghost use Rattle.run_checker.specs.Lines.{text_of};
ghost use Rattle.run_text.specs.Checks.{is_checked};
ghost use Rattle.run_text.specs.Notes.{check_note, check_notes, check_word, is_cut, step_notes};

use crate::choices::Check;
use interleaving_core::CoreEvent;
use morph_base::Plan;
use morph_io::{LineBuf, Out, Sink, WriteFailed, write_all};
use run_checker::write_event;

/// Whether the journal of a batch with this plan is cut off: it is as long as there is room for, which is 32 steps an
/// operation, and 64.
pub fn is_cut(plan: &Plan, journal: &[CoreEvent]) -> bool
    requires plan { IsPlan plan.now }
    ensures { result ≡ is_cut plan.now journal.now }
{
    journal.len() == 32 * plan.ops.len() + 64
}

/// Writes the outcome of a batch's journal to the notes, if journals are checked: its lines, if they are asked for, and
/// then whether it is right or cut off. They are written whether the notes are on or off.
pub fn note_check<N: Sink>(
    out: &mut Out,
    notes: &mut N,
    check: Check,
    number: u64,
    plan: &Plan,
    journal: &[CoreEvent],
) -> Result<(), WriteFailed>
    requires empty { out.old ≡ [] }
    requires plan { IsPlan plan.now }
    ensures written { OnOk result (N.written notes.new ≡ behind (N.written notes.old)
        (check_notes check number plan.now journal.now)) }
    ensures prefix { OnErr result (AppendsPart (N.written notes.old)
        (check_notes check number plan.now journal.now) (N.written notes.new)) }
    ensures empty { OnOk result (out.new ≡ []) }
    ensures never_falls { N.faults notes.old ≤ N.faults notes.new }
    ensures steady { OnOk result (N.faults notes.new ≡ N.faults notes.old) }
    ensures cause { OnErr result (IsTrue (is_checked check)
        × HasRisen (N.faults notes.old) (N.faults notes.new)) }
{
    if !check.is_on() {
        return Ok(());
    }
    write_check(out, notes, check, number, plan, journal)
}

/// Writes the lines of a journal, if they are asked for, and its own line.
fn write_check<N: Sink>(
    out: &mut Out,
    notes: &mut N,
    check: Check,
    number: u64,
    plan: &Plan,
    journal: &[CoreEvent],
) -> Result<(), WriteFailed>
    requires empty { out.old ≡ [] }
    requires plan { IsPlan plan.now }
    ensures text { WritesText N.written N.faults
        (step_notes check journal.now ++ check_note number (is_cut plan.now journal.now))
        result notes.old notes.new }
    ensures empty { OnOk result (out.new ≡ []) }
{
    write_steps(out, notes, check, journal)?;
    let line = check_line(number, is_cut(plan, journal));
    write_all(notes, line.bytes())
}

/// Writes the lines of a journal, if they are asked for.
fn write_steps<N: Sink>(
    out: &mut Out,
    notes: &mut N,
    check: Check,
    journal: &[CoreEvent],
) -> Result<(), WriteFailed>
    requires empty { out.old ≡ [] }
    ensures text { WritesText N.written N.faults (step_notes check journal.now)
        result notes.old notes.new }
    ensures empty { OnOk result (out.new ≡ []) }
{
    match check {
        Check::Off | Check::On => Ok(()),
        Check::Text => write_journal(out, notes, journal),
    }
}

/// Writes the lines of a journal.
fn write_journal<N: Sink>(
    out: &mut Out,
    notes: &mut N,
    journal: &[CoreEvent],
) -> Result<(), WriteFailed>
    requires empty { out.old ≡ [] }
    ensures text { WritesText N.written N.faults (text_of journal.now)
        result notes.old notes.new }
    ensures empty { OnOk result (out.new ≡ []) }
{
    put_steps(out, notes, journal)?;
    out.flush(notes)
}

/// Puts the lines of a journal, each ended by LF.
fn put_steps<N: Sink>(
    out: &mut Out,
    notes: &mut N,
    journal: &[CoreEvent],
) -> Result<(), WriteFailed>
    ensures { PutsText N.written N.faults (text_of journal.now)
        result (buffered notes.old out.old) (buffered notes.new out.new) }
{
    let mut line = LineBuf::new();
    for i in 0..journal.len() {
        line.clear();
        write_event(&journal[i], &mut line);
        line.word(b"\n");
        out.put(notes, &line)?;
    }
    Ok(())
}

/// The word of a journal that is cut off, or of one that is right.
fn check_name(cut: bool) -> &'static [u8]
    ensures word { result.now ≡ check_word cut }
    ensures short { length result.now ≤ 3 }
{
    if cut { b"cut" } else { b"yes" }
}

/// The line of a journal.
#[tactic(auto, unfolding(crate::specs::Notes::check_note))]
fn check_line(number: u64, cut: bool) -> LineBuf
    ensures { result ≡ check_note number cut }
{
    let mut line = LineBuf::new();
    line.word(b"check ");
    line.number(number);
    line.word(b": ");
    line.word(check_name(cut));
    line.word(b"\n");
    line
}
