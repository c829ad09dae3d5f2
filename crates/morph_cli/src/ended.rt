ghost use Rattle.std.specs.Prelude.{◌≡◌, ◌≤◌};
ghost use Rattle.morph_cli.specs.Status.{EndsNotes, EndsWith, status_of, note_at};
ghost use Rattle.run_text.specs.Counts.{no_tally};

use crate::fault::Fault;
use crate::run::Finish;
use morph_io::{Sink, write_all};
use run_text::Tally;

/// How the program ends.
#[derive(Clone, Copy, Debug, PartialEq, Eq)]
pub struct Ended {
    /// 0: all was read, applied and written; 2: usage; 3: a refused line; 4: a read failed; 5: a write failed; 6: out
    /// of memory; 7: the input is too long.
    pub status: u8,
    /// What was done until then.
    pub tally: Tally,
}

/// Ends a call whose words are no settings: the last line of the notes is its usage.
pub fn end_unasked<N: Sink>(notes: &mut N, usage: &[u8]) -> Ended
    ensures status { result.status ≡ 2 }
    ensures tally { result.tally ≡ no_tally }
    ensures last { EndsWith usage.now (N.written notes.old) (N.written notes.new)
        (N.faults notes.old) (N.faults notes.new) }
{
    write_last(notes, usage);
    Ended {
        status: 2,
        tally: Tally::new(),
    }
}

/// Ends a call after its run: writes the last line of the notes.
pub fn end_run<N: Sink>(notes: &mut N, end: &Result<Finish, Fault>, tally: Tally) -> Ended
    ensures status { result.status ≡ status_of end.now }
    ensures tally { result.tally ≡ tally }
    ensures last { EndsNotes (status_of end.now) (N.written notes.old) (N.written notes.new)
        (N.faults notes.old) (N.faults notes.new) }
    ensures never_falls { N.faults notes.old ≤ N.faults notes.new }
{
    write_last(notes, note_of(end));
    Ended {
        status: status(end),
        tally,
    }
}

/// Writes a last line to the notes. If writing fails, nothing else changes: a part of the line then stands there.
fn write_last<N: Sink>(notes: &mut N, line: &[u8])
    ensures last { EndsWith line.now (N.written notes.old) (N.written notes.new)
        (N.faults notes.old) (N.faults notes.new) }
    ensures never_falls { N.faults notes.old ≤ N.faults notes.new }
{
    let _ = write_all(notes, line);
}

/// The status of a run.
fn status(end: &Result<Finish, Fault>) -> u8
    ensures { result ≡ status_of end.now }
{
    match end {
        Ok(Finish::Complete) => 0,
        Ok(Finish::Refused) => 3,
        Err(Fault::Read) => 4,
        Err(Fault::Write) => 5,
        Err(Fault::OutOfMemory) => 6,
        Err(Fault::TooLong) => 7,
    }
}

/// The last line of the notes of a run; nothing if the run had no fault.
fn note_of(end: &Result<Finish, Fault>) -> &'static [u8]
    ensures { result.now ≡ note_at (status_of end.now) }
{
    match end {
        Ok(_) => b"",
        Err(Fault::Read) => b"morph: read failed\n",
        Err(Fault::Write) => b"morph: write failed\n",
        Err(Fault::OutOfMemory) => b"morph: out of memory\n",
        Err(Fault::TooLong) => b"morph: input too long\n",
    }
}
