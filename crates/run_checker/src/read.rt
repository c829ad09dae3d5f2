ghost use Rattle.std.specs.Prelude.{◌≡◌, IfSome, IfNone, drop};
ghost use Rattle.run_checker.specs.LineEvents.{kinds, said_by, event_said, BeginsWithNone, BeginsWith, Tells};

use crate::fault::JournalFault;
use crate::words::{decided, fetched, op, op_and_small, two_ops};
use event_reader::{NumberPlaces, Words};
use interleaving_core::CoreEvent;
use memchr::memchr;
use morph_base::List;
use std::alloc::Global;

/// The event that the words of a line say behind their letter.
fn said_by(letter: u8, words: &Words<'_>) -> Option<CoreEvent>
    ensures { result ≡ said_by kinds letter (drop 1 words.now) }
{
    match letter {
        b'R' => {
            let op = op(words)?;
            Some(CoreEvent::Ready { op })
        }
        b'C' => {
            let (op, by) = op_and_small(words)?;
            Some(CoreEvent::Claim { op, by })
        }
        b'F' => {
            let ((op, j), (by, value)) = fetched(words)?;
            Some(CoreEvent::Fetch { op, j, by, value })
        }
        b'N' => {
            let (op, by) = op_and_small(words)?;
            Some(CoreEvent::Finish { op, by })
        }
        b'G' => {
            let (op, by) = op_and_small(words)?;
            Some(CoreEvent::GiveBack { op, by })
        }
        b'S' => {
            let (op, sibling) = two_ops(words)?;
            Some(CoreEvent::Spread { op, sibling })
        }
        b'B' => {
            let (op, j) = op_and_small(words)?;
            Some(CoreEvent::RollBack { op, j })
        }
        b'D' => {
            let (event, committed) = decided(words)?;
            Some(CoreEvent::Decide { event, committed })
        }
        b'T' => {
            let (op, by) = op_and_small(words)?;
            Some(CoreEvent::Settle { op, by })
        }
        _ => None,
    }
}

/// The event that a line says, which has no LF at its end.
fn read_event(line: &[u8]) -> Option<CoreEvent>
    ensures { result ≡ event_said line.now }
{
    let mut places = NumberPlaces::new();
    let words = Words::split(line, &mut places)?;
    let letter = words.letter()?;
    said_by(letter, &words)
}

/// The event that the first line says, and what follows its LF.
fn first_event(bytes: &[u8]) -> Option<(CoreEvent, &[u8])>
    ensures some { IfSome result (λ r. BeginsWith bytes.now r.0 r.1.now) }
    ensures none { IfNone result (BeginsWithNone bytes.now) }
{
    let end = memchr(b'\n', bytes)?;
    let event = read_event(&bytes[..end])?;
    Some((event, &bytes[end + 1..]))
}

/// Reads a text as a journal: lines as [`write_event`](crate::write_event) writes them, each ended by LF.
///
/// Operations and events are numbers up to 4294967295, places and workers up to 255, and values up to 10^13.
pub fn read_journal(alloc: Global, bytes: &[u8]) -> Result<List<CoreEvent>, JournalFault>
    ensures tells { Tells bytes.now result }
{
    let mut events = List::new(alloc);
    let mut rest = bytes;
    let mut line = 1u64;
    'lines: while !rest.is_empty() {
        let Some((event, more)) = first_event(rest) else {
            return Err(JournalFault::Form { line });
        };
        events.push(event)?;
        rest = more;
        line += 1;
    }
    Ok(events)
}
