ghost use Rattle.std.specs.Prelude.{◌≡◌, ◌≤◌, [], ◌∷◌, length};
ghost use Rattle.run_checker.specs.Lines.{decision_letter, line_of};

use event_reader::write_line;
use interleaving_core::CoreEvent;
use morph_io::LineBuf;

/// The letter of a decision, behind a space.
fn decision_word(committed: bool) -> &'static [u8]
    ensures { result.now ≡ 32 ∷ decision_letter committed ∷ [] }
{
    if committed { b" c" } else { b" a" }
}

/// Puts the line of an event, without its LF, into an empty buffer: its letter and its numbers, with one space between
/// each two words. A buffer with the line has room for much more than the LF.
pub fn write_event(event: &CoreEvent, line: &mut LineBuf)
    requires empty { line.old ≡ [] }
    ensures line { line.new ≡ line_of event.now }
    ensures short { length line.new ≤ 85 }
{
    match *event {
        CoreEvent::Ready { op } => write_line(b'R', &[op.into()], line),
        CoreEvent::Claim { op, by } => write_line(b'C', &[op.into(), by.into()], line),
        CoreEvent::Fetch { op, j, by, value } => {
            write_line(b'F', &[op.into(), j.into(), by.into(), value.into()], line);
        }
        CoreEvent::Finish { op, by } => write_line(b'N', &[op.into(), by.into()], line),
        CoreEvent::GiveBack { op, by } => write_line(b'G', &[op.into(), by.into()], line),
        CoreEvent::Spread { op, sibling } => {
            write_line(b'S', &[op.into(), sibling.into()], line);
        }
        CoreEvent::RollBack { op, j } => write_line(b'B', &[op.into(), j.into()], line),
        CoreEvent::Decide { event, committed } => {
            write_line(b'D', &[event.into()], line);
            line.word(decision_word(committed));
        }
        CoreEvent::Settle { op, by } => write_line(b'T', &[op.into(), by.into()], line),
    }
}
