ghost use Rattle.std.specs.Prelude.{◌≡◌, ◌≤◌, take, length};
ghost use Rattle.event_reader.specs.Decisions.{Decides, DecidesPiece};
ghost use Rattle.event_reader.specs.Lines.{without_cr};

use crate::limits::{DECIDING_BYTES, LONGEST_LINE};
use memchr::memchr;

/// What the bytes that a reader keeps say of the first line of all that is unread, whatever follows them.
#[derive(Clone, Copy)]
pub(crate) enum Decision {
    /// It is the first `len` of them, and with its end it takes up `used`.
    Line { len: usize, used: usize },
    /// It is too long.
    Long,
    /// There is none.
    End,
    /// They decide nothing.
    Open,
}

/// How many bytes a piece has without one CR at its end.
fn line_len(piece: &[u8]) -> usize
    ensures front { take result piece.now ≡ without_cr piece.now }
    ensures len { result ≡ length (without_cr piece.now) }
    ensures bound { result ≤ length piece.now }
{
    let len = piece.len();
    if len > 0 && piece[len - 1] == b'\r' {
        len - 1
    } else {
        len
    }
}

/// Decides a piece that is a whole line, and takes up `used` bytes with its end.
fn decide_piece(piece: &[u8], used: usize) -> Decision
    ensures { DecidesPiece piece.now used result }
{
    let len = line_len(piece);
    if len > LONGEST_LINE {
        Decision::Long
    } else {
        Decision::Line { len, used }
    }
}

/// Decides the first line. `ended` says that no bytes follow those kept.
#[inline(always)]
pub(crate) fn decide(kept: &[u8], ended: bool) -> Decision
    ensures { Decides kept.now ended result }
{
    match memchr(b'\n', kept) {
        Some(at) => decide_piece(&kept[..at], at + 1),
        None if kept.len() >= DECIDING_BYTES => Decision::Long,
        None if !ended => Decision::Open,
        None if kept.is_empty() => Decision::End,
        None => decide_piece(kept, kept.len()),
    }
}
