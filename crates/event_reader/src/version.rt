ghost use Rattle.std.specs.Prelude.{◌≡◌, ◌≤◌, length};
ghost use Rattle.morph_base.specs.declared.limits.TheConstants.{PARAMS};
ghost use Rattle.event_reader.specs.Versions.{greatest_of, is_version_line, most_events, op_in};

use crate::limits::FIRST_EVENTS;
use morph_base::{EVENTS, FIRST_MAX, Func, Key, MAX, Op};

/// The version of an input, by its first line.
#[derive(Clone, Copy, Debug, PartialEq, Eq)]
pub enum Version {
    /// Values are at most 10^12.
    One,
    /// Values are at most 10^13, and a transfer may name what must stay on the account. The first line is `morph 2`.
    Two,
}

impl Version {
    /// The greatest value of an input of the version, and the greatest amount of its lines.
    pub fn greatest(self) -> u64
        ensures { result ≡ greatest_of self }
    {
        match self {
            Version::One => FIRST_MAX,
            Version::Two => MAX,
        }
    }

    /// The most events of a batch of the version.
    pub fn most_events(self) -> usize
        ensures { result ≡ most_events self }
    {
        match self {
            Version::One => FIRST_EVENTS,
            Version::Two => EVENTS,
        }
    }

    /// An operation of an input of the version, with no floor.
    pub fn op(self, func: Func, key: Key, params: &[Key], c: u64) -> Op
        requires { length params.now ≤ PARAMS }
        ensures { result ≡ op_in self func key params.now c }
    {
        Op::new(func, key, params, c).limited(0, self.greatest())
    }
}

/// Whether an input with this first line is of version 2.
pub(crate) fn is_version(line: &[u8]) -> bool
    ensures { result ≡ is_version_line line.now }
{
    line == b"morph 2".as_slice()
}
