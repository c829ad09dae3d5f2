ghost use Rattle.std.specs.Prelude.{◌≡◌};
ghost use Rattle.event_reader.specs.Numbers.{is_in};

use crate::version::Version;
use morph_base::LATEST;

/// The numbers that one place of a line may have: those from `least` to `greatest`, and none if `least` is the greater
/// of the two.
#[derive(Clone, Copy, Debug, PartialEq, Eq)]
pub struct Range {
    /// The least number that the place may have.
    pub least: u64,
    /// The greatest number that the place may have.
    pub greatest: u64,
}

/// The range of a timestamp.
pub const TIMES: Range = Range {
    least: 1,
    greatest: LATEST,
};

/// The range that no number is in.
pub const NOTHING: Range = Range {
    least: 1,
    greatest: 0,
};

impl Range {
    ghost use Rattle.event_reader.specs.Ranges.{amounts, ids};

    /// The range of an amount in an input of a version.
    pub fn amounts(version: Version) -> Range
        ensures { result ≡ amounts version }
    {
        Range {
            least: 0,
            greatest: version.greatest(),
        }
    }

    /// The range of an id if a table has `size` ids. No number is in it if a table has none.
    pub fn ids(size: u32) -> Range
        ensures { result ≡ ids size }
    {
        if size == 0 {
            return NOTHING;
        }
        Range {
            least: 0,
            greatest: u64::from(size) - 1,
        }
    }

    /// Whether a number is in the range.
    pub fn contains(&self, n: u64) -> bool
        ensures { result ≡ is_in self.now n }
    {
        self.least <= n && n <= self.greatest
    }
}
