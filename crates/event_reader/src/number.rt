ghost use Rattle.std.specs.Prelude.{◌≡◌, ◌+◌, ◌<◌, ◌≤◌, true, false, [], ◌∷◌, length, take};
ghost use Rattle.std.specs.Prelude.{slice_index, slice_index_or, MatchOption};
ghost use Rattle.std.specs.Char.{is_ascii_digit};
ghost use Rattle.std.specs.List.{list_all};
ghost use Rattle.event_reader.specs.Limits.{greatest_number};
ghost use Rattle.event_reader.specs.Words.{parts_of};
ghost use Rattle.event_reader.specs.Numbers.{number_of, is_number, cut_value};
ghost use Rattle.event_reader.specs.LineParts.{parts_after, StartsWithNumber};

use crate::limits::GREATEST_NUMBER;

/// What a word says as a number.
#[derive(Clone, Copy, Debug, PartialEq, Eq, Hash)]
pub enum Number {
    /// A number, at most [`GREATEST_NUMBER`](crate::GREATEST_NUMBER).
    Value(u64),
    /// A number above [`GREATEST_NUMBER`](crate::GREATEST_NUMBER), however many digits it has.
    TooGreat,
    /// No number: not one or more decimal digits, or a zero in front of other digits.
    NotNumber,
}

/// How many digits a line begins with, if the first `from` of them say a number above the greatest.
fn digits_behind(line: &[u8], from: usize) -> usize
    requires inside { from ≤ length line.now }
    requires digits { list_all is_ascii_digit (take from line.now) ≡ true }
    requires great { cut_value (take from line.now) ≡ greatest_number + 1 }
    ensures inside { result ≤ length line.now }
    ensures digits { list_all is_ascii_digit (take result line.now) ≡ true }
    ensures ends { result < length line.now → is_ascii_digit (slice_index line.now result) ≡ false }
    ensures great { cut_value (take result line.now) ≡ greatest_number + 1 }
{
    'digits: for i in from..line.len() {
        let byte = line[i];
        if byte < b'0' || b'9' < byte {
            return i;
        }
    }
    line.len()
}

/// How many digits a line begins with, and the number that they say, or one more than the greatest if it is greater.
fn leading_digits(line: &[u8]) -> (usize, u64)
    ensures inside { result.0 ≤ length line.now }
    ensures digits { list_all is_ascii_digit (take result.0 line.now) ≡ true }
    ensures ends { result.0 < length line.now
        → is_ascii_digit (slice_index line.now result.0) ≡ false }
    ensures value { result.1 ≡ cut_value (take result.0 line.now) }
{
    let mut value = 0u64;
    'digits: for i in 0..line.len() {
        let byte = line[i];
        if byte < b'0' || b'9' < byte {
            return (i, value);
        }
        value = 10 * value + u64::from(byte - b'0');
        // A branch and no `min`: the next digit does not wait for it.
        if value > GREATEST_NUMBER {
            return (digits_behind(line, i + 1), GREATEST_NUMBER + 1);
        }
    }
    (line.len(), value)
}

/// Whether the first `len` bytes of a line, all digits, are a number: if there are any, and no zero is in front of
/// others.
fn is_plain(line: &[u8], len: usize) -> bool
    requires inside { len ≤ length line.now }
    requires digits { list_all is_ascii_digit (take len line.now) ≡ true }
    ensures { result ≡ is_number (take len line.now) }
{
    len == 1 || (len > 1 && line[0] != b'0')
}

/// Reads a word as a number.
pub fn read_number(word: &[u8]) -> Number
    ensures { result ≡ number_of word.now }
{
    let (len, value) = leading_digits(word);
    if len < word.len() || !is_plain(word, len) {
        return Number::NotNumber;
    }
    if value > GREATEST_NUMBER {
        Number::TooGreat
    } else {
        Number::Value(value)
    }
}

/// What follows the first part of a line that begins with `len` digits, or `None` if the part has another byte behind
/// them.
fn behind_digits(line: &[u8], len: usize) -> Option<Option<&[u8]>>
    requires inside { len ≤ length line.now }
    requires digits { list_all is_ascii_digit (take len line.now) ≡ true }
    requires ends { len < length line.now
        → is_ascii_digit (slice_index line.now len) ≡ false }
    ensures { MatchOption result
        (list_all is_ascii_digit (slice_index_or (parts_of line.now) 0 []) ≡ false)
        (λ rest. parts_of line.now ≡ take len line.now ∷ parts_after rest) }
{
    if len == line.len() {
        return Some(None);
    }
    if line[len] == b' ' {
        Some(Some(&line[len + 1..]))
    } else {
        None
    }
}

/// The number that the first part of a line says, or one more than the greatest if it is greater, and what follows the
/// part. `None` if the part is no number.
pub(crate) fn first_number(line: &[u8]) -> Option<(u64, Option<&[u8]>)>
    ensures { MatchOption result
        (is_number (slice_index_or (parts_of line.now) 0 []) ≡ false)
        (λ found. StartsWithNumber line.now found.0 (parts_after found.1)) }
{
    let (len, value) = leading_digits(line);
    let rest = behind_digits(line, len)?;
    if is_plain(line, len) {
        Some((value, rest))
    } else {
        None
    }
}
