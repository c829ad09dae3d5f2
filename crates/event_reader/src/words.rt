ghost use Rattle.std.specs.Prelude.{◌≡◌, ℕ, ◌<◌, ◌≤◌, List, [], ◌∷◌, length, drop};
ghost use Rattle.std.specs.Prelude.{position, slice_index_or, false, MatchOption};
ghost use Rattle.std.specs.List.{list_all};
ghost use Rattle.event_reader.specs.Numbers.{is_number, AreCutNumbers};
ghost use Rattle.event_reader.specs.Words.{is_space, parts_of, words_of};
ghost use Rattle.event_reader.specs.LineParts.{parts_after, counted, HasRest, AreCutUpTo};
ghost use Rattle.event_reader.specs.Limits.{line_words};
ghost use Rattle.event_reader.specs.Forms.{only, letter_of};

use crate::limits::LINE_WORDS;
use crate::numbers::{NumberPlaces, read_numbers};
use std::marker::Model;

/// The words of a line, which contracts see as a list of lists of bytes: at most [`LINE_WORDS`] words, none empty.
///
/// The line is kept as it is: a word is looked for when it is asked for. The numbers that the words say are kept, since
/// they are read as the line is cut. They lie in places that the caller lends.
#[derive(Drop)]
pub struct Words<'a> {
    line: &'a [u8],
    count: usize,
    /// What the words after the first say, up to the first of them that is no number.
    numbers: &'a [u64],
}

impl<'a> Model for Words<'a> {
    ghost use Rattle.std.specs.Prelude.{ℕ, List};
    ghost use Rattle.event_reader.specs.Words.{parts_of};
    ghost use Rattle.event_reader.specs.LineParts.{HasParts};

    ghost Value = { List (List ℕ) };

    ghost view = { λ w. parts_of w.line.now };

    ghost invariant = { λ w. HasParts w.line.now w.count w.numbers.now };
}

/// Where the first space of a line is.
fn first_space(line: &[u8]) -> Option<usize>
    ensures { result ≡ position is_space line.now }
{
    // Words are short: to look at each byte takes less than to begin a search by blocks.
    line.iter().position(|byte| *byte == b' ')
}

/// The part of a line in front of its first space, and what follows that space; the whole line if it has none.
fn first_part(line: &[u8]) -> (&[u8], Option<&[u8]>)
    ensures { parts_of line.now ≡ result.0.now ∷ parts_after result.1 }
{
    match first_space(line) {
        Some(at) => (&line[..at], Some(&line[at + 1..])),
        None => (line, None),
    }
}

/// What follows the first space of a line; nothing if it has none.
fn behind_first(line: &[u8]) -> &[u8]
    ensures { HasRest line.now result.now }
{
    match first_part(line).1 {
        Some(rest) => rest,
        None => &line[..0],
    }
}

/// The only byte of a word.
fn only(word: &[u8]) -> Option<u8>
    ensures { result ≡ only word.now }
{
    if word.len() == 1 { Some(word[0]) } else { None }
}

/// How many parts there are, if none is empty and there are at most `most`.
fn count_words(parts: Option<&[u8]>, most: usize) -> Option<usize>
    requires { most < line_words }
    ensures { result ≡ counted most (parts_after parts.entry) }
{
    let mut rest = parts;
    'parts: for i in 0..most + 1 {
        let Some(line) = rest else {
            return Some(i);
        };
        let (part, behind) = first_part(line);
        if part.is_empty() {
            return None;
        }
        rest = behind;
    }
    None
}

impl<'a> Words<'a> {
    /// Cuts a line at its spaces. The result is `None` exactly if the words are not separated by one space each: if a
    /// word would be empty, also at either end, or if there are more than [`LINE_WORDS`].
    ///
    /// The numbers of the line go into the places, whatever was there. A caller who reads many lines lends the same
    /// places for each of them.
    #[inline(always)]
    pub fn split(line: &'a [u8], places: &'a mut NumberPlaces) -> Option<Words<'a>>
        ensures { result ≡ words_of line.now }
    {
        let (first, behind) = first_part(line);
        if first.is_empty() {
            return None;
        }
        let (known, rest) = read_numbers(behind, &mut places.numbers);
        let others = count_words(rest, LINE_WORDS - 1 - known)?;
        Some(Words {
            line,
            count: 1 + known + others,
            numbers: &places.numbers[..known],
        })
    }

    /// The number of words.
    pub fn count(&self) -> usize
        ensures count { result ≡ length self.now }
        ensures few { result ≤ line_words }
    {
        self.count
    }

    /// The letter that the line begins with: the only byte of the first word. `None` if that word has more bytes.
    pub fn letter(&self) -> Option<u8>
        ensures { result ≡ letter_of self.now }
    {
        only(first_part(self.line).0)
    }

    /// The numbers that the words after the first say, each cut at one more than the greatest; `None` if a word is no
    /// number.
    pub(crate) fn cut_numbers(&self) -> Option<&[u64]>
        ensures { MatchOption result (list_all is_number (drop 1 self.now)
            ≡ false) (λ numbers. AreCutNumbers (drop 1 self.now) numbers.now) }
    {
        if self.numbers.len() + 1 < self.count {
            return None;
        }
        Some(self.numbers)
    }

    /// The word at place `i`, for which the line is gone over up to there.
    pub fn word(&self, i: usize) -> &[u8]
        requires { i < length self.now }
        ensures { result.now ≡ slice_index_or self.now i [] }
    {
        let mut rest = self.line;
        'places: for place in 0..i {
            rest = behind_first(rest);
        }
        first_part(rest).0
    }
}
