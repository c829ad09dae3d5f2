ghost use Rattle.std.specs.Prelude.{◌≡◌, ◌+◌, ◌<◌, ◌≤◌, All, length, slice_index_or};
ghost use Rattle.event_reader.specs.Limits.{greatest_number, line_words};
ghost use Rattle.event_reader.specs.Forms.{IsFormOf, form_of, has_count, ranges_of};
ghost use Rattle.event_reader.specs.Numbers.{are_in};

use crate::ranges::{NOTHING, Range};
use std::marker::Model;

/// A form of event line: a letter, `N` numbers in their places, and then as many more numbers as it allows.
///
/// Contracts see it as its letter, the ranges of its places, the range of the numbers behind them, and the least and
/// the most count of these.
#[derive(Drop)]
pub struct Form<'a, const N: usize> {
    letter: u8,
    places: &'a [Range; N],
    more: Range,
    least: usize,
    most: usize,
}

impl<'a, const N: usize> Model for Form<'a, N> {
    ghost use Rattle.event_reader.specs.Forms.{Form as FormView, IsFormOf};

    ghost Value = { FormView };

    ghost view = { λ form. record {
      letter = form.letter;
      places = form.places.now;
      more = form.more;
      least = form.least;
      most = form.most;
    } };

    ghost invariant = { λ form. IsFormOf N (record {
      letter = form.letter;
      places = form.places.now;
      more = form.more;
      least = form.least;
      most = form.most;
    }) };
}

impl<'a, const N: usize> Form<'a, N> {
    /// A form whose lines have a number in each of these places, and no more.
    pub fn new(letter: u8, places: &'a [Range; N]) -> Self
        requires few { N < line_words }
        requires small { All (λ range. range.greatest ≤ greatest_number) places.now }
        ensures { result ≡ form_of letter places.now }
    {
        Form {
            letter,
            places,
            more: NOTHING,
            least: 0,
            most: 0,
        }
    }

    /// The form with `least` to `most` more numbers behind those of its places, each in the range `more`.
    pub fn with_more(self, more: Range, least: usize, most: usize) -> Self
        requires few { length self.places + most < line_words }
        requires ordered { least ≤ most }
        requires small { more.greatest ≤ greatest_number }
        ensures { result ≡ record self.entry { more = more; least = least; most = most } }
    {
        Form {
            more,
            least,
            most,
            ..self
        }
    }

    /// The letter that its lines begin with.
    pub(crate) fn letter(&self) -> u8
        ensures letter { result ≡ self.now.letter }
        ensures form { IsFormOf N self.now }
    {
        self.letter
    }

    /// Whether its lines can have `count` numbers.
    pub(crate) fn has_count(&self, count: usize) -> bool
        ensures { result ≡ has_count self.now count }
    {
        N + self.least <= count && count <= N + self.most
    }

    /// The range of the number at place `i`.
    fn range(&self, i: usize) -> Range
        ensures { result ≡ slice_index_or self.now.places i self.now.more }
    {
        if i < N { self.places[i] } else { self.more }
    }

    /// Whether each number is in the range of its place.
    pub(crate) fn are_in(&self, numbers: &[u64]) -> bool
        requires { length self.now.places ≤ length numbers.now }
        ensures { result ≡ are_in (ranges_of self.now (length numbers.now)) numbers.now }
    {
        'places: for i in 0..numbers.len() {
            if !self.range(i).contains(numbers[i]) {
                return false;
            }
        }
        true
    }
}
