ghost use Rattle.std.specs.Prelude.{◌≡◌, ◌≤◌, length, take, drop};
ghost use Rattle.event_reader.specs.Limits.{line_words};
ghost use Rattle.event_reader.specs.Forms.{IsFormOf, numbers_by, has_form};
ghost use Rattle.event_reader.specs.LineParts.{parts_after, AreCutUpTo};

use crate::cause::Cause;
use crate::form::Form;
use crate::limits::LINE_WORDS;
use crate::number::first_number;
use crate::words::Words;
use std::marker::Model;

/// Places for the numbers of a line, which a caller lends to [`Words::split`](crate::Words::split). What is in them
/// between two lines does not matter.
#[derive(Debug, Drop)]
pub struct NumberPlaces {
    pub(crate) numbers: [u64; LINE_WORDS],
}

impl NumberPlaces {
    /// Places for as many numbers as a line can have.
    pub fn new() -> Self {
        NumberPlaces {
            numbers: [0; LINE_WORDS],
        }
    }
}

/// Reads numbers from parts of a line, up to the first part that is no number, and returns how many there are, and the
/// parts behind them. Each number is cut at one more than the greatest.
pub(crate) fn read_numbers<'a>(
    parts: Option<&'a [u8]>,
    numbers: &mut [u64; LINE_WORDS],
) -> (usize, Option<&'a [u8]>)
    requires { length numbers.old ≡ line_words }
    ensures { AreCutUpTo (parts_after parts.entry) result.0 numbers.new (parts_after result.1) }
{
    let mut rest = parts;
    'numbers: for i in 0..LINE_WORDS - 1 {
        let Some(line) = rest else {
            return (i, None);
        };
        let Some((number, behind)) = first_number(line) else {
            return (i, rest);
        };
        numbers[i] = number;
        rest = behind;
    }
    (LINE_WORDS - 1, rest)
}

/// The numbers of a line, `N` of them in places of their own, which contracts see as a list.
#[derive(Drop)]
pub struct Numbers<'a, const N: usize> {
    numbers: &'a [u64],
}

impl<'a, const N: usize> Model for Numbers<'a, N> {
    ghost use Rattle.std.specs.Prelude.{ℕ, ◌≤◌, List, length};

    ghost Value = { List ℕ };

    ghost view = { λ numbers. numbers.numbers.now };

    ghost invariant = { λ numbers. N ≤ length numbers.numbers.now };
}

impl<'a, const N: usize> Numbers<'a, N> {
    /// The numbers in places of their own.
    pub fn first(&self) -> [u64; N]
        ensures { result ≡ take N self.now }
    {
        let mut first = [0; N];
        first.copy_from_slice(&self.numbers[..N]);
        first
    }

    /// The numbers behind those in places of their own.
    pub fn rest(&self) -> &[u64]
        ensures { result.now ≡ drop N self.now }
    {
        &self.numbers[N..]
    }
}

impl Words<'_> {
    /// Whether the words are those of a line of the form, as far as their letter and their count go.
    fn has_form<const N: usize>(&self, form: &Form<'_, N>) -> bool
        ensures has { result ≡ has_form form.now self.now }
        ensures form { IsFormOf N form.now }
    {
        let letter = form.letter();
        match self.letter() {
            Some(byte) => byte == letter && form.has_count(self.count() - 1),
            None => false,
        }
    }

    /// Reads the words as a line of the form: the numbers behind its letter.
    ///
    /// The cause is [`Cause::Form`] if the letter or the count is not the form's or a word is no number, and else
    /// [`Cause::Range`] if a number is out of the range of its place.
    pub fn read<const N: usize>(&self, form: &Form<'_, N>) -> Result<Numbers<'_, N>, Cause>
        ensures { result ≡ numbers_by form.now self.now }
    {
        if !self.has_form(form) {
            return Err(Cause::Form);
        }
        let Some(numbers) = self.cut_numbers() else {
            return Err(Cause::Form);
        };
        if form.are_in(numbers) {
            Ok(Numbers { numbers })
        } else {
            Err(Cause::Range)
        }
    }
}
