ghost use Rattle.std.specs.Prelude.{◌≡◌, ◌<◌, [], length};
ghost use Rattle.event_reader.specs.PlainLines.{plain_line};
ghost use Rattle.event_reader.specs.Limits.{line_words};

use morph_io::LineBuf;

/// Writes a line of one letter and numbers, with one space in front of each number, into an empty buffer.
///
/// The line has at most as many words as an event line can have.
pub fn write_line(letter: u8, numbers: &[u64], line: &mut LineBuf)
    requires empty { line.old ≡ [] }
    requires few { length numbers.now < line_words }
    ensures { line.new ≡ plain_line letter numbers.now }
{
    line.word(&[letter]);
    'numbers: for i in 0..numbers.len() {
        line.word(b" ");
        line.number(numbers[i]);
    }
}
