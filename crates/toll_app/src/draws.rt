ghost use Rattle.std.specs.Prelude.{◌≡◌, ◌≤◌, []};
ghost use Rattle.event_reader.specs.Draws.{after_draws};
ghost use Rattle.event_reader.specs.PlainLines.{plain_line};
ghost use Rattle.toll_app.specs.TollDraws.{drawn_report};

use event_reader::{Draws, write_line};
use morph_io::LineBuf;

/// The segments that are drawn are below this number.
const DRAWN_SEGMENTS: u64 = 100;

/// The speeds that are drawn are below this number, in miles per hour.
const DRAWN_SPEEDS: u64 = 101;

/// Writes the report of event `i`. Each table has `size` ids.
pub(crate) fn write_report(draws: &mut Draws, i: u64, size: u64, line: &mut LineBuf)
    requires empty { line.old ≡ [] }
    requires size { 1 ≤ size }
    ensures line { line.new ≡ plain_line 84 (drawn_report size i draws.old) }
    ensures state { draws.new ≡ after_draws draws.old 3 }
{
    let vehicle = draws.draw(size);
    let segment = draws.draw(size.min(DRAWN_SEGMENTS));
    let speed = draws.draw(DRAWN_SPEEDS);
    write_line(b'T', &[i, vehicle, segment, speed], line);
}
