ghost use Rattle.std.specs.Prelude.{◌≡◌, ◌^◌, ◌<◌, ◌≤◌, []};
ghost use Rattle.event_reader.specs.Draws.{after_draws};
ghost use Rattle.event_reader.specs.PlainLines.{plain_line};
ghost use Rattle.grep_app.specs.GrepDraws.{drawn_setting, drawn_sum};

use event_reader::{Draws, write_line};
use morph_io::LineBuf;

/// The values that are drawn are below this number.
const DRAWN_VALUES: u64 = 1_000;

/// The limits that are drawn are below this number.
const DRAWN_LIMITS: u64 = 4_000;

/// Writes the line of event `i` that sets a cell. There are `size` cells.
pub(crate) fn write_setting(draws: &mut Draws, i: u64, size: u64, line: &mut LineBuf)
    requires empty { line.old ≡ [] }
    requires size { 1 ≤ size }
    ensures line { line.new ≡ plain_line 87 (drawn_setting size i draws.old) }
    ensures state { draws.new ≡ after_draws draws.old 2 }
{
    let k = draws.draw(size);
    let v = draws.draw(DRAWN_VALUES);
    write_line(b'W', &[i, k, v], line);
}

/// Writes the line of event `i` that sums one to three cells. There are `size` cells.
pub(crate) fn write_sum(draws: &mut Draws, i: u64, size: u64, line: &mut LineBuf)
    requires empty { line.old ≡ [] }
    requires some { 1 ≤ size }
    requires few { size < 2 ^ 32 }
    ensures line { line.new ≡ plain_line 71 (drawn_sum size i draws.old) }
    ensures state { draws.new ≡ after_draws draws.old 3 }
{
    let k = draws.draw(size);
    let many = draws.draw(3) as usize + 1;
    let limit = draws.draw(DRAWN_LIMITS);
    let numbers = [i, k, limit, (k + 1) % size, (k + 2) % size, (k + 3) % size];
    write_line(b'G', &numbers[..many + 3], line);
}
