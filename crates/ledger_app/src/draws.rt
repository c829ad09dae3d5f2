ghost use Rattle.std.specs.Prelude.{◌≡◌, ◌<◌, ◌≤◌, []};
ghost use Rattle.event_reader.specs.Draws.{after_draws};
ghost use Rattle.event_reader.specs.PlainLines.{plain_line};
ghost use Rattle.ledger_app.specs.LedgerDraws.{apart, drawn_deposit, drawn_transfer};

use event_reader::{Draws, write_line};
use morph_io::LineBuf;

/// The amounts that are drawn are below this number.
const DRAWN_AMOUNTS: u64 = 1_000;

/// The second of two ids, or the id after the first if they are the same.
fn apart(size: u64, first: u64, second: u64) -> u64
    requires { first < size }
    ensures { result ≡ apart size first second }
{
    if first == second {
        (first + 1) % size
    } else {
        second
    }
}

/// Writes the deposit of event `i`. Each table has `size` ids.
pub(crate) fn write_deposit(draws: &mut Draws, i: u64, size: u64, line: &mut LineBuf)
    requires empty { line.old ≡ [] }
    requires size { 1 ≤ size }
    ensures line { line.new ≡ plain_line 68 (drawn_deposit size i draws.old) }
    ensures state { draws.new ≡ after_draws draws.old 4 }
{
    let account = draws.draw(size);
    let asset = draws.draw(size);
    let a = draws.draw(DRAWN_AMOUNTS);
    let b = draws.draw(DRAWN_AMOUNTS);
    write_line(b'D', &[i, account, asset, a, b], line);
}

/// Writes the transfer of event `i`. Each table has `size` ids.
pub(crate) fn write_transfer(draws: &mut Draws, i: u64, size: u64, line: &mut LineBuf)
    requires empty { line.old ≡ [] }
    requires size { 1 ≤ size }
    ensures line { line.new ≡ plain_line 88 (drawn_transfer size i draws.old) }
    ensures state { draws.new ≡ after_draws draws.old 6 }
{
    let src = draws.draw(size);
    let dst = draws.draw(size);
    let asrc = draws.draw(size);
    let adst = draws.draw(size);
    let a = draws.draw(DRAWN_AMOUNTS);
    let b = draws.draw(DRAWN_AMOUNTS);
    let dst = apart(size, src, dst);
    let adst = apart(size, asrc, adst);
    write_line(b'X', &[i, src, dst, asrc, adst, a, b], line);
}
