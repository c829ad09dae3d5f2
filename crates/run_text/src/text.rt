ghost use Rattle.std.specs.Prelude.{◌≡◌, ◌+◌, ◌*◌, ◌<◌, ◌≤◌, [], ◌++◌, length};
ghost use Rattle.std.specs.List.{flat_map};
ghost use Rattle.morph_io.specs.declared.line_buf.TheConstants.{LINE_BYTES};
ghost use Rattle.morph_base.specs.Plans.{IsPlan, IsSettledOf, event_count};
ghost use Rattle.morph_engine.specs.Fates.{settled_fate};
ghost use Rattle.run_text.specs.Text.{after_space, event_text};

use morph_base::{Plan, Settled};
use morph_io::LineBuf;

/// Puts the line of event `i` of a plan, without its LF, into an empty line: `ts C v1 v2 ..` with the values of its
/// targets after it if it commits, `ts A` if it aborts.
pub fn event_line(plan: &Plan, settled: &Settled, i: u32, line: &mut LineBuf)
    requires plan { IsPlan plan.now }
    requires settled { IsSettledOf plan.now settled.now }
    requires event { i < event_count plan.now }
    requires empty { line.old ≡ [] }
    ensures text { line.new ≡ event_text (settled_fate plan.now settled.now i) }
    ensures short { length line.new < LINE_BYTES }
{
    let event = plan.events.get(i as usize);
    line.number(event.ts);
    if !*settled.committed.get(i as usize) {
        line.word(b" A");
        return;
    }
    line.word(b" C");
    let first = event.first as usize;
    let values = &settled.values.as_slice()[first..first + event.count as usize];
    put_numbers(values, line);
}

/// Puts each number after a space behind a line that has room for them.
pub fn put_numbers(numbers: &[u64], line: &mut LineBuf)
    requires room { length line.old + 21 * length numbers.now ≤ LINE_BYTES }
    ensures text { line.new ≡ line.old ++ flat_map after_space numbers.now }
    ensures short { length line.new ≤ length line.old + 21 * length numbers.now }
{
    for number in numbers {
        line.word(b" ");
        line.number(*number);
    }
}
