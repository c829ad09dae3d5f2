ghost use Rattle.std.specs.Prelude.{◌≡◌, ◌<◌, ◌≤◌, [], length, codes};
ghost use Rattle.morph_base.specs.declared.limits.TheConstants.{PARAMS};
ghost use Rattle.event_reader.specs.Forms.{said_in};
ghost use Rattle.event_reader.specs.Reader.{GivesEvent};
ghost use Rattle.grep_app.specs.Grep.{most_cells, settings, gather, sums, grep_event};

use crate::draws::{write_setting, write_sum};
use event_reader::{
    Cause, Draws, EventApp, Form, LineFault, MakesInput, Range, TIMES, Version, Words,
    are_distinct, has_key, key_of, keys_of,
};
use morph_base::{EventOps, Func, Key, PARAMS};
use morph_io::LineBuf;
use std::alloc::Global;

/// The number of the table of cells.
pub const CELLS: u8 = 0;

/// The application GrepSum.
#[derive(Clone, Copy, Debug, PartialEq, Eq)]
pub struct Grep;

/// The most cells that one line sums.
fn most_cells(version: Version) -> usize
    ensures { result ≡ most_cells version }
{
    match version {
        Version::One => 3,
        Version::Two => PARAMS,
    }
}

/// Reads the words of a line that sets a cell.
fn set(words: &Words<'_>, size: u32, version: Version, ops: &mut EventOps) -> Result<u64, LineFault>
    requires { ops.old ≡ [] }
    ensures { GivesEvent (said_in (settings version size) words.now) result ops.new }
{
    let places = [TIMES, Range::ids(size), Range::amounts(version)];
    let numbers = words.read(&Form::new(b'W', &places))?;
    let [ts, k, v] = numbers.first();
    ops.add(version.op(Func::Set, key_of(CELLS, k), &[], v));
    Ok(ts)
}

/// Makes the event that puts the sum of some cells into another one if it is at most the limit, and keeps those cells.
fn gather(
    version: Version,
    ts: u64,
    limit: u64,
    target: Key,
    cells: &[Key],
    ops: &mut EventOps,
) -> Result<u64, LineFault>
    requires few { length cells.now ≤ PARAMS }
    requires none { ops.old ≡ [] }
    ensures { GivesEvent (gather version ts limit target cells.now) result ops.new }
{
    if has_key(cells, target) || !are_distinct(cells) {
        return Err(LineFault::Refused(Cause::Same));
    }
    ops.add(version.op(Func::Sum, target, cells, limit));
    for cell in cells {
        ops.add(version.op(Func::Keep, *cell, &[], 0));
    }
    Ok(ts)
}

/// Reads the words of a line that sums cells.
fn sum(words: &Words<'_>, size: u32, version: Version, ops: &mut EventOps) -> Result<u64, LineFault>
    requires { ops.old ≡ [] }
    ensures { GivesEvent (said_in (sums version size) words.now) result ops.new }
{
    let ids = Range::ids(size);
    let places = [TIMES, ids, Range::amounts(version)];
    let form = Form::new(b'G', &places).with_more(ids, 1, most_cells(version));
    let numbers = words.read(&form)?;
    let [ts, k, limit] = numbers.first();
    let others = numbers.rest();
    let cells: [Key; PARAMS] = keys_of(CELLS, others);
    let target = key_of(CELLS, k);
    gather(version, ts, limit, target, &cells[..others.len()], ops)
}

impl EventApp for Grep {
    ghost use Rattle.grep_app.specs.GrepLaws.{grep_is_valid, grep_causes};

    ghost table_count = { λ _. 1 };

    ghost name_of = { λ _ _. codes "cell" };

    ghost event_of = { λ _ size version words. grep_event size version words };

    ghost gives_valid = { λ _ size version words e. grep_is_valid size version words e };

    ghost causes = { λ _ size version words cause. grep_causes size version words cause };

    fn tables(&self) -> u8 {
        1
    }

    fn table_name(&self, _table: u8) -> &'static str {
        "cell"
    }

    fn read_event(
        &self,
        _alloc: Global,
        words: &Words<'_>,
        size: u32,
        version: Version,
        ops: &mut EventOps,
    ) -> Result<u64, LineFault> {
        match words.letter() {
            Some(b'W') => set(words, size, version, ops),
            Some(b'G') => sum(words, size, version, ops),
            _ => Err(LineFault::Refused(Cause::Form)),
        }
    }
}

impl MakesInput for Grep {
    ghost use Rattle.grep_app.specs.GrepDraws.{grep_drawn};
    ghost use Rattle.grep_app.specs.DrawLaws.{grep_generates};

    ghost generated = { λ _ size i state. grep_drawn size i state };

    ghost generates = { λ _ size i state some few start last. grep_generates size i state some
        few start last };

    fn generate(&self, draws: &mut Draws, i: u64, size: u32, line: &mut LineBuf) {
        let choice = draws.draw(2);
        if choice == 0 || size < 4 {
            write_setting(draws, i, u64::from(size), line);
        } else {
            write_sum(draws, i, u64::from(size), line);
        }
    }
}
