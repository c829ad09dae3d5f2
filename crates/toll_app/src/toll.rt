ghost use Rattle.std.specs.Prelude.{◌≡◌, ◌^◌, ◌<◌, []};
ghost use Rattle.event_reader.specs.Forms.{said_in};
ghost use Rattle.event_reader.specs.Reader.{GivesEvent};
ghost use Rattle.toll_app.specs.Toll.{key, segments, table_name, reports, toll_event};

use crate::draws::write_report;
use event_reader::{
    Cause, Draws, EventApp, Form, LineFault, MakesInput, Range, TIMES, Version, Words,
};
use morph_base::{EventOps, Func, Key};
use morph_io::LineBuf;
use std::alloc::Global;

/// The number of the table of the segments' average speeds, in hundredths of a mile per hour.
pub const SPEEDS: u8 = 0;

/// The number of the table of the vehicles' places: one more than the segment that a vehicle is in, or 0 if it was
/// never reported.
pub const PLACES: u8 = 1;

/// The number of the table of the segments' counts of entries.
pub const COUNTS: u8 = 2;

/// The number of the table of the vehicles' bills, which are the sums of their tolls.
pub const BILLS: u8 = 3;

/// The most that a bill can be.
pub const GREATEST_BILL: u64 = 1_000_000;

/// The range of a speed, in miles per hour.
const MILES: Range = Range {
    least: 0,
    greatest: 100,
};

/// The application Toll Processing.
#[derive(Clone, Copy, Debug, PartialEq, Eq)]
pub struct Toll;

/// The range of a segment. One more than a segment is a value, since a size has 32 bits.
fn segments(size: u32) -> Range
    ensures { result ≡ segments size }
{
    Range::ids(size)
}

/// The key of an id in a table.
fn key(table: u8, id: u64) -> Key
    requires { id < 2 ^ 32 }
    ensures { result ≡ key table id }
{
    Key {
        table,
        id: id as u32,
    }
}

/// Reads the words of a report.
fn report(
    words: &Words<'_>,
    size: u32,
    version: Version,
    ops: &mut EventOps,
) -> Result<u64, LineFault>
    requires { ops.old ≡ [] }
    ensures { GivesEvent (said_in (reports version size) words.now) result ops.new }
{
    let places = [TIMES, Range::ids(size), segments(size), MILES];
    let numbers = words.read(&Form::new(b'T', &places))?;
    let [ts, vehicle, segment, speed] = numbers.first();
    let (average, count) = (key(SPEEDS, segment), key(COUNTS, segment));
    let (place, bill) = (key(PLACES, vehicle), key(BILLS, vehicle));
    ops.add(version.op(Func::Blend, average, &[], 100 * speed));
    ops.add(version.op(Func::Set, place, &[], segment + 1));
    ops.add(version.op(Func::Enter, count, &[place], segment + 1));
    ops.add(version.op(Func::Charge, bill, &[average, count], GREATEST_BILL));
    Ok(ts)
}

impl EventApp for Toll {
    ghost use Rattle.toll_app.specs.TollLaws.{toll_is_valid, toll_causes};

    ghost table_count = { λ _. 4 };

    ghost name_of = { λ _ table. table_name table };

    ghost event_of = { λ _ size version words. toll_event size version words };

    ghost gives_valid = { λ _ size version words e. toll_is_valid size version words e };

    ghost causes = { λ _ size version words cause. toll_causes size version words cause };

    fn tables(&self) -> u8 {
        4
    }

    fn table_name(&self, table: u8) -> &'static str {
        match table {
            SPEEDS => "spd",
            PLACES => "at",
            COUNTS => "cnt",
            _ => "bill",
        }
    }

    fn read_event(
        &self,
        _alloc: Global,
        words: &Words<'_>,
        size: u32,
        version: Version,
        ops: &mut EventOps,
    ) -> Result<u64, LineFault> {
        match words.letter() {
            Some(b'T') => report(words, size, version, ops),
            _ => Err(LineFault::Refused(Cause::Form)),
        }
    }
}

impl MakesInput for Toll {
    ghost use Rattle.toll_app.specs.TollDraws.{toll_drawn};
    ghost use Rattle.toll_app.specs.DrawLaws.{toll_generates};

    ghost generated = { λ _ size i state. toll_drawn size i state };

    ghost generates = { λ _ size i state some few start last. toll_generates size i state some
        few start last };

    fn generate(&self, draws: &mut Draws, i: u64, size: u32, line: &mut LineBuf) {
        write_report(draws, i, u64::from(size), line);
    }
}
