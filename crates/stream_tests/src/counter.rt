use event_reader::{
    Cause, Draws, EventApp, LineFault, MakesInput, Number, Version, Words, read_number,
};
use morph_base::{EventOps, Func, Key, LATEST};
use morph_io::LineBuf;
use std::alloc::Global;

/// The application of the tests: one counter, to which each event adds 1.
///
/// A line is a time. With one more word it is refused as same.
#[derive(Clone, Copy, Debug, PartialEq, Eq)]
pub(crate) struct Counter;

impl EventApp for Counter {
    ghost use Rattle.std.specs.Prelude.{codes};
    ghost use Rattle.stream_tests.specs.Counter.{count_event};
    ghost use Rattle.stream_tests.specs.CounterLaws.{count_valid, count_causes};

    ghost table_count = { λ _. 1 };

    ghost name_of = { λ _ _. codes "counter" };

    ghost event_of = { λ _ size version words. count_event size version words };

    ghost gives_valid = { λ _ size version words e. count_valid size version words e };

    ghost causes = { λ _ size version words cause. count_causes size version words cause };

    fn tables(&self) -> u8 {
        1
    }

    fn table_name(&self, _table: u8) -> &'static str {
        "counter"
    }

    fn read_event(
        &self,
        _alloc: Global,
        words: &Words<'_>,
        size: u32,
        version: Version,
        ops: &mut EventOps,
    ) -> Result<u64, LineFault> {
        if words.count() == 2 {
            return Err(LineFault::Refused(Cause::Same));
        }
        if words.count() != 1 {
            return Err(LineFault::Refused(Cause::Form));
        }
        match read_number(words.word(0)) {
            Number::NotNumber => Err(LineFault::Refused(Cause::Form)),
            Number::Value(ts) if ts > 0 && ts <= LATEST && size > 0 => {
                ops.add(version.op(Func::Add, Key::of(0, 0), &[], 1));
                Ok(ts)
            }
            _ => Err(LineFault::Refused(Cause::Range)),
        }
    }
}

impl MakesInput for Counter {
    ghost use Rattle.stream_tests.specs.Counter.{count_drawn};
    ghost use Rattle.stream_tests.specs.CounterLaws.{count_generates};

    ghost generated = { λ _ _ i state. count_drawn i state };

    ghost generates = { λ _ size i state some _ start last. count_generates size i state some start
        last };

    fn generate(&self, _draws: &mut Draws, i: u64, _size: u32, line: &mut LineBuf) {
        line.number(i);
    }
}
