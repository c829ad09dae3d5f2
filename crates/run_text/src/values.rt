ghost use Rattle.std.specs.Prelude.{◌≡◌, ◌≤◌, map, IfSome};
ghost use Rattle.event_reader.specs.declared.limits.TheConstants.{GREATEST_NUMBER};
ghost use Rattle.run_text.specs.Values.{meaning_in, number_in, given, given_under, app_under};

use crate::choices::{App, Check, GREATEST_EVENTS, GREATEST_SEED, GREATEST_SIZE, MOST_AHEAD};
use crate::names::Name;
use crate::words::value_under;
use event_reader::{Number, Range, read_number};
use morph_base::{Abort, Explore, List, Unit, WORKERS};

/// The numbers of workers.
pub const WORKER_COUNTS: Range = Range {
    least: 1,
    greatest: WORKERS as u64,
};

/// The numbers of ids in a table.
pub const SIZES: Range = Range {
    least: 1,
    greatest: GREATEST_SIZE,
};

pub const SEEDS: Range = Range {
    least: 0,
    greatest: GREATEST_SEED,
};

pub const EVENTS: Range = Range {
    least: 0,
    greatest: GREATEST_EVENTS,
};

/// The numbers of batches that are read and planned ahead.
pub const AHEAD: Range = Range {
    least: 0,
    greatest: MOST_AHEAD,
};

/// The applications by their names.
const APPS: [(&[u8], App); 3] = [
    (b"ledger", App::Ledger),
    (b"grep", App::Grep),
    (b"toll", App::Toll),
];

pub const SWITCHES: [(&[u8], bool); 2] = [(b"on", true), (b"off", false)];

/// The words of the units, of the ways to explore and of the ways to deal with failures, in settings and in notes.
pub const OP: &[u8] = b"op";

pub const CHAIN: &[u8] = b"chain";

pub const STRATA: &[u8] = b"strata";

pub const STEAL: &[u8] = b"steal";

pub const LAZY: &[u8] = b"lazy";

pub const EAGER: &[u8] = b"eager";

/// The units by their names.
pub const UNITS: [(&[u8], Unit); 2] = [(OP, Unit::Op), (CHAIN, Unit::Chain)];

/// The ways to explore by their names.
pub const EXPLORES: [(&[u8], Explore); 2] = [(STRATA, Explore::Strata), (STEAL, Explore::Steal)];

/// The ways to deal with failures by their names.
pub const ABORTS: [(&[u8], Abort); 2] = [(LAZY, Abort::Lazy), (EAGER, Abort::Eager)];

/// Whether the program chooses the strategies.
pub const PLANS: [(&[u8], bool); 2] = [(b"auto", true), (b"fixed", false)];

/// What is done with journals, by its names.
pub const CHECKS: [(&[u8], Check); 3] = [
    (b"off", Check::Off),
    (b"on", Check::On),
    (b"text", Check::Text),
];

/// What a value means by a table of values and their meanings.
fn meaning_in<T: Copy>(table: &[(&[u8], T)], value: &[u8]) -> Option<T>
    ensures { result ≡ meaning_in (map (λ row. (row.0.now, row.1)) table.now) value.now }
{
    for (text, meaning) in table {
        if value == *text {
            return Some(*meaning);
        }
    }
    None
}

/// What is given under a name by a table, or the default if the name is not given.
pub fn meaning_under<T: Copy>(
    words: &[List<u8>],
    name: Name,
    table: &[(&[u8], T)],
    default: T,
) -> Option<T>
    ensures { result ≡ given_under name (meaning_in (map (λ row. (row.0.now, row.1)) table.now))
        default (map (λ word. word.items) words.now) }
{
    match value_under(words, name) {
        Some(value) => meaning_in(table, value),
        None => Some(default),
    }
}

/// The application that is given under a name. The inner answer is none if the name is not given.
pub fn app_under(words: &[List<u8>], name: Name) -> Option<Option<App>>
    ensures { result ≡ app_under name (map (λ word. word.items) words.now) }
{
    match value_under(words, name) {
        Some(value) => Some(Some(meaning_in(&APPS, value)?)),
        None => Some(None),
    }
}

/// The number that a value says, if it is in the range.
fn number_in(value: &[u8], range: Range) -> Option<u64>
    requires { range.greatest ≤ GREATEST_NUMBER }
    ensures says { result ≡ number_in range value.now }
    ensures fits { IfSome result (λ n. (range.least ≤ n) × (n ≤ range.greatest)) }
{
    match read_number(value) {
        Number::Value(n) if range.contains(n) => Some(n),
        _ => None,
    }
}

/// The number that is given under a name, or the default if the name is not given.
pub fn number_under(words: &[List<u8>], name: Name, range: Range, default: u64) -> Option<u64>
    requires range { range.greatest ≤ GREATEST_NUMBER }
    requires default { (range.least ≤ default) × (default ≤ range.greatest) }
    ensures says { result ≡ given_under name (number_in range) default
        (map (λ word. word.items) words.now) }
    ensures fits { IfSome result (λ n. (range.least ≤ n) × (n ≤ range.greatest)) }
{
    match value_under(words, name) {
        Some(value) => number_in(value, range),
        None => Some(default),
    }
}
