//! The rule over the balances that several threads share, and what each step shows its thread.
ghost use Rattle.snapshot_reader.specs.Keeping.{KeepsViews, Sees, Publishes, newcomer, informed};

use crate::balances::Balances;
use crate::change::Change;
use crate::view::View;
use atomic_table::{Join, Split};
use crossbeam_utils::rule::{Outcome, Protocol};
use left_right::reader::Reader;
use left_right::writer::Writer;

/// The balances are those after some list of batches, which begins with what each thread has seen and was told of.
pub struct WholeBatches;

impl Protocol<Balances, View> for WholeBatches {
    ghost holds = { KeepsViews };

    ghost first = { newcomer };
}

/// What a reader sees.
pub struct Seeing;

impl Outcome<Balances, View> for Seeing {
    ghost then = { Sees };
}

/// What the writer sees of what it publishes.
pub struct Publishing;

impl Outcome<Balances, View> for Publishing {
    ghost then = { Publishes };
}

/// What the writer tells a reader: it keeps what it knows, and the reader is told of it.
pub struct Telling;

impl Split<View> for Telling {
    ghost left = { λ v. v };

    ghost right = { λ v. v };
}

impl Join<View> for Telling {
    ghost both = { informed };

    ghost spent = { newcomer };
}

/// What the publisher writes the balances by.
pub type BalanceWriter = Writer<Balances, Change, View, WholeBatches>;

/// What a viewer reads the balances by.
pub type BalanceReader = Reader<Balances, View, WholeBatches>;
