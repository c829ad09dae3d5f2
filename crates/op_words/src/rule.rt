//! The rule of the table, and the kinds of atomic step.
use crate::trail::View;
use atomic_table::{Join, Play, Split, TableRule};
use morph_base::Plan;
use std::snapshot::Snapshot;

/// What the table is given once, when it is made.
#[derive(Drop)]
pub struct Known {
    /// The plan whose operations have words here. This takes no bytes.
    pub plan: Snapshot<Plan>,
    /// The last attempt at which values that are not settled may be read.
    pub cap: u8,
    /// How many counters come after the level word.
    pub counters: u32,
}

/// What holds of a board between any two steps: its words show a sound state of the machine, and what each hand knows
/// is true of that state.
pub struct Rule;

impl TableRule<(), Option<View>, Known> for Rule {
    ghost use Rattle.op_words.specs.Rule.{Lawful, first_view};
    ghost use Rattle.std.specs.Prelude.{Some};

    ghost holds = { λ k. Lawful k.plan.value k.cap k.counters };

    ghost first = { λ k. Some (first_view k.plan k.cap) };
}

/// A load of an operation's word.
pub(crate) struct LoadWord;

impl Play<(), Option<View>> for LoadWord {
    ghost use Rattle.op_words.specs.Plays.{looks};

    ghost then = { looks };
}

/// A load that the view does not note.
pub(crate) struct LoadUnnoted;

impl Play<(), Option<View>> for LoadUnnoted {
    ghost use Rattle.op_words.specs.Plays.{tells};

    ghost then = { tells };
}

/// The exchange of blocked to ready.
pub(crate) struct Make;

impl Play<(), Option<View>> for Make {
    ghost use Rattle.op_words.specs.Plays.{makes};

    ghost then = { makes };
}

/// The exchange of ready to claimed.
pub(crate) struct Claim;

impl Play<(), Option<View>> for Claim {
    ghost use Rattle.op_words.specs.Plays.{claims};

    ghost then = { claims };
}

/// The store of a record.
pub(crate) struct Keep;

impl Play<(), Option<View>> for Keep {
    ghost use Rattle.op_words.specs.Plays.{keeps};

    ghost then = { keeps };
}

/// The store that ends a claim with executed or failed.
pub(crate) struct End;

impl Play<(), Option<View>> for End {
    ghost use Rattle.op_words.specs.Plays.{ends};

    ghost then = { ends };
}

/// The store that ends a claim with blocked.
pub(crate) struct Give;

impl Play<(), Option<View>> for Give {
    ghost use Rattle.op_words.specs.Plays.{gives};

    ghost then = { gives };
}

/// A load of a record.
pub(crate) struct LoadRecord;

impl Play<(), Option<View>> for LoadRecord {
    ghost use Rattle.op_words.specs.Plays.{recalls};

    ghost then = { recalls };
}

/// A load of a decision.
pub(crate) struct LoadDecision;

impl Play<(), Option<View>> for LoadDecision {
    ghost use Rattle.op_words.specs.Plays.{learns};

    ghost then = { learns };
}

/// The exchange of no decision for one.
pub(crate) struct Decide;

impl Play<(), Option<View>> for Decide {
    ghost use Rattle.op_words.specs.Plays.{decides};

    ghost then = { decides };
}

/// The exchange of a word for a settled one.
pub(crate) struct Settle;

impl Play<(), Option<View>> for Settle {
    ghost use Rattle.op_words.specs.Plays.{settles};

    ghost then = { settles };
}

/// The exchange of executed to spread.
pub(crate) struct Spread;

impl Play<(), Option<View>> for Spread {
    ghost use Rattle.op_words.specs.Plays.{spreads};

    ghost then = { spreads };
}

/// The exchange of a word with a value to blocked, at the next attempt.
pub(crate) struct Roll;

impl Play<(), Option<View>> for Roll {
    ghost use Rattle.op_words.specs.Plays.{rolls};

    ghost then = { rolls };
}

/// A new hand is split off.
pub(crate) struct SplitHand;

impl Split<Option<View>> for SplitHand {
    ghost use Rattle.op_words.specs.Plays.{staying, going};

    ghost left = { staying };

    ghost right = { going };
}

/// A hand is joined.
pub(crate) struct JoinHand;

impl Join<Option<View>> for JoinHand {
    ghost use Rattle.op_words.specs.Plays.{both};
    ghost use Rattle.std.specs.Prelude.{None};

    ghost both = { both };

    ghost spent = { None };
}
