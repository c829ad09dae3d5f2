//! What workers know of a deque: the rule that all of them keep, and what each call on a deque makes of a view.

use crossbeam_deque::protocol::{Join, Outcome, Protocol, Split};
use crossbeam_deque::{Pass, Stealer, Worker};
use std::alloc::Global;
use std::collections::LinkedList;

/// What a hold on a deque has done: how many parts of the deque it has, and the items that it pushed, popped, stole and
/// left there.
///
/// No value of this type is made: it is what contracts see of an [`Owner`] or a [`Ticket`].
pub struct Log {
    pub parts: u64,
    pub pushed: LinkedList<u32>,
    pub popped: LinkedList<u32>,
    pub stolen: LinkedList<u32>,
    pub left: LinkedList<u32>,
}

/// The rule of a deque: what was pushed is what was taken or left, and what it holds.
pub struct Fair;

impl Protocol<u32, Log> for Fair {
    ghost use Rattle.std.specs.Prelude.{[]};
    ghost use Rattle.steal_explorer.specs.Handing.{log, whole, Balanced};

    ghost holds = { Balanced };

    ghost first = { log whole [] [] [] [] };

    ghost guest = { log 0 [] [] [] [] };
}

/// A push.
pub(crate) struct Puts;

impl Outcome<u32, Log> for Puts {
    ghost use Rattle.std.specs.Prelude.{◌≡◌};
    ghost use Rattle.steal_explorer.specs.Handing.{put};

    ghost then = { λ v xs w. w ≡ put v xs };
}

/// A pop of an item that is taken.
pub(crate) struct Pops;

impl Outcome<u32, Log> for Pops {
    ghost use Rattle.std.specs.Prelude.{◌≡◌};
    ghost use Rattle.steal_explorer.specs.Handing.{got, MayBeEmpty, MayTake};

    ghost then = { λ v xs w. (w ≡ got v xs) × MayTake v xs };

    ghost empty = { MayBeEmpty };
}

/// A pop of an item that nobody takes.
pub(crate) struct Leaves;

impl Outcome<u32, Log> for Leaves {
    ghost use Rattle.std.specs.Prelude.{◌≡◌};
    ghost use Rattle.steal_explorer.specs.Handing.{spare, MayBeEmpty, MayTake};

    ghost then = { λ v xs w. (w ≡ spare v xs) × MayTake v xs };

    ghost empty = { MayBeEmpty };
}

/// A steal.
pub(crate) struct Steals;

impl Outcome<u32, Log> for Steals {
    ghost use Rattle.std.specs.Prelude.{◌≡◌};
    ghost use Rattle.steal_explorer.specs.Handing.{stole, MayBeEmpty};

    ghost then = { λ v xs w. w ≡ stole v xs };

    ghost empty = { MayBeEmpty };
}

/// Lends one part of a deque.
pub(crate) struct Lends;

impl Split<Log> for Lends {
    ghost use Rattle.std.specs.Prelude.{◌-◌, []};
    ghost use Rattle.steal_explorer.specs.Handing.{log};

    ghost left = { λ v. log (v.parts - 1) v.pushed v.popped v.stolen v.left };

    ghost right = { λ v. log 1 [] [] [] [] };
}

/// Takes back what was lent.
pub(crate) struct Returns;

impl Join<Log> for Returns {
    ghost use Rattle.std.specs.Prelude.{[]};
    ghost use Rattle.steal_explorer.specs.Handing.{log, both};

    ghost both = { both };

    ghost spent = { log 0 [] [] [] [] };
}

/// The worker's end of a deque.
pub type Owner = Worker<u32, Global, Log, Fair>;

/// A deque as other workers steal from it.
pub type Thief = Stealer<u32, Global, Log, Fair>;

/// What one of these workers has done at a deque.
pub type Ticket = Pass<u32, Log>;
