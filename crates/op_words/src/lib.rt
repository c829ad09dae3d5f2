//! The board that workers share: the words of a plan's operations, their records and decisions, a level word and some
//! counters, all in one row of atomic numbers. Several hands change the row at once, each by single atomic steps. No
//! call waits for another hand, and only `Board::new` and `Hand::keep` take memory.
//!
//! Each atomic step is one step of the machine of `interleaving_core`, or leaves the machine's state as it was. So what
//! is settled on the board is right whatever the hands do, and in whatever order.
//!
//! # An operation's way over the board
//!
//! ```text
//! let (board, mut hand) = Board::new(alloc, &plan, 7, 4)?;
//! board.ready(&mut hand, &plan, op);      // Made: each source has a value
//! board.claim(&mut hand, &plan, op);      // Held { attempt: 1 }: the hand holds it
//! board.fetch(&mut hand, &plan, op, j);   // Value(x): once for each place j, in order
//! board.finish(&mut hand, &plan, op);     // Executed(x), or Failed: others may read its value now
//! ```
//!
//! `board.attempt(&mut hand, &plan, op, 1)` does all of this in one call, and loads each source once.
//!
//! Another hand may come between any two of these calls, so each of them says what it found. A value that was read
//! before it was settled is a guess. It is judged later (`verdict`), the event is decided (`decide`), and each of its
//! operations is settled (`settle`). What a hand has judged it can decide and settle without a second look
//! (`verdict_at`, `conclude`, `settle_good`). A guess that turns out wrong is taken back (`spread`, `roll_back`), and
//! the operation runs again; `redo` does both in one call for an operation that the hand judged stale.
//!
//! # The files
//!
//! | File | What it has |
//! |---|---|
//! | `board` | `Board` and `Hand` |
//! | `board/calls` | a new board; its hands; `peek`, `ready`, `claim`, `fetch`, `finish`, `give_back` |
//! | `board/attempt` | `attempt`, which evaluates a blocked operation in one call; which attempts may read guesses |
//! | `board/verdict`, `board/decide`, `board/settle` | the calls of these names |
//! | `board/roll_back` | `spread`, `roll_back`, and whether a word is within the cap |
//! | `board/redo` | `redo`, which takes a stale operation back and evaluates it again in one call |
//! | `board/counters`, `board/hands`, `board/close` | counters and level word; a hand's own calls; the end |
//! | `board/waiting` | whether an operation's sources are there, for a worker that waits for them |
//! | `board/steps`, `board/changes`, `board/loads` | the single atomic steps that the calls are made of |
//! | `board/sources`, `board/grounds`, `board/values` | sources loaded place by place; values that a hand fetched |
//! | `answers` | what the calls return |
//! | `trail`, `journal` | what contracts see of a hand; the steps that a hand writes down |
//! | `rule`, `counter_plays` | the rule of the table, and the kinds of atomic step |
//! | `words`, `places`, `note` | the numbers in the row; the places of an operation; notes in a journal |
//! | `closed` | `Closed`, a board after its end: its words, decisions and counts, and the root's journal |
//! | `laws` | what is proved of every step |
//!
//! # The specs
//!
//! Begin with `specs/Views.antt`, which says what a hand knows, and `specs/Calls.antt`, which says what each call adds
//! to that and why it answers as it does. `specs/Attempts.antt` does so for `attempt`, and `specs/Redoing.antt` for
//! `redo`; `specs/Judging.antt` and `specs/Retrying.antt` do so for the calls that judge, settle and take back. The
//! rule behind them all is `Lawful` in `specs/Rule.antt`. `specs/Kinds.antt` says which step of the machine each atomic
//! step is.
#![tactic(auto)]

mod answers;
mod board;
mod closed;
mod counter_plays;
mod journal;
pub mod laws;
mod note;
mod places;
mod rule;
mod trail;
mod words;

pub use answers::{
    Attempt, Claimed, Counts, Decided, Fetched, Outcome, Readied, Redone, Rolled, SettleAnswer,
    Spreaded, Verdict,
};
pub use board::{Board, Hand};
pub use closed::Closed;
pub use places::places_of;
pub use rule::{Known, Rule};
pub use trail::{DecisionSeen, Item, Joined, Place, RecordSeen, View};
