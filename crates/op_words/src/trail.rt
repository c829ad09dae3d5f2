//! What contracts see of a hand. Only the small values of these types are ever made.
use interleaving_core::{CoreEvent, Entry, Held, Settling};
use morph_base::{OpWord, Plan};
use std::collections::LinkedList;
use std::snapshot::Snapshot;

/// A word of an operation that a hand loaded, or that it left there by its own step.
#[derive(Clone, Copy, Debug, PartialEq, Eq)]
pub struct Item {
    /// The operation, by its number in the plan.
    pub op: u32,
    /// The word that was loaded or left.
    pub word: OpWord,
    /// Whether the hand left it.
    pub own: bool,
}

/// The value of a record that a hand loaded or stored. `word` is the word of the operation that the hand had noted
/// last.
#[derive(Clone, Copy, Debug, PartialEq, Eq)]
pub struct RecordSeen {
    /// The operation, by its number in the plan.
    pub op: u32,
    /// The place that the operation reads: 0 is its target, and its parameters follow.
    pub place: u8,
    /// What was recorded there.
    pub value: u64,
    /// The word of the operation, which has the record's attempt.
    pub word: OpWord,
}

/// A decision on an event that a hand loaded or made.
#[derive(Clone, Copy, Debug, PartialEq, Eq)]
pub struct DecisionSeen {
    /// The event, by its number in the plan.
    pub event: u32,
    /// Whether it commits.
    pub committed: bool,
}

/// A number that a hand took from a counter.
#[derive(Clone, Copy, Debug, PartialEq, Eq)]
pub struct Place {
    /// Which counter, from 0 on.
    pub counter: u32,
    /// The number, which no other hand gets from that counter.
    pub number: u64,
}

/// What a joined hand left, under its tag: its trail, and the numbers that it took.
#[derive(Drop)]
pub struct Joined {
    /// The joined hand's number.
    pub tag: u64,
    /// The words that it loaded or left, in order.
    pub trail: LinkedList<Item>,
    /// The numbers that it took from counters.
    pub places: LinkedList<Place>,
}

/// What contracts see of a hand. No value of it is made.
#[derive(Drop)]
pub struct View {
    /// The plan of its board.
    pub plan: Snapshot<Plan>,
    /// The last attempt at which values that are not settled may be read.
    pub cap: u8,
    /// The hand's number, from 1 on. The root has 1.
    pub tag: u64,
    /// In the root, how many hands were made, the root included. In each other hand 0.
    pub made: u64,
    /// How many steps its journal has room for. It is 0 if the hand keeps none.
    pub room: u64,
    /// The operation that it holds.
    pub claim: Option<Held>,
    /// The values that it showed.
    pub published: LinkedList<Entry>,
    /// The words that it saw or made, in order, with those of the hands joined into it.
    pub notes: LinkedList<Item>,
    /// The records that it saw or made, with those of the hands joined into it.
    pub records: LinkedList<RecordSeen>,
    /// The decisions that it saw or made, with those of the hands joined into it.
    pub decisions: LinkedList<DecisionSeen>,
    /// The words that it loaded or left itself, in order.
    pub trail: LinkedList<Item>,
    /// The numbers that it took from counters.
    pub places: LinkedList<Place>,
    /// Its steps of the machine, the last one first, with those of the hands joined into it.
    pub events: LinkedList<CoreEvent>,
    /// The steps that it took itself, the last one first.
    pub own: LinkedList<CoreEvent>,
    /// The operations that it settled.
    pub settlings: LinkedList<Settling>,
    /// What the hands that were joined into it left.
    pub joined: LinkedList<Joined>,
}
