ghost use Rattle.std.specs.Prelude.{◌≡◌, ℕ, ◌+◌, ◌^◌, ◌<◌, ◌==◌, length, IfOk, if◌then◌else◌};
ghost use Rattle.morph_base.specs.Operations.{same_key};
ghost use Rattle.morph_base.specs.Graphs.{level_of};
ghost use Rattle.morph_base.specs.Links.{AreEnds, AreLinked};
ghost use Rattle.precedence_graph.specs.Entries.{place_of, place_among, before_in};

use morph_base::{Key, List, Origin, OutOfMemory};
use std::alloc::Global;

/// An odd number whose multiples differ in their upper bits: 2^64 divided by the golden ratio.
const MULTIPLIER: u64 = 11_400_714_819_323_198_485;

/// How many ids of a table have places side by side.
const GROUP: u32 = 16;

/// An operation that was entered.
#[derive(Clone, Copy, Debug, PartialEq, Eq)]
struct Entry {
    /// The key that it changes.
    key: Key,
    /// The earlier operations at its place have numbers below this one, and the last of them is next to it. It is 0 if
    /// there is none.
    before: u32,
    /// Its level.
    level: u32,
    /// The level of its event.
    event_level: u32,
}

/// Where the value of a read comes from. It has the levels, so that they need not be read from the plan.
#[derive(Clone, Copy, Debug, PartialEq, Eq)]
pub struct Source {
    pub origin: Origin,
    /// The level of its operation, or 0 for a base.
    pub level: u32,
    /// The level of its operation's event, or 0 for a base.
    pub event_level: u32,
}

/// For each key, the last of the operations entered so far that changes it.
///
/// Each key has one of the places, and the operations of a place are walked from the last one back.
#[derive(Drop)]
pub struct Writers {
    /// For each place, 1 and the number of its last operation, or 0 if there is none.
    ends: List<u32>,
    entries: List<Entry>,
    ghost some: { 0 < length ends.items },
    ghost ended: { AreEnds (place_among entries.items (length ends.items))
        (length entries.items) ends.items },
    ghost linked: { AreLinked (place_among entries.items (length ends.items))
        (length entries.items) (before_in entries.items) },
}

impl Writers {
    ghost use Rattle.precedence_graph.specs.Writers.{entered_count, room_of, source_in, entered_level};
    ghost use Rattle.precedence_graph.specs.Writers.{entered_event_level};

    /// Makes a table without operations, with room for `n`.
    pub fn new(alloc: Global, n: usize) -> Result<Self, OutOfMemory>
        requires { n < 2 ^ 32 }
        ensures count { IfOk result (λ writers. entered_count writers ≡ 0) }
        ensures room { IfOk result (λ writers. room_of writers ≡ n) }
        ensures none { IfOk result
            (λ writers. (key : Key) → source_in writers key ≡ Origin.Base 0) }
    {
        Ok(Writers {
            ends: List::filled(alloc, (2 * n + 1).next_power_of_two(), 0)?,
            entries: List::with_room(alloc, n)?,
        })
    }

    /// Where the value of a read of `key` comes from: the last operation entered that changes the key, or `Base(0)`.
    pub fn source(&self, key: Key) -> Source
        ensures origin { result.origin ≡ source_in self.now key }
        ensures level { result.level
            ≡ level_of (entered_level self.now) (source_in self.now key) }
        ensures event_level { result.event_level
            ≡ level_of (entered_event_level self.now) (source_in self.now key) }
    {
        let mut end = *self.ends.get(place_of(key, self.ends.len()));
        while end > 0 {
            let entry = self.entries.get(end as usize - 1);
            if entry.key == key {
                return Source {
                    origin: Origin::Op(end - 1),
                    level: entry.level,
                    event_level: entry.event_level,
                };
            }
            end = entry.before;
        }
        Source {
            origin: Origin::Base(0),
            level: 0,
            event_level: 0,
        }
    }

    /// Enters the next operation, which changes `key`, with its level and that of its event.
    pub fn enter(&mut self, key: Key, level: u32, event_level: u32)
        requires room { 0 < room_of self.old }
        requires few { entered_count self.old + 1 < 2 ^ 32 }
        ensures count { entered_count self.new ≡ entered_count self.old + 1 }
        ensures room { room_of self.old ≡ room_of self.new + 1 }
        ensures source { (k : Key) → source_in self.new k
            ≡ (if same_key key k then Origin.Op (entered_count self.old) else
            source_in self.old k) }

        // It has these levels, and each other operation has those that it had.
        ensures levels { (o : ℕ) → entered_level self.new o
            ≡ (if o == entered_count self.old then level else entered_level self.old o) }
        ensures event_levels { (o : ℕ) → entered_event_level self.new o
            ≡ (if o == entered_count self.old then event_level else
            entered_event_level self.old o) }
    {
        let place = place_of(key, self.ends.len());
        let before = *self.ends.get(place);
        self.entries.add(Entry {
            key,
            before,
            level,
            event_level,
        });
        self.ends.set(place, self.entries.len() as u32);
    }
}

/// The place of a key among this many places, which are best a power of two, and at most 2^24. Neighbouring ids of a
/// table have neighbouring places, as many as lie in one line of memory; where such a group begins is taken from the
/// upper 20 bits of a product. The lower bits differ less, so that more groups would share their places.
#[tactic(auto, unfolding(crate::specs::Entries::place_of))]
fn place_of(key: Key, places: usize) -> usize
    requires { 0 < places }
    ensures place { result ≡ place_of key places }
    ensures inside { result < places }
{
    let group = u64::from(key.id / GROUP) * 256 + u64::from(key.table);
    let start = (group.wrapping_mul(MULTIPLIER) >> 44) * u64::from(GROUP);
    (start + u64::from(key.id % GROUP)) as usize & (places - 1)
}
