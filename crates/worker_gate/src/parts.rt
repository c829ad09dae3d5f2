//! Parts of a level: workers begin in different ones, and go on in those of the others.
ghost use Rattle.std.specs.Prelude.{◌≡◌, ◌<◌, ◌≤◌, ◌*◌, max, length};
ghost use Rattle.worker_gate.specs.Parts.{AreShares, own_part as own_part_of, part_at as part_of_turn, part_items};

/// The most parts of a level. docs/PERFORMANCE.md has the measurements.
const MOST_PARTS: usize = 4;

/// How several workers share the items of a level: in parts, each with a counter of its own.
///
/// Each worker begins with a part of its own, and goes on with the next one in the circle. So workers of different
/// threads begin at different places, and write to different counters and to different lines of memory, and each helps
/// the others when its own part is done. Workers of one thread have the same part.
#[derive(Clone, Copy, Drop)]
pub struct Shares {
    /// How many threads the workers have. Workers of one thread work one after the other.
    pub threads: usize,
    /// How many workers a thread has, at least 1. The last thread may have fewer.
    pub each: usize,
    /// How many parts a level has, from 1 to 4.
    pub parts: usize,
}

impl Shares {
    /// How this many workers share levels in this many threads: in one part for each thread, and in at most 4.
    pub fn among(workers: usize, threads: usize) -> Shares
        ensures are { AreShares result }
        ensures threads { result.threads ≡ threads }
        ensures each { workers ≤ result.each * max 1 threads }
        ensures most { result.parts ≤ max 1 threads }
    {
        Shares {
            threads,
            each: workers.div_ceil(threads.max(1)).max(1),
            parts: parts_for(threads),
        }
    }

    /// The part that the worker of this number begins with, counted from 0 like the workers.
    pub fn own_part(&self, number: usize) -> usize
        requires { AreShares self.now }
        ensures { result ≡ own_part_of self.now number }
    {
        number / self.each % self.parts
    }

    /// The part that the worker of this number is at in its turn of this number, from 0 on: its own in the first turn,
    /// and then those after it, in a circle.
    pub fn part_at(&self, number: usize, turn: usize) -> usize
        requires shares { AreShares self.now }
        requires turn { turn < self.now.parts }
        ensures { result ≡ part_of_turn self.now number turn }
    {
        (self.own_part(number) + turn) % self.parts
    }
}

/// How many parts the levels of workers in so many threads have: one for each thread, at least 1 and at most 4.
pub fn parts_for(threads: usize) -> usize
    ensures some { 1 ≤ result }
    ensures few { result ≤ 4 }
    ensures most { result ≤ max 1 threads }
{
    threads.clamp(1, MOST_PARTS)
}

/// The items of a part, if a list is cut into so many parts. All are of one length, but the last ones may be shorter,
/// or empty.
pub fn part_of<T>(items: &[T], parts: usize, part: usize) -> &[T]
    requires some { 0 < parts }
    ensures { result.now ≡ part_items items.now parts part }
{
    let size = items.len().div_ceil(parts);
    let (_, rest) = items.split_at(size.saturating_mul(part).min(items.len()));
    let (items, _) = rest.split_at(size.min(rest.len()));
    items
}
