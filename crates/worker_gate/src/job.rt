ghost use Rattle.std.specs.Prelude.{◌≡◌, ◌⊎◌, ◌↔◌, ℕ, ◌<◌, ◌≤◌, max, length, All, IsTrue, slice_index_or};
ghost use Rattle.worker_gate.specs.Sharing.{shared_from};

use crate::gate::Gate;
use std::thread;
use std::thread::Threads;

/// With fewer items than this, the first worker does them alone.
const FEW: usize = 8;

/// How many pieces of work are worth a thread. With fewer, workers who share them lose more by writing to the same
/// lines of memory than they gain by working side by side. docs/PERFORMANCE.md has the measurements.
const THREAD_PIECES: usize = 262_144;

/// The most numbers that a worker takes from a counter before it does what the first of them names.
const LONGEST_BURST: usize = 16;

/// How many bursts each worker takes, if all of them get on alike. With fewer, one that comes late has much left to do
/// when the others have nothing.
const BURSTS_EACH: usize = 8;

/// How many items count at most as work that workers can share, for each item of an average level.
const WIDTHS: usize = 64;

/// What each of several workers is to do, while the job itself is shared by all of them.
pub trait Job<W>: Sync {
    /// What a worker has to be before it does the job.
    ghost can_run: { Self → W → Type 0 };

    /// What the job makes of the worker of a number: the worker before it and after it.
    ghost changes: { Self → ℕ → W → W → Type 0 };

    /// Does the job as this worker. Its number is its place among the workers, from 0 on.
    fn run(&self, number: usize, worker: &mut W)
        requires { can_run self.now worker.old }
        ensures { changes self.now number worker.old worker.new };
}

/// How many threads this many pieces of work are worth, for this many workers: one for each 262,144 pieces, at least
/// one, and at most one for each worker.
pub fn threads_for(workers: usize, pieces: usize) -> usize
    ensures some { 1 ≤ result }
    ensures most { result ≤ max 1 workers }
{
    (pieces / THREAD_PIECES).min(workers).max(1)
}

/// Returns the pieces of work, or under a gate that [needs threads](Gate::needs_threads) as many as are worth a thread
/// for every worker.
pub fn pieces_for<G: Gate>(gate: &G, pieces: usize) -> usize {
    if gate.needs_threads() {
        usize::MAX
    } else {
        pieces
    }
}

/// Whether all workers share a level or a pass of this many items. With fewer than 8, the first worker does them alone.
pub fn is_shared(items: usize) -> bool
    ensures { IsTrue result ↔ (shared_from ≤ items) }
{
    items >= FEW
}

/// Whether the worker of this number takes part in a level of this many items. The first worker, of number 0, takes
/// part in each, and the others in those that [all share](is_shared).
pub fn takes_part(number: usize, items: usize) -> bool
    ensures { IsTrue result ↔ ((number ≡ 0) ⊎ (shared_from ≤ items)) }
{
    number == 0 || is_shared(items)
}

/// How many numbers a worker takes from a counter at a time, if this many workers share this many items: an eighth of
/// each worker's share, at least 1 and at most 16. A worker who is alone takes 16, since nobody waits for what it
/// takes.
pub fn burst_for(workers: usize, items: usize) -> usize
    ensures some { 1 ≤ result }
    ensures most { result ≤ 16 }
{
    if workers <= 1 {
        return LONGEST_BURST;
    }
    (items / workers / BURSTS_EACH).clamp(1, LONGEST_BURST)
}

/// How many of these items, which lie on so many levels, count as work that workers can share: all of them, or 64 for
/// each item of an average level. Where levels are narrow, workers who share them mostly wait for each other.
pub fn shareable(items: usize, levels: usize) -> usize {
    let width = items / levels.max(1);
    items.min(width.saturating_mul(WIDTHS))
}

/// Has each worker do the job, which has this many pieces of work for all of them together.
///
/// It returns when all have done it. There are as many threads as the pieces [are worth](threads_for), and the workers
/// of one thread do the job one after the other. If there are few pieces or one worker, or if no thread can be made,
/// all of them do it in the caller's thread.
pub fn run_all<R: Threads + Sync, W: Send, J: Job<W>>(
    rt: &R,
    workers: &mut [W],
    pieces: usize,
    job: &J,
)
    requires { All (J.can_run job.now) workers.old }
    ensures { (i : ℕ) (d : W) → i < length workers.old
        → J.changes job.now i (slice_index_or workers.old i d) (slice_index_or workers.new i d) }
{
    let threads = threads_for(workers.len(), pieces);
    thread::for_each_mut(
        rt,
        workers,
        threads,
        &|number, worker| job.run(number, worker),
    );
}

/// Has each worker do the job, as [`run_all`] does, or the first worker alone if it is a job of fewer than 8 items.
pub fn run_few_or_all<R: Threads + Sync, W: Send, J: Job<W>>(
    rt: &R,
    workers: &mut [W],
    items: usize,
    pieces: usize,
    job: &J,
)
    requires some { 0 < length workers.old }
    requires can { All (J.can_run job.now) workers.old }
    ensures first { (d : W)
        → J.changes job.now 0 (slice_index_or workers.old 0 d) (slice_index_or workers.new 0 d) }
    ensures each { (i : ℕ) (d : W) → i < length workers.old
        → J.changes job.now i (slice_index_or workers.old i d) (slice_index_or workers.new i d)
        ⊎ (slice_index_or workers.new i d ≡ slice_index_or workers.old i d) }
    ensures few { items < shared_from → (i : ℕ) (d : W) → 0 < i
        → slice_index_or workers.new i d ≡ slice_index_or workers.old i d }
    ensures many { shared_from ≤ items → (i : ℕ) (d : W) → i < length workers.old
        → J.changes job.now i (slice_index_or workers.old i d) (slice_index_or workers.new i d) }
{
    if is_shared(items) {
        run_all(rt, workers, pieces, job);
    } else {
        job.run(0, &mut workers[0]);
    }
}
