ghost use Rattle.std.specs.Prelude.{◌≡◌, ℕ, ◌+◌, ◌<◌, ◌≤◌, ◌^◌, All, count_by, length, slice_index, sum, sum_by};
ghost use Rattle.morph_base.specs.Limits.{most_workers};
ghost use Rattle.morph_base.specs.Plans.{IsPlan, IsSettledOf};
ghost use Rattle.morph_engine.specs.Accounts.{account_of, settled_by};
ghost use Rattle.morph_engine.specs.Fates.{settled_fates};
ghost use Rattle.run_text.specs.Counts.{no_tally, counted_to, HasRoom, CountsBatch};

use morph_base::List;
use morph_engine::BatchEnd;
use op_eval::Left;

/// What was done in a run, over the batches that were run.
#[derive(Clone, Copy, Debug, PartialEq, Eq)]
pub struct Tally {
    /// How many batches were run.
    pub batches: u64,
    /// The events of these batches.
    pub events: u64,
    /// Those of the events that committed.
    pub committed: u64,
    /// Those of the events that aborted.
    pub aborted: u64,
    /// The operations of these events.
    pub ops: u64,
    /// How often an operation was evaluated.
    pub evaluated: u64,
    /// How many operations were told, while batches were explored, that another operation of their event had failed: 0
    /// with lazy abort.
    pub spread: u64,
    /// How many operations were rolled back because a source had got another value than they had read.
    pub rolled: u64,
    /// How many operations were settled by the plain finish, at 0, and by each worker, at its number from 1 on.
    pub settled_by: [u64; 17],
    /// How many causes were kept why an event was left to the plain finish. It stops at the greatest number.
    pub left: u64,
    /// How many operations were handed out to workers by deques. It stops at the greatest number.
    pub handed: u64,
    /// How many of these a worker took from another's deque. It stops at the greatest number.
    pub stolen: u64,
}

impl Tally {
    /// The tally of a run of no batch.
    pub fn new() -> Self
        ensures { result ≡ no_tally }
    {
        Tally {
            batches: 0,
            events: 0,
            committed: 0,
            aborted: 0,
            ops: 0,
            evaluated: 0,
            spread: 0,
            rolled: 0,
            settled_by: [0; 17],
            left: 0,
            handed: 0,
            stolen: 0,
        }
    }

    /// Counts a batch that was run.
    pub fn add(&mut self, end: &BatchEnd)
        requires plan { IsPlan end.now.plan }
        requires settled { IsSettledOf end.now.plan end.now.settled }
        requires room { HasRoom self.old (account_of end.now) }
        ensures { CountsBatch self.old self.new (account_of end.now)
            (settled_fates end.now.plan end.now.settled) }
    {
        let events = end.plan.events.len();
        let committed = commits(end.settled.committed.as_slice());
        self.batches += 1;
        self.events += events as u64;
        self.committed += committed as u64;
        self.aborted += (events - committed) as u64;
        self.ops += end.plan.ops.len() as u64;
        self.evaluated += end.counts.evaluated;
        self.spread += end.counts.spread;
        self.rolled += end.counts.rolled;
        count_each(end.settled.by.as_slice(), &mut self.settled_by);
        self.left = self.left.saturating_add(causes(end.left.as_slice()));
        self.handed = self.handed.saturating_add(end.handed);
        self.stolen = self.stolen.saturating_add(end.stolen);
    }
}

/// How many of some verdicts commit.
fn commits(verdicts: &[bool]) -> usize
    ensures { result ≡ count_by (λ verdict. verdict) verdicts.now }
{
    verdicts.iter().filter(|verdict| **verdict).count()
}

/// Counts each of these workers once more; 0 is the plain finish. Neighbours mostly have one worker, so a run of one is
/// counted at once: a number in memory that is raised again and again makes the processor wait.
fn count_each(workers: &[u8], counts: &mut [u64])
    requires inside { All (λ w. w ≤ most_workers) workers.now }
    requires all { length counts.old ≡ most_workers + 1 }
    requires room { sum counts.old + length workers.now < 2 ^ 64 }
    ensures each { (w : ℕ) → w ≤ most_workers
        → slice_index counts.new w ≡ slice_index counts.old w + settled_by workers.now w }
    ensures sum { sum counts.new ≡ sum counts.old + length workers.now }
{
    let mut last: u8 = 0;
    let mut run: u64 = 0;
    for worker in workers {
        if *worker != last {
            counts[usize::from(last)] += run;
            last = *worker;
            run = 0;
        }
        run += 1;
    }
    counts[usize::from(last)] += run;
}

/// How many causes some lists have, or the greatest number if there are more.
fn causes(lists: &[List<Left>]) -> u64
    ensures { result ≡ counted_to (sum_by (λ list. length list.items) lists.now) }
{
    let mut count: u64 = 0;
    for list in lists {
        count = count.saturating_add(list.len() as u64);
    }
    count
}
