//! The laws of the machine: what follows from its definitions, as the contracts of functions that do nothing.
//!
//! They hold for every valid plan and every cap below [`ATTEMPTS`](morph_base::ATTEMPTS), whatever the order of steps
//! and however many workers make them. A crate above cites the lemmas behind them, in `proofs/`.
ghost use Rattle.std.specs.Prelude.{◌≡◌, ℕ, ◌+◌, ◌*◌, ◌<◌, ◌≤◌, Bool, List, ◌++◌, reverse, Contains, Some};
ghost use Rattle.std.specs.Prelude.{count_by, sum_by};
ghost use Rattle.morph_base.specs.declared.plan.Plan.{Plan};
ghost use Rattle.morph_base.specs.Limits.{most_attempts};
ghost use Rattle.morph_base.specs.Plans.{IsPlan, op_count};
ghost use Rattle.morph_base.specs.Graphs.{below};
ghost use Rattle.morph_base.specs.Guesses.{stale_count};
ghost use Rattle.morph_base.specs.Words.{IsWord};
ghost use Rattle.interleaving_core.specs.declared.event.CoreEvent.{CoreEvent};
ghost use Rattle.interleaving_core.specs.declared.entry.Entry.{Entry};
ghost use Rattle.interleaving_core.specs.declared.entry.Held.{Held};
ghost use Rattle.interleaving_core.specs.declared.entry.Record.{Record};
ghost use Rattle.interleaving_core.specs.Core.{Core, start, places, IsSettledIn, value_in};
ghost use Rattle.interleaving_core.specs.Steps.{May, after, Run};
ghost use Rattle.interleaving_core.specs.Soundness.{IsSound};
ghost use Rattle.interleaving_core.specs.Growth.{Grows};
ghost use Rattle.interleaving_core.specs.Counts.{rises_at, shown_now, is_committed, evaluated, spreads};
ghost use Rattle.interleaving_core.specs.Counts.{rolled, IsExplored, AreAgreed};
ghost use Rattle.interleaving_core.specs.Orders.{Leads};
ghost use Rattle.interleaving_core.specs.Sightings.{IsNoted, IsRecordNoted};
ghost use Rattle.morph_base.specs.declared.word.OpWord.{OpWord};
ghost use Rattle.interleaving_core.specs.Schedules.{RestsOnAborted, IsFold, IsSettledOnce, HasFewAttempts};
ghost use Rattle.interleaving_core.specs.Schedules.{TellsSteps, settles};

/// The start is sound. A step that may be made keeps a sound state sound, and loses nothing that was seen before it.
///
/// Whoever shares the words between threads uses this law one step at a time.
pub fn one_step()
    ensures start { (p : Plan) (cap : ℕ) → cap < most_attempts → IsSound p cap start }
    ensures sound { (p : Plan) (cap : ℕ) (c : Core) (e : CoreEvent) → IsPlan p → cap < most_attempts
        → IsSound p cap c → May p cap c e → IsSound p cap (after p c e) }
    ensures grows { (p : Plan) (cap : ℕ) (c : Core) (e : CoreEvent) → IsPlan p → cap < most_attempts
        → IsSound p cap c → May p cap c e → Grows p c (after p c e) }
{}

/// After every list of steps that can be made one after another, the state is sound. So no settled value rests on an
/// aborted version. Settled values and decisions are the fold's. Each operation is settled at most once, by one worker.
/// Each attempt is shown at most once, there are at most cap + 1 of them, and the last rests on settled values alone.
pub fn every_schedule()
    ensures sound { (p : Plan) (cap : ℕ) (es : List CoreEvent) (c : Core) → IsPlan p
        → cap < most_attempts
        → Run p cap es c → IsSound p cap c }
    ensures none_rests { (p : Plan) (cap : ℕ) (es : List CoreEvent) (c : Core) (o : ℕ) → IsPlan p
        → cap < most_attempts → Run p cap es c → o < op_count p
        → RestsOnAborted p c o → ⊥ }
    ensures fold { (p : Plan) (cap : ℕ) (es : List CoreEvent) (c : Core) → IsPlan p
        → cap < most_attempts
        → Run p cap es c → IsFold p c }
    ensures once { (p : Plan) (cap : ℕ) (es : List CoreEvent) (c : Core) (o : ℕ) → IsPlan p
        → cap < most_attempts
        → Run p cap es c
        → (count_by (settles o) es ≤ 1) × IsSettledOnce p c }
    ensures attempts { (p : Plan) (cap : ℕ) (es : List CoreEvent) (c : Core) → IsPlan p
        → cap < most_attempts
        → Run p cap es c → HasFewAttempts p cap c }
    ensures steps { (p : Plan) (cap : ℕ) (es : List CoreEvent) (c : Core) → Run p cap es c
        → TellsSteps es c }
{}

/// Two schedules that settle the same operation settle it with the same value. Two that decide on the same event decide
/// the same.
pub fn schedules_agree()
    ensures values { (p : Plan) (cap m : ℕ) (es fs : List CoreEvent) (c d : Core) (o : ℕ) → IsPlan p
        → cap < most_attempts → m < most_attempts
        → Run p cap es c → Run p m fs d → o < op_count p → IsSettledIn c o → IsSettledIn d o
        → value_in c o ≡ value_in d o }
    ensures verdicts { (p : Plan) (cap m : ℕ) (es fs : List CoreEvent) (c d : Core) (i : ℕ)
        (a b : Bool) → IsPlan p
        → cap < most_attempts → m < most_attempts
        → Run p cap es c → Run p m fs d → c.decision i ≡ Some a → d.decision i ≡ Some b → a ≡ b }
{}

/// What [`every_schedule`] says, for one sound state. Besides, each word is in range, so that it can be packed, and an
/// operation is in at most one claim.
pub fn sound_states()
    ensures none_rests { (p : Plan) (cap : ℕ) (c : Core) (o : ℕ) → IsPlan p
        → IsSound p cap c → o < op_count p
        → RestsOnAborted p c o → ⊥ }
    ensures fold { (p : Plan) (cap : ℕ) (c : Core) → IsPlan p → IsSound p cap c → IsFold p c }
    ensures once { (p : Plan) (cap : ℕ) (c : Core) → IsPlan p → IsSound p cap c
        → IsSettledOnce p c }
    ensures attempts { (p : Plan) (cap : ℕ) (c : Core) → IsPlan p → IsSound p cap c
        → HasFewAttempts p cap c }
    ensures words { (p : Plan) (cap : ℕ) (c : Core) (o : ℕ) → IsSound p cap c → o < op_count p
        → IsWord (c.word o) }
    ensures one_claim { (p : Plan) (cap s t : ℕ) (c : Core) (g h : Held) → IsSound p cap c
        → c.claim s ≡ Some g
        → c.claim t ≡ Some h → g.op ≡ h.op → s ≡ t }
{}

/// What every list of steps counts. An operation's attempt is one more than its spreads and rollbacks. There are at
/// most cap of these for each operation, at most cap + 1 evaluations and spreads, and no spread if the cap is 1. There
/// is one evaluation for each rollback, and one for each operation whose present attempt was shown. So there is one for
/// each operation that was settled in a committed event.
pub fn counts()
    ensures attempts { (p : Plan) (cap o : ℕ) (es : List CoreEvent) (c : Core) → Run p cap es c
        → (c.word o).attempt ≡ 1 + count_by (rises_at o) es }
    ensures few_raised { (p : Plan) (cap : ℕ) (es : List CoreEvent) (c : Core) → IsPlan p
        → cap < most_attempts
        → Run p cap es c
        → spreads es + rolled es ≤ cap * op_count p }
    ensures few_shown { (p : Plan) (cap : ℕ) (es : List CoreEvent) (c : Core) → IsPlan p
        → cap < most_attempts
        → Run p cap es c
        → evaluated es + spreads es ≤ (cap + 1) * op_count p }
    ensures none_spread { (p : Plan) (es : List CoreEvent) (c : Core) → IsPlan p → Run p 1 es c
        → spreads es ≡ 0 }
    ensures shown { (p : Plan) (cap : ℕ) (es : List CoreEvent) (c : Core) → IsPlan p
        → cap < most_attempts
        → Run p cap es c
        → evaluated es ≡ rolled es + sum_by (shown_now c) (below (op_count p)) }
    ensures committed { (p : Plan) (cap : ℕ) (es : List CoreEvent) (c : Core) → IsPlan p
        → cap < most_attempts
        → Run p cap es c
        → count_by (λ o. is_committed (c.word o).state) (below (op_count p)) ≤ evaluated es }
{}

/// Suppose that all operations were evaluated once at attempt 1 by first steps `fs`. Later steps `es` roll back as many
/// operations as have a source whose guess is not its value, if at the end those still at attempt 1 have the fold's
/// values of their sources as records.
///
/// So one worker that settles the events in order counts as many rollbacks as there are wrong guesses.
pub fn stale_guesses_are_rolled_back()
    ensures { (p : Plan) (es fs : List CoreEvent) (c : Core) → IsPlan p → Run p 1 (es ++ fs) c
        → ((b : Core) → Run p 1 fs b → IsExplored p b) → AreAgreed p c
        → rolled (es ++ fs) ≡ stale_count p }
{}

/// A list of steps determines the state that it leads to. It can be read in the order in which the steps are made: from
/// the start, and on from the state after other steps.
pub fn steps_in_order()
    ensures same { (p : Plan) (cap : ℕ) (es : List CoreEvent) (c d : Core) → Run p cap es c
        → Run p cap es d → c ≡ d }
    ensures reversed { (p : Plan) (cap : ℕ) (es : List CoreEvent) (c : Core) → Run p cap es c
        → Leads p cap start (reverse es) c }
    ensures appended { (p : Plan) (cap : ℕ) (es fs : List CoreEvent) (b c : Core) → Run p cap es b
        → Leads p cap b fs c → Run p cap (reverse fs ++ es) c }
{}

/// What a worker saw of a word, and of a record under a word, stays true as the state grows. The present word may be
/// seen. As long as an attempt that was shown is the present one, its operation has a record at each place.
pub fn sightings()
    ensures words { (p : Plan) (c d : Core) (o : ℕ) (w : OpWord) → Grows p c d → IsNoted c o w
        → IsNoted d o w }
    ensures records { (p : Plan) (c d : Core) (o j x : ℕ) (w : OpWord)
        → Grows p c d → o < op_count p
        → IsRecordNoted c o j x w → IsRecordNoted d o j x w }
    ensures present { (p : Plan) (cap : ℕ) (c : Core) (o : ℕ) → IsSound p cap c → o < op_count p
        → IsNoted c o (c.word o) }
    ensures recorded { (p : Plan) (cap : ℕ) (es : List CoreEvent) (c : Core) (e : Entry)
        (j : ℕ) → IsPlan p
        → cap < most_attempts → Run p cap es c → Contains c.published e
        → e.attempt ≡ (c.word e.op).attempt
        → j < places p e.op → (r : Record) × (c.recorded e.op j ≡ Some r) }
{}
