//! The values of operations and the verdicts on events: what the fold makes of a plan, said without a state.
ghost use Rattle.std.specs.Prelude.{◌≡◌, ℕ, ◌<◌, ◌≤◌, Bool, map, length, slice_index_or};
ghost use Rattle.morph_base.specs.declared.plan.Plan.{Plan};
ghost use Rattle.morph_base.specs.States.{State};
ghost use Rattle.morph_base.specs.Outcomes.{Fate, fates};
ghost use Rattle.morph_base.specs.Graphs.{ops_in, below};
ghost use Rattle.morph_base.specs.Plans.{IsPlan, HasBases, high_of, op_count, event_of, keys_of, key_at};
ghost use Rattle.morph_base.specs.Plans.{state_at, value_at, commits_at, event_at, event_count, transactions};
ghost use Rattle.morph_base.specs.Plans.{final, verdict};
ghost use Rattle.morph_base.specs.Guesses.{IsGuess, guess};
ghost use Rattle.morph_base.specs.Clean.{source, IsClean};

/// The key that an operation reads at a place has, in the state before its event, the value of the place's source: that
/// of the last operation before the event that changes the key, or the base value if there is none.
///
/// Every way of settling uses it to read sources in place of states.
pub fn sources()
    ensures { (p : Plan) (s : State) (o j : ℕ) → IsPlan p → HasBases p s → o < op_count p
        → j < length (keys_of p o)
        → state_at p s (event_of p o) (key_at p o j) ≡ source p (value_at p s) o j }
{}

/// The values and verdicts of the fold are a clean assignment: each operation of a committed event has its answer on
/// the values of its sources; in an aborted event one fails, and each has the value of its target's source.
pub fn fold_is_clean()
    ensures { (p : Plan) (s : State) → IsPlan p → HasBases p s
        → IsClean p (value_at p s) (commits_at p s) }
{}

/// A clean assignment has the fold's value for each operation and the fold's verdict on each event, so there is only
/// one.
///
/// Whoever settles a plan in any order, or looks at what was settled, only has to see that it is clean.
pub fn clean_is_fold()
    ensures values { (p : Plan) (v : ℕ → ℕ) (c : ℕ → Bool) (o : ℕ) → IsPlan p
        → IsClean p v c → o < op_count p
        → v o ≡ final p o }
    ensures verdicts { (p : Plan) (v : ℕ → ℕ) (c : ℕ → Bool) (i : ℕ) → IsPlan p → IsClean p v c
        → i < event_count p
        → c i ≡ verdict p i }
{}

/// The fold has the same values and verdicts from every state that has the plan's bases, and from the state that the
/// bases themselves show. Contracts over plans therefore mention no state.
pub fn bases_decide()
    ensures values { (p : Plan) (s : State) (o : ℕ) → IsPlan p → HasBases p s → o < op_count p
        → value_at p s o ≡ final p o }
    ensures verdicts { (p : Plan) (s : State) (i : ℕ) → IsPlan p → HasBases p s → i < event_count p
        → commits_at p s i ≡ verdict p i }
{}

/// The fates of a plan's events, by the values of its operations and its verdicts: at each place, from any state; and
/// all at once, from a state that has the plan's bases.
///
/// With it, what is written of a settled batch is read off.
pub fn event_fates()
    ensures each { (p : Plan) (s : State) (i : ℕ) (d : Fate) → IsPlan p → i < event_count p
        → slice_index_or (fates s (transactions p)) i d
        ≡ record {
          ts = (event_at p i).ts;
          committed = commits_at p s i;
          values = map
              (value_at p s) (ops_in p i);
        } }
    ensures all { (p : Plan) (s : State) → IsPlan p → HasBases p s
        → fates s (transactions p)
        ≡ map (λ i. record {
          ts = (event_at p i).ts;
          committed = verdict p i;
          values = map (final p)
              (ops_in p i);
        }) (below (event_count p)) }
{}

/// The guess of each operation is an assignment of guesses, there is no other, and a guess is at most the greatest
/// value of the plan.
///
/// The first attempts of speculation are these guesses, in whatever order they are made.
pub fn guesses_alone()
    ensures one { (p : Plan) → IsPlan p → IsGuess p (guess p) }
    ensures alone { (p : Plan) (g : ℕ → ℕ) (o : ℕ) → IsPlan p → IsGuess p g → o < op_count p
        → g o ≡ guess p o }
    ensures small { (p : Plan) (o : ℕ) → IsPlan p → o < op_count p → guess p o ≤ high_of p }
{}
