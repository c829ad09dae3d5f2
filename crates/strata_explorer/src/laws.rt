//! What the runners did in total, once the numbers that they took are known.
ghost use Rattle.std.specs.Prelude.{ℕ, ◌<◌, List, Contains, length, slice_index_or};
ghost use Rattle.morph_base.specs.declared.plan.Plan.{Plan};
ghost use Rattle.op_words.specs.Counting.{place};
ghost use Rattle.op_words.specs.Trails.{IsReached};
ghost use Rattle.op_eval.specs.declared.runner.Runner.{Runner};
ghost use Rattle.op_eval.specs.Running.{hand_view};
ghost use Rattle.strata_explorer.specs.Levels.{HaveReached, IsWholeCounter};

/// Suppose that the numbers which runners took from a counter are known to be those below some number, as a closed board
/// shows it. Then each number of an operation of that counter was taken, and the operation was reached by the runner
/// that took it.
///
/// While hands are in use, no single view shows this: each hand knows only its own numbers.
pub fn each_place_is_reached()
    ensures { (p : Plan) (counters : ℕ) (list : ℕ → List ℕ) (rs : List Runner)
        → HaveReached p counters list rs → (d : Runner)
        → (c : ℕ) → c < counters → IsWholeCounter c rs → (n : ℕ) → n < length (list c)
        → (k : ℕ) × (k < length rs)
        × Contains (hand_view (slice_index_or rs k d)).places (place c n)
        × IsReached p (slice_index_or (list c) n 0) (hand_view (slice_index_or rs k d)).trail }
{}
