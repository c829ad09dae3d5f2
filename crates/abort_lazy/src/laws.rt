//! How much is left if few causes are kept, as the contract of a function that does nothing.
//!
//! A crate above cites the lemma behind it, in `proofs/`.
ghost use Rattle.std.specs.Prelude.{ℕ, ◌*◌, ◌≤◌, not, List, count_by};
ghost use Rattle.morph_base.specs.declared.limits.TheConstants.{EVENT_OPS};
ghost use Rattle.morph_base.specs.declared.plan.Plan.{Plan};
ghost use Rattle.morph_base.specs.Graphs.{below};
ghost use Rattle.morph_base.specs.Plans.{IsPlan, op_count};
ghost use Rattle.morph_base.specs.Words.{is_settled};
ghost use Rattle.interleaving_core.specs.Core.{Core};
ghost use Rattle.op_words.specs.declared.trail.View.{View};
ghost use Rattle.op_eval.specs.declared.answers.Left.{Left};
ghost use Rattle.abort_lazy.specs.Ended.{AreCauses, causes};

/// What [`SettledRun::close`](crate::SettledRun::close) says of the causes bounds what is left: each operation that is
/// not settled in the end is one of an event of which a cause is kept, and an event has at most
/// [`EVENT_OPS`](morph_base::EVENT_OPS) operations.
///
/// So if no cause is kept, all is settled.
pub fn few_are_left()
    ensures { (p : Plan) (c : Core) (v : View) (lists : List (List Left)) → IsPlan p
        → AreCauses p c v lists
        → count_by (λ o. not (is_settled (c.word o).state)) (below (op_count p))
        ≤ EVENT_OPS * causes lists }
{}
