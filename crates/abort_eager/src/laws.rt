//! What a whole cascade does, as the contracts of functions that do nothing.
//!
//! The explorers cite the lemmas behind them, in `proofs/`.
ghost use Rattle.std.specs.Prelude.{◌≡◌, ℕ, ◌<◌, ◌↔◌, Bool, List, Contains, length, Some, None};
ghost use Rattle.morph_base.specs.declared.plan.Plan.{Plan};
ghost use Rattle.morph_base.specs.Plans.{IsPlan, op_count};
ghost use Rattle.op_words.specs.declared.trail.View.{View};
ghost use Rattle.op_words.specs.Views.{IsAtRest};
ghost use Rattle.abort_eager.specs.declared.answers.Target.{Target};
ghost use Rattle.abort_eager.specs.declared.answers.Target.TheVariants.{Spread, RollBack};
ghost use Rattle.abort_eager.specs.declared.answers.Touched.{Touched};
ghost use Rattle.abort_eager.specs.declared.cascade.Cascade.{Cascade};
ghost use Rattle.abort_eager.specs.Targets.{targets, targets_left, IsSibling, IsReading};
ghost use Rattle.abort_eager.specs.Touching.{NextDoes, Touching, CascadeDoes};

/// The targets of an operation's cascade are these and no others: if it failed, each other operation of its event gets
/// the failure; and each place that reads from the operation, or if it failed from another operation of its event, is
/// rolled back.
pub fn targets_read_from_sources()
    ensures siblings { (p : Plan) (o : ℕ) (failed : Bool) → IsPlan p → o < op_count p
        → (s : ℕ) → Contains (targets p o failed) (Spread s) ↔ IsSibling p o failed s }
    ensures readers { (p : Plan) (o : ℕ) (failed : Bool) → IsPlan p → o < op_count p
        → (q j : ℕ) → Contains (targets p o failed) (RollBack q j) ↔ IsReading p o failed q j }
{}

/// Calls of [`Cascade::next`](crate::Cascade::next) up to the first `None` touch all targets that were left, in order.
/// This law is the step of a loop over them: what is done at each step, and when it ends.
pub fn calls_touch_what_is_left()
    ensures more { (p : Plan) (cap : ℕ) (a b : Cascade) (v m u : View) (t : Touched)
        → NextDoes p cap a b v m (Some t) → Touching p cap (targets_left p b) m u
        → Touching p cap (targets_left p a) v u }
    ensures fewer { (p : Plan) (cap : ℕ) (a b : Cascade) (v m : View) (t : Touched)
        → NextDoes p cap a b v m (Some t) → length (targets_left p b) < length (targets_left p a) }
    ensures end { (p : Plan) (cap : ℕ) (a b : Cascade) (v u : View)
        → NextDoes p cap a b v u None → Touching p cap (targets_left p a) v u }
{}

/// A hand that touches targets adds words to its view, and holds nothing afterwards. Its own steps are on operations of
/// these targets alone. They settle nothing: the words that it left are open.
pub fn cascades_settle_nothing()
    ensures { (p : Plan) (cap : ℕ) (gs : List Target) (v u : View) → IsAtRest v
        → Touching p cap gs v u
        → CascadeDoes gs v u }
{}
