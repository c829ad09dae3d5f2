//! Valid plans: their bases, their numbers and the bounds of their values.
ghost use Rattle.std.specs.Prelude.{◌≡◌, ℕ, ◌+◌, ◌*◌, ◌<◌, ◌≤◌, List, length, take, All, Some, sum_by};
ghost use Rattle.morph_base.specs.declared.limits.TheConstants.{MAX, EVENT_OPS, EVENTS};
ghost use Rattle.morph_base.specs.declared.key.Key.{Key};
ghost use Rattle.morph_base.specs.declared.key.Layout.{Layout};
ghost use Rattle.morph_base.specs.declared.batch.Batch.{Batch};
ghost use Rattle.morph_base.specs.declared.operation.Op.{Op};
ghost use Rattle.morph_base.specs.declared.plan.Origin.TheVariants.{Op as Written};
ghost use Rattle.morph_base.specs.declared.plan.Plan.{Plan};
ghost use Rattle.morph_base.specs.States.{State, after_all, fold_batch};
ghost use Rattle.morph_base.specs.Functions.{value_of};
ghost use Rattle.morph_base.specs.Operations.{IsShaped};
ghost use Rattle.morph_base.specs.Transactions.{Transaction, IsTransaction, IsBatch};
ghost use Rattle.morph_base.specs.Plans.{IsPlan, HasBases, high_of, PlanKeysIn, event_count, op_count};
ghost use Rattle.morph_base.specs.Plans.{event_at, event_of, op_at, keys_of, origin_at, transactions};
ghost use Rattle.morph_base.specs.Plans.{filled_plan, opening, state_at, final};
ghost use Rattle.morph_base.specs.Graphs.{IsGraph, IsValidPlan, op_depth, event_depth};

/// If some state has a plan's bases, then the state that the bases themselves show has them: the same value for the
/// same key.
///
/// Whoever builds a plan can show its bases by any state at hand, such as that of zeros if all bases are 0.
pub fn bases_tell_a_state()
    ensures { (p : Plan) (s : State)
        → ((o : ℕ) → o < op_count p
        → length (keys_of p o) ≤ length (op_at p o).origins) → HasBases p s
        → HasBases p (opening p) }
{}

/// A valid plan whose bases are filled in from a state of values is a valid plan with the bases of that state. It
/// keeps its transactions, its keys and its graph.
///
/// A plan can therefore be built before the state that it will start from is known.
pub fn filling()
    ensures plan { (p : Plan) (s : State) → IsPlan p → ((key : Key) → s key ≤ high_of p)
        → IsPlan (filled_plan s p) }
    ensures bases { (p : Plan) (s : State) → IsPlan p → ((key : Key) → s key ≤ high_of p)
        → HasBases (filled_plan s p) s }
    ensures graph { (p : Plan) (s : State) → IsGraph p → IsGraph (filled_plan s p) }
    ensures events { (p : Plan) (s : State) → transactions (filled_plan s p) ≡ transactions p }
    ensures keys { (p : Plan) (s : State) (layout : Layout) → PlanKeysIn p layout
        → PlanKeysIn (filled_plan s p) layout }
{}

/// The operations of a valid plan are numbered without a gap: an event's first follows all those of the events before
/// it. There are at most [`EVENT_OPS`](crate::EVENT_OPS) times [`EVENTS`](crate::EVENTS) of them.
///
/// What is kept for each operation is sized by this number.
pub fn numbers()
    ensures first { (p : Plan) (i : ℕ) → IsPlan p → i < event_count p
        → (event_at p i).first ≡ sum_by (λ e. e.count) (take i p.events.items) }
    ensures all { (p : Plan) → IsPlan p → op_count p ≡ sum_by (λ e. e.count) p.events.items }
    ensures few { (p : Plan) → IsPlan p → op_count p ≤ EVENT_OPS * EVENTS }
{}

/// A source is an operation of an earlier event, with a smaller number.
///
/// Whoever goes up the numbers or the events finds all sources settled.
pub fn sources_come_first()
    ensures { (p : Plan) (o j t : ℕ) → IsPlan p → o < op_count p → j < length (keys_of p o)
        → origin_at p o j ≡ Written t
        → (t < o) × (event_of p t < event_of p o) }
{}

/// Levels rise from a source to what reads from it, among operations and among their events. They go from 1 to the
/// depth.
///
/// All of one level can be settled at once when the levels before it are settled.
pub fn levels_rise()
    ensures op { (p : Plan) (o j t : ℕ) → IsValidPlan p → o < op_count p → j < length (keys_of p o)
        → origin_at p o j ≡ Written t
        → (op_at p t).level < (op_at p o).level }
    ensures event { (p : Plan) (o j t : ℕ) → IsValidPlan p → o < op_count p
        → j < length (keys_of p o)
        → origin_at p o j ≡ Written t
        → (event_at p (event_of p t)).level < (event_at p (event_of p o)).level }
    ensures op_range { (p : Plan) (o : ℕ) → IsValidPlan p → o < op_count p
        → (0 < (op_at p o).level) × ((op_at p o).level ≤ op_depth p) }
    ensures event_range { (p : Plan) (i : ℕ) → IsValidPlan p → i < event_count p
        → (0 < (event_at p i).level) × ((event_at p i).level ≤ event_depth p) }
{}

/// Values stay at most [`MAX`](crate::MAX): the answer of an operation of valid shape on values, and each key of a
/// state after transactions or a batch. The answer also stays at most the operation's own greatest value. In a plan,
/// each key of a state after its events, the state that its bases show, and the value of each operation stay at most
/// the plan's greatest value, which is at most [`MAX`](crate::MAX).
pub fn values_stay_small()
    ensures answers { (op : Op) (xs : List ℕ) (v : ℕ) → value_of op xs ≡ Some v → IsShaped op
        → All (λ x. x ≤ MAX) xs → v ≤ MAX }
    ensures within { (op : Op) (xs : List ℕ) (v : ℕ) → value_of op xs ≡ Some v → IsShaped op
        → All (λ x. x ≤ op.high) xs → v ≤ op.high }
    ensures folds { (s : State) (es : List Transaction) (key : Key) → All IsTransaction es
        → ((k : Key) → s k ≤ MAX)
        → after_all s es key ≤ MAX }
    ensures batches { (b : Batch) (s : State) (key : Key) → IsBatch b → ((k : Key) → s k ≤ MAX)
        → fold_batch b s key ≤ MAX }
    ensures states { (p : Plan) (s : State) (i : ℕ) (key : Key) → IsPlan p
        → ((k : Key) → s k ≤ high_of p)
        → state_at p s i key ≤ high_of p }
    ensures opening { (p : Plan) (key : Key) → IsPlan p → opening p key ≤ high_of p }
    ensures values { (p : Plan) (o : ℕ) → IsPlan p → final p o ≤ high_of p }
    ensures high { (p : Plan) → IsPlan p → high_of p ≤ MAX }
{}
