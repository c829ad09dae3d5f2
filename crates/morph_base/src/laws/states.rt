//! The state after the events of a plan, by the values of its operations.
ghost use Rattle.std.specs.Prelude.{◌≡◌, ℕ, ◌<◌, ◌≤◌, ◌↔◌, nat_le, count_by};
ghost use Rattle.morph_base.specs.declared.key.Key.{Key};
ghost use Rattle.morph_base.specs.declared.batch.Batch.{Batch};
ghost use Rattle.morph_base.specs.declared.plan.Plan.{Plan};
ghost use Rattle.morph_base.specs.States.{State, fold_batch, overwritten};
ghost use Rattle.morph_base.specs.Plans.{IsPlan, IsPlanOf, HasBases, IsLastWriterIn, IsUnwrittenIn, op_count};
ghost use Rattle.morph_base.specs.Plans.{event_at, event_of, target, state_at, event_count, final};

/// The state after the first i events of a plan: a key that one of their operations changes has the fold's value of the
/// last one that does, and each other key what it had before the batch. As one equation of states: the state before the
/// batch, overwritten in order by the operations of the first i events, which are the first n operations. The events up
/// to a time are the plan's first ones.
///
/// With it, the version of a key at a time is read from the values of the operations alone.
pub fn versions()
    ensures written { (p : Plan) (s : State) (i : ℕ) (key : Key) (o : ℕ) → IsPlan p → HasBases p s
        → IsLastWriterIn p i key o
        → state_at p s i key ≡ final p o }
    ensures unwritten { (p : Plan) (s : State) (i : ℕ) (key : Key) → IsPlan p
        → IsUnwrittenIn p i key
        → state_at p s i key ≡ s key }
    ensures overwritten { (p : Plan) (s : State) (n i : ℕ) → IsPlan p
        → HasBases p s → n ≤ op_count p
        → ((o : ℕ) → o < n → event_of p o < i)
        → ((o : ℕ) → n ≤ o → o < op_count p → i ≤ event_of p o)
        → overwritten (target p) (final p) s n ≡ state_at p s i }
    ensures until { (p : Plan) (t i : ℕ) → IsPlan p → i < event_count p
        → (i < count_by (λ e. nat_le e.ts t) p.events.items) ↔ ((event_at p i).ts ≤ t) }
{}

/// The state after a batch is the state before it, overwritten in order by all operations of its plan, so each target
/// has the fold's value of the last operation on it. It is also the fold of the batch.
///
/// With it, the state is brought up to date once a plan is settled.
pub fn end_of_batch()
    ensures overwritten { (p : Plan) (s : State) → IsPlan p → HasBases p s
        → overwritten (target p) (final p) s (op_count p) ≡ state_at p s (event_count p) }
    ensures fold { (b : Batch) (p : Plan) (s : State) → IsPlanOf b p → state_at p s (event_count p)
        ≡ fold_batch b s }
{}
