//! What can be decided and settled while only some operations of a plan are known.
ghost use Rattle.std.specs.Prelude.{◌≡◌, ℕ, ◌<◌, Bool, true, false, Some, None, IsSome, IsTrue};
ghost use Rattle.morph_base.specs.declared.plan.Plan.{Plan};
ghost use Rattle.morph_base.specs.Plans.{IsPlan, InEvent, event_count, op_count, event_of, origin_at, final, verdict};
ghost use Rattle.morph_base.specs.Clean.{source, outcome};
ghost use Rattle.morph_base.specs.Known.{IsKnown, AreKnown, IsRight};

/// Suppose that what is known has the fold's value. An event all of whose operations answer on known sources commits.
/// One with an operation that fails on known sources aborts. The value of an operation is its answer on known sources
/// if its event commits, and the value of its target's known source if it aborts.
///
/// A machine may therefore decide and settle in any order, and never takes anything back. Here a test says which
/// operations are known; the lemmas in `proofs/` take any fact in its place.
pub fn known_sources()
    ensures commits { (p : Plan) (known : ℕ → Bool) (v : ℕ → ℕ) (i : ℕ) → IsPlan p
        → IsRight p (λ t. IsTrue (known t)) v → i < event_count p
        → ((o : ℕ) → InEvent p i o → AreKnown p (λ t. IsTrue (known t)) o)
        → ((o : ℕ) → InEvent p i o → IsSome (outcome p v o))
        → verdict p i ≡ true }
    ensures aborts { (p : Plan) (known : ℕ → Bool) (v : ℕ → ℕ) (i o : ℕ) → IsPlan p
        → IsRight p (λ t. IsTrue (known t)) v → i < event_count p
        → InEvent p i o → AreKnown p (λ t. IsTrue (known t)) o → outcome p v o ≡ None
        → verdict p i ≡ false }
    ensures settles { (p : Plan) (known : ℕ → Bool) (v : ℕ → ℕ) (o x : ℕ) → IsPlan p
        → IsRight p (λ t. IsTrue (known t)) v → o < op_count p
        → AreKnown p (λ t. IsTrue (known t)) o → verdict p (event_of p o) ≡ true
        → outcome p v o ≡ Some x
        → x ≡ final p o }
    ensures carries { (p : Plan) (known : ℕ → Bool) (v : ℕ → ℕ) (o : ℕ) → IsPlan p
        → IsRight p (λ t. IsTrue (known t)) v → o < op_count p
        → IsKnown (λ t. IsTrue (known t)) (origin_at p o 0) → verdict p (event_of p o) ≡ false
        → source p v o 0 ≡ final p o }
{}
