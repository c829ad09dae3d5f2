//! What holds of the units of a plan.
ghost use Rattle.std.specs.Prelude.{◌≡◌, ℕ, ◌<◌, ◌↔◌, [], Contains, slice_index_or};
ghost use Rattle.std.specs.List.Sorted.{IsStrictlySortedBy, IsStrictlyIncreasing};
ghost use Rattle.morph_base.specs.declared.key.Key.{Key};
ghost use Rattle.morph_base.specs.declared.plan.Plan.{Plan};
ghost use Rattle.morph_base.specs.declared.strategy.Unit.{Unit as UnitKind};
ghost use Rattle.morph_base.specs.Plans.{op_count, target};
ghost use Rattle.chain_units.specs.Chains.{key_cmp};
ghost use Rattle.chain_units.specs.Places.{IsPartition};
ghost use Rattle.chain_units.specs.Units.{units_of, targets_in_order};

/// Each operation of a plan stands in exactly one unit at one place, and the operations of a unit rise.
///
/// So a worker that takes each unit once takes each operation once, and follows a key's versions in order.
pub fn each_in_one()
    ensures partition { (p : Plan) (unit : UnitKind) → IsPartition (units_of p unit) (op_count p) }
    ensures rises { (p : Plan) (unit : UnitKind) (u : ℕ)
        → IsStrictlyIncreasing (slice_index_or (units_of p unit) u []) }
{}

/// The keys of the chains are those that operations change, each once, in the order of keys.
pub fn keys_of_chains()
    ensures rise { (p : Plan) → IsStrictlySortedBy key_cmp (targets_in_order p) }
    ensures all { (p : Plan) (key : Key)
        → Contains (targets_in_order p) key ↔ ((o : ℕ) × (o < op_count p) × (target p o ≡ key)) }
{}
