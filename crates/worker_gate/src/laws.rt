//! What the parts of a list are together.
ghost use Rattle.std.specs.Prelude.{◌≡◌, ℕ, ◌<◌, List};
ghost use Rattle.std.specs.List.{flat_map, range_with_len};
ghost use Rattle.worker_gate.specs.Parts.{part_items};

/// The parts of a list, one after the other, are the list: each item is in one part, and in its place.
pub fn each_item_is_in_a_part<T>()
    ensures { (items : List T) (parts : ℕ) → 0 < parts
        → flat_map (part_items items parts) (range_with_len 0 parts) ≡ items }
{}
