//! The order of transactions by time.
ghost use Rattle.std.specs.Prelude.{◌≡◌, List, map, nat_eq};
ghost use Rattle.std.specs.List.{IsDistinct};
ghost use Rattle.std.specs.List.Sorted.{IsPermutation, IsNonDecreasingBy};
ghost use Rattle.morph_base.specs.Transactions.{Transaction, time, by_time};

/// `by_time` has the same transactions, by rising time. If their times differ, it is their only rising order.
///
/// Any sort of a batch's events by time therefore gives this order.
pub fn by_rising_time()
    ensures same { (es : List Transaction) → IsPermutation es (by_time es) }
    ensures rises { (es : List Transaction) → IsNonDecreasingBy time (by_time es) }
    ensures once { (es fs : List Transaction) → IsDistinct nat_eq (map time es)
        → IsPermutation es fs
        → IsNonDecreasingBy time fs → fs ≡ by_time es }
{}
