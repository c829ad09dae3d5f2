//! Laws of definitions that callers of this crate cite.
ghost use Rattle.std.specs.Prelude.{◌≡◌, ℕ, ◌+◌, ◌<◌, ◌≤◌, None, Some, [], ◌∷◌};
ghost use Rattle.morph_base.specs.Functions.{value_of};
ghost use Rattle.event_reader.specs.declared.version.Version.{Version};
ghost use Rattle.event_reader.specs.Versions.{greatest_of};
ghost use Rattle.stock_app.specs.Stock.{limit_check};

/// The check of an order's limit, on values x before and the bill b: it keeps the bill if that and the cost are within
/// the limit, and fails if they are not, also if the cost alone is above the limit.
pub fn an_order_keeps_its_limit()
    ensures within { (version : Version) (customer limit cost x b : ℕ) → b + cost ≤ limit
        → value_of (limit_check version customer limit cost) (x ∷ b ∷ []) ≡ Some b }
    ensures over { (version : Version) (customer limit cost x b : ℕ) → x ≤ greatest_of version
        → limit < b + cost
        → value_of (limit_check version customer limit cost) (x ∷ b ∷ []) ≡ None }
{}
