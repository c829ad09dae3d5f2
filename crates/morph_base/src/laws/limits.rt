//! The numbers of the limits: the constants of the code are those that the definitions own.
ghost use Rattle.std.specs.Prelude.{◌≡◌};
ghost use Rattle.morph_base.specs.declared.limits.TheConstants.{EVENT_OPS, EVENTS, FIRST_MAX, MAX, PARAMS, READS};
ghost use Rattle.morph_base.specs.Limits.{first_greatest_value, greatest_value, most_batch_events};
ghost use Rattle.morph_base.specs.Limits.{most_event_ops, most_parameters, most_reads};

/// Each constant of the code that a definition or a clause cites is the number that `specs/Limits` owns.
///
/// A definition that cites a constant therefore means its number, and a changed constant is refused here.
pub fn limits()
    ensures greatest { MAX ≡ greatest_value }
    ensures first { FIRST_MAX ≡ first_greatest_value }
    ensures reads { READS ≡ most_reads }
    ensures params { PARAMS ≡ most_parameters }
    ensures ops { EVENT_OPS ≡ most_event_ops }
    ensures events { EVENTS ≡ most_batch_events }
{}
