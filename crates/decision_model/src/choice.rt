ghost use Rattle.std.specs.Prelude.{◌≡◌};
ghost use Rattle.decision_model.specs.Choices.{strategy_for};

use crate::counts::Profile;
use morph_base::{Abort, Explore, Strategy, Unit};

/// Chooses the strategy for a batch.
///
/// It takes chains if at least half of the operations follow an earlier one on their key and these are at least twice
/// the parameters that were written. It takes strata if a level has 32 operations or more on average. It deals with
/// failures late if at most a tenth of the events before aborted.
pub fn choose(profile: &Profile) -> Strategy
    ensures { result ≡ strategy_for profile.now }
{
    let long_chains = profile.parametric <= profile.temporal / 2
        && profile.ops.div_ceil(2) <= profile.temporal;
    let wide_levels = profile.levels <= profile.ops / 32;
    let few_aborts = profile.last.aborted <= profile.last.events / 10;
    Strategy {
        unit: if long_chains { Unit::Chain } else { Unit::Op },
        explore: if wide_levels {
            Explore::Strata
        } else {
            Explore::Steal
        },
        abort: if few_aborts {
            Abort::Lazy
        } else {
            Abort::Eager
        },
    }
}
