//! Chooses a strategy for a batch, from counts of its plan and from how the batch before went.
//!
//! [`profile`] takes the counts of a [`Plan`](morph_base::Plan), and [`choose`] makes a
//! [`Strategy`](morph_base::Strategy) of them by fixed thresholds. The choice changes how a batch is run and never its
//! result. The crate uses `morph_base` alone.
#![tactic(auto)]

mod choice;
mod counts;
mod profiles;

pub use choice::choose;
pub use counts::{Last, Profile};
pub use profiles::profile;
