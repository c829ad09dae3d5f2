//! The state between batches: a value for each key of a layout.
//!
//! It uses `morph_base` alone. A caller makes a [`State`] of a layout. Then, for each batch, it fills in the bases of
//! the batch's plan ([`State::bases`]), has the plan settled, may read versions of keys as they were at a timestamp
//! within the batch ([`State::version`]), and applies what was settled ([`State::apply`]).
#![tactic(auto)]

mod state;

pub use state::State;
