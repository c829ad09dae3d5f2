//! The application Toll Processing: reports of vehicles on a road whose segments charge a toll when they are crowded.
//!
//! [`Toll`] is an [`EventApp`](event_reader::EventApp) of four tables: the average speed of each segment, where each
//! vehicle is, how many vehicles entered each segment, and the bill of each vehicle. A line `T ts vehicle segment
//! speed` reports a vehicle. The crate uses `event_reader`, which reads the words and their numbers, and `morph_base`,
//! whose operations an event has. The toll itself is a function of `morph_base`.
#![tactic(auto)]

mod draws;
mod toll;

pub use toll::{BILLS, COUNTS, GREATEST_BILL, PLACES, SPEEDS, Toll};
