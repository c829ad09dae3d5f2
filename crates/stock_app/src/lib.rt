//! A shop's stock and its customers: an example application that is written with the library's public calls only.
//!
//! [`Stock`] is an [`EventApp`](event_reader::EventApp) of three tables: the stock of each item, the bill of each
//! customer, and that bill as it was before the customer's last order. A line `R ts item quantity` adds to a stock, and
//! a line `B ts customer amount` pays a bill of at least that amount. A line `O ts customer limit item quantity price`
//! orders an item, and up to four more with their quantities and prices behind that. Each stock falls by its quantity,
//! and the bill rises by the sum of quantity times price, all or nothing. The order aborts if a stock is too small or
//! the bill would be above the limit.
//!
//! The table of functions ([`Func`](morph_base::Func)) has none that adds to a value and compares it with a limit of
//! the line. An operation of its own therefore compares the bill before the order with what the limit leaves beside the
//! cost, and its target is the third table. Quantities ordered are at most 1,000,000 and prices 100,000, so that the
//! cost of five items is a value of both versions. Version 2 has greater amounts and the same lines.
#![tactic(auto)]

mod item;
pub mod laws;
mod stock;

pub use stock::{BEFORE, BILLS, ITEMS, Stock};
