//! Readers of balances: they see the state after a whole number of batches, while the next batch runs.
//!
//! [`snapshots`] makes a [`Publisher`] and up to four [`Viewer`]s of it. After each batch the publisher makes the
//! values that the batch settled visible, all of them at one step ([`Publisher::publish`]). A viewer returns the value
//! of a key ([`Viewer::value`]) or the sum of a table ([`Viewer::total`]) with the number of batches that it comes
//! after. A viewer never sees a part of a batch, and never fewer batches than it saw before or was told of
//! ([`Publisher::tell`]):
//!
//! ```text
//! let (mut publisher, mut viewers) = snapshots(alloc, layout, 1)?;
//! publisher.publish(rt, alloc, &plan, &settled)?;
//! publisher.tell(&mut viewers[0]);
//! viewers[0].total(0) // Some(Total { number: 1, .. }), or None if left_right gives no guard
//! publisher.end(rt);
//! ```
//!
//! The balances are kept twice, in the kit's `left_right`: viewers read one copy while the publisher writes the other,
//! so that a look never waits, and publishing waits only for a viewer that is reading. `specs/Keeping` has the rule
//! over both copies: they are the state after some list of batches, which begins with what each viewer has seen and was
//! told of. The crate uses `morph_base`, and `version_table`, whose sum of a table it cites.
//!
//! # The files
//!
//! | File | What it has |
//! |---|---|
//! | `setup` | `snapshots` and `MOST_VIEWERS` |
//! | `publisher`, `show` | `Publisher`; how a change is added and made visible |
//! | `viewer`, `sum` | `Viewer`, `At`, `Total` and `Look`; the sum of a table |
//! | `balances` | the values, of which there are two copies |
//! | `change`, `writes` | what a batch writes, and at which places |
//! | `rule`, `view` | the rule over both copies; what a thread has seen and was told of |
#![tactic(auto)]

mod balances;
mod change;
mod publisher;
mod rule;
mod setup;
mod show;
mod sum;
mod view;
mod viewer;
mod writes;

pub use publisher::Publisher;
pub use setup::{MOST_VIEWERS, snapshots};
pub use viewer::{At, Look, Total, Viewer};
