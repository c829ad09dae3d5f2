//! The application Streaming Ledger: deposits and transfers between accounts and assets.
//!
//! [`Ledger`] is an [`EventApp`](event_reader::EventApp) of two tables. A line `D ts acct asset a b` deposits a on the
//! account and b on the asset. A line `X ts src dst asrc adst a b` moves a from account src to account dst, and b from
//! asset asrc to asset adst. In version 2 a number f may follow, which has to stay on account src, and a line `M ts src
//! a dst1 [dst2 ..]` pays a from account src to each of up to 15 accounts. Its generator draws about as many deposits
//! as transfers. It uses `event_reader`, which reads the words and their numbers, `morph_base`, whose operations an
//! event has, and `morph_io`, into whose buffer a line is written.
#![tactic(auto)]

mod draws;
mod ledger;

pub use ledger::{ACCOUNTS, ASSETS, Ledger};
