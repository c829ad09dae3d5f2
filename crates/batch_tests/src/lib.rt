//! Tests of the crates that plan, try and settle a batch, and of the board that workers share, over their public calls
//! alone.
//!
//! They are in one crate, so that none of those crates is proved again with its tests, and so that all of them are
//! tried on the same four events: 100 and 5 are paid in on account 0 and asset 0; then 60 and 6 are to go from there to
//! account and asset 1, but there is not enough of the asset; then 60 and 5 go from 0 to 1, and from 1 to 2.
//!
//! # The files
//!
//! | File | What it has |
//! |---|---|
//! | `four_events`, `many_events` | the four events and their plan; a batch of 10,240 events |
//! | `splitting`, `graph` | `txn_splitter`; `precedence_graph` |
//! | `unit_cuts`, `choices` | `chain_units`; `decision_model` |
//! | `machine` | `interleaving_core`, step by step |
//! | `board`, `settling` | `op_words`: a hand's way through an operation; decisions and settling |
//! | `stale` | `op_words`: an operation taken back and evaluated again in one call |
//! | `evaluations`, `runners` | `op_eval`: one runner; four side by side |
//! | `strata`, `deposits`, `going_back` | `strata_explorer`: one runner; four runners; levels passed again |
//! | `handing` | `steal_explorer`: one worker; four workers; one that has to steal |
//! | `cascading` | `abort_eager` |
//! | `transactions`, `contended` | `abort_lazy`: events settled one by one, and while another hand is in the way |
//! | `settled_runs`, `finishing` | `abort_lazy`: all levels settled; a plan completed after its board was closed |
//! | `states`, `balances` | `version_table`; `snapshot_reader` |
//! | `engine`, `library` | `morph_engine`: any order of arrival, any workers; batches that are made in code |
//! | `journals` | `run_checker`, on changed journals and on those of runs |
#![tactic(auto)]

#[cfg(test)]
mod balances;
#[cfg(test)]
mod board;
#[cfg(test)]
mod cascading;
#[cfg(test)]
mod choices;
#[cfg(test)]
mod contended;
#[cfg(test)]
mod deposits;
#[cfg(test)]
mod engine;
#[cfg(test)]
mod evaluations;
#[cfg(test)]
mod finishing;
#[cfg(test)]
mod four_events;
#[cfg(test)]
mod going_back;
#[cfg(test)]
mod graph;
#[cfg(test)]
mod handing;
#[cfg(test)]
mod journals;
#[cfg(test)]
mod library;
#[cfg(test)]
mod machine;
#[cfg(test)]
mod many_events;
#[cfg(test)]
mod runners;
#[cfg(test)]
mod settled_runs;
#[cfg(test)]
mod settling;
#[cfg(test)]
mod splitting;
#[cfg(test)]
mod stale;
#[cfg(test)]
mod states;
#[cfg(test)]
mod strata;
#[cfg(test)]
mod transactions;
#[cfg(test)]
mod unit_cuts;
