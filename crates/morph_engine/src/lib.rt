//! The engine: a state, and batches that are run on it one at a time.
//!
//! It uses `txn_splitter` and `precedence_graph`, which make a plan of a batch, and `version_table`, which keeps the
//! state between batches. A caller makes an [`Engine`] of a layout. Then, for each valid batch, it makes a plan
//! ([`Engine::plan`]) and runs it ([`Engine::run_batch`]), after which the state is the fold of the batch. The
//! [`BatchEnd`] says what became of each event, and [`Engine::state`] has the values in the end.
//!
//! No text is needed: the events can be made in code, each with its time and its operations.
//!
//! ```text
//! let mut batch = Batch::new(alloc);
//! batch.push(ts, &[
//!     Op::new(Func::Sub, stock, &[], pieces),
//!     Op::new(Func::Add, bill, &[], 20 * pieces),
//! ])?;
//!
//! let mut engine = Engine::new(alloc, layout)?;
//! let plan = engine.plan(alloc, batch)?;
//! let strategy = choose(&profile(&plan, Last::default()));
//! let end = engine.run_batch(&rt, alloc, plan, &strategy, workers, &FreeGate)?;
//! let committed = end.settled.committed.get(0);
//! let value = engine.state().get(stock);
//! ```
//!
//! `plan` requires that the batch is valid and its keys are in the layout. `Batch::is_valid` and `Batch::has_keys_in`
//! test this. `choose` and `profile` are those of `decision_model`; any other strategy will do as well.
//!
//! A batch is run by any [`Strategy`](morph_base::Strategy): by operations or chains, explored by strata or by deques,
//! with lazy or eager abort. That changes how often an operation is evaluated and by whom, and never the state, the
//! values or the verdicts. The board of a batch, its runners and the passes of its exploring are those of `op_words`,
//! `op_eval`, `strata_explorer` and `steal_explorer`. `abort_lazy` settles what was explored, and completes it.
#![tactic(auto)]

mod crew;
mod engine;
mod kept;
mod prepared;
mod supply;
mod team;

pub use engine::{BatchEnd, Engine, plan_batch};
