//! What a worker has while it explores.
use crate::deque_rule::{Owner, Ticket};
use morph_base::List;
use op_eval::{RunEnd, Runner};

/// A worker: its runner beside its deque.
#[derive(Drop)]
pub struct Member {
    pub runner: Runner,
    /// Its number from 0 on, which is also that of its deque.
    pub number: usize,
    pub owner: Owner,
    /// A ticket for each deque, its own included, with what it has done there as a thief.
    pub tickets: List<Ticket>,
    /// How many pushes on its deque succeeded.
    pub handed: u64,
    /// How many items it got by steals.
    pub stolen: u64,
    pub end: RunEnd,
}
