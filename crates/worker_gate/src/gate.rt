/// A gate, at which workers may be held between the turns of their work.
///
/// A worker calls [`Gate::pass`] before each turn, and [`Gate::done`] after each call of `evaluate` in that turn.
/// Workers are numbered from 1 and turns from 0. Both calls always return, and change nothing that a contract names: a
/// gate decides when a worker goes on, and never what it does.
pub trait Gate: Sync {
    /// Returns when the worker may begin its turn.
    fn pass(&self, worker: u32, turn: u64);

    /// Is called after each call of `evaluate` in the turn, whatever the answer was.
    fn done(&self, worker: u32, turn: u64);

    /// Whether each worker has a thread of its own under this gate, however little there is to do. A run starts threads
    /// only for as much work as is worth them, but tests hold workers of small batches.
    fn needs_threads(&self) -> bool;
}

/// The gate that holds nobody.
#[derive(Clone, Copy, Debug, PartialEq, Eq)]
pub struct FreeGate;

impl Gate for FreeGate {
    fn pass(&self, _worker: u32, _turn: u64) {}

    fn done(&self, _worker: u32, _turn: u64) {}

    fn needs_threads(&self) -> bool {
        false
    }
}
