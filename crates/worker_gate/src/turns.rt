use crate::gate::Gate;

/// A gate as one worker sees it.
///
/// What a job does in a thread is checked without the bound that lets its gate be shared, so its functions ask for
/// these two calls alone. Both always return, and change nothing that a contract names.
pub trait Turns {
    /// Returns when the turn may begin.
    fn pass(&self, turn: u64);

    /// Is called after something was evaluated in the turn.
    fn done(&self, turn: u64);
}

/// The gate of a run, for the worker of a number.
#[derive(Drop)]
pub struct Told<'a, G> {
    /// The gate that all workers meet.
    pub gate: &'a G,
    /// The number of this one, from 1 on.
    pub worker: u32,
}

impl<G: Gate> Turns for Told<'_, G> {
    fn pass(&self, turn: u64) {
        self.gate.pass(self.worker, turn)
    }

    fn done(&self, turn: u64) {
        self.gate.done(self.worker, turn)
    }
}

/// No gate: for what is done outside of any turn.
#[derive(Drop)]
pub struct Untold;

impl Turns for Untold {
    fn pass(&self, _turn: u64) {}

    fn done(&self, _turn: u64) {}
}
