use crate::op_span::OpSpan;

/// The operations that came at one time, which are done together or not at all.
///
/// It is valid if its timestamp is from 1 to [`LATEST`](crate::LATEST) and it has 1 to [`EVENT_OPS`](crate::EVENT_OPS)
/// operations of valid shape, whose targets differ.
#[derive(Debug, Drop)]
pub struct Event<'a> {
    /// Its timestamp, by which the events of a batch are applied.
    pub ts: u64,
    /// What it does, in operation order.
    pub ops: OpSpan<'a>,
}
