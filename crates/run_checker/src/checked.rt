/// The result of checking a journal against the values that a run settled.
#[derive(Clone, Copy, Debug, PartialEq, Eq)]
pub enum Checked {
    /// The machine takes the whole journal, which settles each operation with the run's value.
    Yes,
    /// The machine takes the events before this one, and not this one; the first event has number 1.
    Broken { at: u64 },
    /// The machine takes the whole journal, and this is the least operation that it does not settle.
    Unsettled { op: u32 },
    /// The journal settles all operations, and this is the least whose value in the journal is not the run's.
    Differs { op: u32, journal: u64, run: u64 },
}
