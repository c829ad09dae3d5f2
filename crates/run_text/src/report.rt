/// What a run reports.
#[derive(Clone, Copy, Debug, PartialEq, Eq)]
pub enum Report {
    /// The line of each event, and at the end the values that are not 0.
    Whole,
    /// Nothing of each event, and at the end the sum of each table's values.
    Summary,
}
