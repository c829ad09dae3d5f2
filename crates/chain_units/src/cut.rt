use crate::alone::Alone;
use crate::chained::Chained;

/// How operations are cut into units.
#[derive(Debug, Drop)]
pub(crate) enum Cut {
    /// Each operation is a unit of its own number.
    Alone(Alone),
    /// Units have any length.
    Chained(Chained),
}
