use morph_base::Plan;
use std::collections::LinkedList;

/// What one thread knows: the batches that it has seen, and those that it was told of, each by its plan. It exists in
/// proofs only: no value of it is made.
pub struct View {
    pub seen: LinkedList<Plan>,
    pub told: LinkedList<Plan>,
}
