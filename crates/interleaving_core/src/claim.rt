use morph_base::READS;

/// What a worker holds: the operation, the attempt, and the values of the first `count` places.
#[derive(Clone, Copy, Debug, PartialEq, Eq)]
pub struct Claim {
    pub op: u32,
    pub attempt: u8,
    pub count: u8,
    pub values: [u64; READS],
}
