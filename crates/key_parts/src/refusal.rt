// Why taking a key back stops, and where.
pub use words::refusal::Refusal;

// A refusal and the bit that it is met at.
#[derive(Clone, Copy, Debug, PartialEq, Eq)]
pub struct Stop {
    pub why: Refusal,
    pub bit: usize,
}
