/// How many turns were made, and how many of them failed.
#[derive(Clone, Copy, Debug, PartialEq, Eq, Drop)]
pub struct TurnCount {
    /// The turns that were made.
    pub made: u64,
    /// Those of them that failed.
    pub failed: u64,
}
