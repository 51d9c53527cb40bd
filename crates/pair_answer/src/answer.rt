//! What is answered for two sectors.

use sight_names::Ray;

/// The answer for two sectors.
#[derive(Clone, Copy)]
pub enum PairAnswer {
    /// They see each other, along this ray from the first to the second.
    Sight(Ray),
    /// They don't see each other.
    Blind,
    /// A face belongs to both.
    Touch,
    /// Neither is found from the other, and both budgets ran out.
    Listed,
    /// There is no sector with this number.
    NoSector(u16),
}
