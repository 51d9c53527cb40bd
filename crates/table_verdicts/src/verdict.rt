//! What is said of a map's own REJECT.

use map_answers::sight_status::Status;
use sight_names::{Pair, Ray};

/// Why the two sectors of a pair see each other.
#[derive(Clone, Copy)]
pub enum Shown {
    /// Along this ray from the first to the second.
    Ray(Ray),
    /// A face belongs to both.
    Touch,
}

/// A pair whose bit is set, though its sectors see each other.
#[derive(Clone, Copy)]
pub struct FirstWrong {
    pub pair: Pair,
    pub by: Shown,
}

/// How a table differs from the right one.
#[derive(Clone, Copy)]
pub struct Findings {
    /// How many bits are set, though the two sectors see each other.
    pub wrong: u64,
    /// How many are clear, though they don't.
    pub missing: u64,
    /// The first wrong one, row by row.
    pub first: Option<FirstWrong>,
}

/// What is said of a REJECT.
#[derive(Clone, Copy)]
pub enum Verdict {
    /// It has fewer bytes than a table of the map's sectors.
    Short { found: u64, expected: u64 },
    /// It has enough, and so its bits differ.
    Judged(Findings),
}

/// What is said of one map's REJECT, or why the map isn't judged. The name is in upper case, padded with NUL.
#[derive(Drop)]
pub struct MapVerdict {
    pub name: [u8; 8],
    pub said: Result<Verdict, Status>,
}
