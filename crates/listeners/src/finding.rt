//! What is found of a pair of sectors, and what a listener answers to it.

/// What is found of a pair.
#[derive(Clone, Copy, PartialEq, Eq)]
pub enum Kind {
    /// The two see each other: their bit is clear.
    Clear,
    /// The two don't see each other: their bit is set.
    Set,
    /// The budgets of both ran out, so the bit is clear whether or not they see each other.
    Listed,
}

/// A pair of sectors, `a` at most `b`, and what is found of it.
#[derive(Clone, Copy)]
pub struct Finding {
    pub a: u16,
    pub b: u16,
    pub kind: Kind,
}

/// Whether a listener hears on.
#[derive(Clone, Copy)]
pub enum Keep {
    Stay,
    Done,
}
