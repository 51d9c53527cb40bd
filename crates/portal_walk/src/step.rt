//! What a walk comes to.

use block_evidence::Evidence;
use sight_names::Side;

/// The next sequence of a walk, or what stands in its way.
#[derive(Clone, Copy)]
pub enum Step {
    /// A sequence that the line `a * x + b * y + c = 0` passes through, into this triangle; `entered` is the side where
    /// it arrives, if its last portal is a line.
    Open {
        triangle: u16,
        entered: Option<Side>,
        a: i32,
        b: i32,
        c: i64,
    },
    /// A sequence that no line passes through: these of its ends show it.
    Blocked(Evidence),
    /// There is no further sequence.
    End,
}

/// How a walk went on: the kind of its next step. The walk can be asked for the rest.
#[derive(Clone, Copy)]
pub enum Went {
    /// To a sequence that a line passes through, and whether its last portal is a line of the map.
    Open(bool),
    /// To a sequence that no line passes through.
    Blocked,
    /// There is no further sequence.
    End,
}

/// The same with the ends that block a sequence, which `next` tells.
#[derive(Clone, Copy)]
pub enum Came {
    Open(bool),
    Blocked(Evidence),
    End,
}
