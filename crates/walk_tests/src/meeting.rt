//! A gate at which two workers wait for each other. For the tests of the crates beside it.

use sight_workers::Gate;
use std::sync::atomic::{AtomicU64, Ordering};

/// Each of two workers waits at its first source until the other has one; `late` counts those that waited in vain.
/// `passes` has eight bits for each of the first eight sources: how often it passed.
#[derive(Drop)]
pub struct Meeting {
    pub first: AtomicU64,
    pub second: AtomicU64,
    pub late: AtomicU64,
    pub passes: AtomicU64,
}

const TURNS: u64 = 1 << 28;

impl Meeting {
    pub fn new() -> Meeting {
        Meeting {
            first: AtomicU64::new(0),
            second: AtomicU64::new(0),
            late: AtomicU64::new(0),
            passes: AtomicU64::new(0),
        }
    }

    /// Whether both workers drew, and neither waited in vain.
    pub fn met(&self) -> bool {
        self.first.load(Ordering::SeqCst) > 0
            && self.second.load(Ordering::SeqCst) > 0
            && self.late.load(Ordering::SeqCst) == 0
    }

    /// How often each source passed, eight bits for each.
    pub fn passed(&self) -> u64 {
        self.passes.load(Ordering::SeqCst)
    }
}

impl Gate for Meeting {
    fn pass(&self, worker: u16, source: u16) {
        if source < 8 {
            self.passes
                .fetch_add(1 << (u64::from(source) * 8), Ordering::SeqCst);
        }
        if worker == 0 {
            meet(&self.first, &self.second, &self.late);
        } else {
            meet(&self.second, &self.first, &self.late);
        }
    }
}

// Waits at the first call until the other has called, for so many turns at most.
fn meet(mine: &AtomicU64, other: &AtomicU64, late: &AtomicU64) {
    if mine.fetch_add(1, Ordering::SeqCst) > 0 {
        return;
    }
    for _ in 0..TURNS {
        if other.load(Ordering::SeqCst) > 0 {
            return;
        }
    }
    late.fetch_add(1, Ordering::SeqCst);
}
