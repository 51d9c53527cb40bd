//! The line on a terminal that shows how far a long build is.

use sight_run::{Stage, Steps};
use std::str::from_utf8;
use std::sync::atomic::{AtomicBool, AtomicU64, Ordering};
use std::time::Clock;

/// So many milliseconds of a build pass before the line is shown.
const FIRST: u64 = 500;

/// So many pass before it is written anew.
const NEXT: u64 = 100;

/// The line of a build that decides every pair. It is written over itself, a few times a second at most, and nothing is left of it
/// once no walk is left. What the terminal can't take changes nothing.
#[derive(Drop)]
pub struct StepLine<P, C> {
    to: P,
    clock: C,
    // The bytes of the map's name, padded with NUL: as one word, since any worker may read it.
    name: AtomicU64,
    // When the line is to be written next, in milliseconds of the clock.
    due: AtomicU64,
    is_shown: AtomicBool,
}

fn words_of(stage: Stage) -> &'static str {
    match stage {
        Stage::Searches => "finding rays",
        Stage::Trees => "showing the rest blind",
    }
}

fn padded(name: &str) -> [u8; 8] {
    let mut bytes = [0; 8];
    for (slot, c) in bytes.iter_mut().zip(name.as_bytes().iter()) {
        *slot = *c;
    }
    bytes
}

impl<P: Print, C: Clock> StepLine<P, C> {
    pub fn new(to: P, clock: C) -> StepLine<P, C> {
        StepLine {
            to,
            clock,
            name: AtomicU64::new(0),
            due: AtomicU64::new(0),
            is_shown: AtomicBool::new(false),
        }
    }

    // The time of the clock in milliseconds; none where it can't be read.
    fn now(&self) -> Option<u64> {
        match self.clock.monotonic() {
            Ok(time) => u64::try_from(time.as_millis()).ok(),
            Err(_) => None,
        }
    }

    // Whether the line is to be written now. Of workers that ask at once it is one.
    fn is_due(&self) -> bool {
        let Some(now) = self.now() else {
            return false;
        };
        let due = self.due.load(Ordering::SeqCst);
        let next = now.saturating_add(NEXT);
        now >= due
            && self
                .due
                .compare_exchange(due, next, Ordering::SeqCst, Ordering::SeqCst)
                .is_ok()
    }
}

impl<P: Print, C: Clock> Steps for StepLine<P, C> {
    fn begin(&self, name: &str) {
        let name = u64::from_le_bytes(padded(name));
        self.name.store(name, Ordering::SeqCst);
        let now = self.now().unwrap_or(0);
        self.due.store(now.saturating_add(FIRST), Ordering::SeqCst);
    }

    fn step(&self, stage: Stage, done: usize, of: usize) {
        if !self.is_due() {
            return;
        }
        self.is_shown.store(true, Ordering::SeqCst);
        let name = self.name.load(Ordering::SeqCst).to_le_bytes();
        let name = from_utf8(&name).unwrap_or("").trim_end_matches('\0');
        let said = words_of(stage);
        let _ = print!(self.to; "\r{name}: {said}, {done} of {of}\x1b[K");
    }

    fn end(&self) {
        if self.is_shown.swap(false, Ordering::SeqCst) {
            let _ = self.to.write_all(b"\r\x1b[K");
        }
    }
}
