//! A build that decides every pair, watched.

use exact_job::{Stage, Steps, Watcher, build_exact};
use map_audit::audit_lines;
use sight_names::Plan;
use std::alloc::{AllocError, Global};
use std::sync::Arc;
use std::sync::atomic::{AtomicUsize, Ordering};
use std::test::Fail;
use std::thread::Threads;
use worked_maps::files::plan_named;

/// What one worker told: the last number of the round, how many steps there were for trees, how many weren't in their turn, and how
/// often no walk was left.
#[derive(Drop)]
struct Tally {
    last: AtomicUsize,
    trees: AtomicUsize,
    torn: AtomicUsize,
    ends: AtomicUsize,
}

#[derive(Drop)]
struct Notes {
    tally: Arc<Tally>,
}

impl Steps for Notes {
    fn begin(&self, _name: &str) {}

    fn step(&self, stage: Stage, done: usize, of: usize) {
        let last = if done == of { 0 } else { done };
        let before = self.tally.last.swap(last, Ordering::SeqCst);
        if done != before.wrapping_add(1) || done > of {
            self.tally.torn.fetch_add(1, Ordering::SeqCst);
        }
        if stage == Stage::Trees {
            self.tally.trees.fetch_add(1, Ordering::SeqCst);
        }
    }

    fn end(&self) {
        self.tally.ends.fetch_add(1, Ordering::SeqCst);
    }
}

// Whether a map of which no lines clash is built, watched so.
fn is_built<R: Threads + Sync>(rt: &R, alloc: Global, plan: &Plan, watcher: &Watcher) -> bool {
    let Ok(()) = audit_lines(alloc, plan) else {
        return false;
    };
    build_exact(rt, alloc, plan, 1, Some(watcher)).is_ok()
}

// Whether each step of so many walks for trees, or some times as many, is told in its turn, and the end once.
fn is_told_of<R: Threads + Sync>(
    rt: &R,
    alloc: Global,
    plan: &Plan,
    count: usize,
) -> Result<bool, AllocError> {
    let tally = Arc::new(
        alloc,
        Tally {
            last: AtomicUsize::new(0),
            trees: AtomicUsize::new(0),
            torn: AtomicUsize::new(0),
            ends: AtomicUsize::new(0),
        },
    )?;
    let notes = Notes {
        tally: Arc::try_clone(&tally)?,
    };
    let steps: Box<dyn Steps + Send + Sync + Drop> = Box::new(alloc, notes)?;
    let is_built = is_built(rt, alloc, plan, &Watcher { steps });
    let trees = tally.trees.load(Ordering::SeqCst);
    Ok(
        is_built
            && trees > 0
            && trees.checked_rem(count) == Some(0)
            && tally.last.load(Ordering::SeqCst) == 0
            && tally.torn.load(Ordering::SeqCst) == 0
            && tally.ends.load(Ordering::SeqCst) == 1,
    )
}

#[test]
fn each_step_of_a_build_is_told_in_its_turn(rt: HostRuntime) -> Result<(), Fail> {
    let plan = plan_named(rt.alloc(), "U")?;
    let told = is_told_of(&rt, rt.alloc(), &plan, 3);
    drop(plan);
    assert!(rt; told?);
    Ok(())
}
