//! Runs by two workers that wait for each other, and threads that stand beside runs whose calls pass no gate.

use crate::running::run_on;
use sight_workers::OpenGate;
use std::alloc::{AllocError, Global};
use std::fs;
use std::rt::Files;
use std::sync::atomic::{AtomicU64, Ordering};
use std::test::Fail;
use std::thread::{Threads, available_parallelism, join};
use walk_tests::meeting::Meeting;
use worked_maps::rows::part;
use worked_maps::stages::stage_of;

/// What there is, the words, and who has threads of their own beside the one that runs: workers, or judges where the machine
/// has a second processor. A build by one worker has none. The handle by which threads are started has no calls that another
/// one in its place could count, and these calls pass no gate: so the system is asked. It may still count a thread that was joined a
/// moment before: so the row with nobody comes first, and is run once.
const BESIDE: &str = "\
a=grid:6 | build a MAP01 b --exact --workers 1 | nobody
a=grid:6 | build a MAP01 b --exact --workers 3 | workers
a=grid:6 | all a b --exact --workers 1 | judges
a=grid:6 | all a b --workers 1 | judges
";

/// How often a row is run at most until a thread is seen beside it, which may have ended between two looks.
const TRIES: usize = 500;

/// More looks than any run leaves time for.
const LOOKS: u64 = 1 << 20;

#[test]
fn two_workers_that_wait_for_each_other_build_a_made_map(rt: HostRuntime) -> Result<(), Fail> {
    let (alloc, gate) = (rt.alloc(), Meeting::new());
    let mut stage = stage_of(alloc, "")?;
    let status = run_on(&rt, alloc, &mut stage, "grid 2 --workers 2", &gate)?;
    let line = b"grid 2 sectors 8 set 12 clear 24 listed 0 check yes\n".as_slice();
    assert!(rt; status == 0 && stage.text.as_slice() == line);
    assert!(rt; gate.met() && gate.passed() == 0x01_01_01_01_01_01_01_01);
    Ok(())
}

// How many threads the system says that this process has; 0 where it doesn't say.
fn threads_now<R: Files + AllocGlobal>(rt: &R) -> u64 {
    let Ok(told) = fs::read_to_string(rt, "/proc/self/status") else {
        return 0;
    };
    match told.split_once("Threads:") {
        Some((_, behind)) => behind
            .split_whitespace()
            .next()
            .unwrap_or("")
            .parse()
            .unwrap_or(0),
        None => 0,
    }
}

// The most threads that are seen at once until the run is over.
fn most_threads<R: Files + AllocGlobal>(rt: &R, over: &AtomicU64) -> u64 {
    let mut most = 0;
    for _ in 0..LOOKS {
        if over.load(Ordering::SeqCst) > 0 {
            break;
        }
        most = most.max(threads_now(rt));
    }
    most
}

// Runs a row, and raises a flag when the run is over.
fn run_row<R: Threads + Sync>(
    rt: &R,
    alloc: Global,
    row: &str,
    over: &AtomicU64,
) -> Result<u8, AllocError> {
    let mut stage = stage_of(alloc, part(row, 0))?;
    let status = run_on(rt, alloc, &mut stage, part(row, 1), &OpenGate);
    over.store(1, Ordering::SeqCst);
    status
}

// The exit code of a row's run, and the most threads that were seen during it: the one that runs it, this one, and others.
fn seen<R: Threads + Sync, W: Files + AllocGlobal>(
    rt: &R,
    system: &W,
    row: &str,
) -> (Result<u8, AllocError>, u64) {
    let (alloc, over) = (system.alloc(), AtomicU64::new(0));
    join(
        rt,
        || run_row(rt, alloc, row, &over),
        || most_threads(system, &over),
    )
}

// Whether another thread stands beside a row's run sometime. None where a run isn't done.
fn has_others<R: Threads + Sync, W: Files + AllocGlobal>(
    rt: &R,
    system: &W,
    row: &str,
    tries: usize,
) -> Result<Option<bool>, AllocError> {
    for _ in 0..tries {
        let (status, most) = seen(rt, system, row);
        if status? != 0 {
            return Ok(None);
        }
        if most > 2 {
            return Ok(Some(true));
        }
    }
    Ok(Some(false))
}

#[test]
fn workers_of_exact_builds_and_judges_of_all_have_threads(rt: HostRuntime) -> Result<(), Fail> {
    let has_judges = match available_parallelism(&rt) {
        Ok(count) => count.get() > 1,
        Err(_) => false,
    };
    for row in BESIDE.lines() {
        let wanted = match part(row, 2) {
            "workers" => true,
            "judges" => has_judges,
            _ => false,
        };
        let tries = if wanted { TRIES } else { 1 };
        assert!(rt; has_others(&rt, &rt, row, tries)? == Some(wanted), "{row}");
    }
    Ok(())
}
