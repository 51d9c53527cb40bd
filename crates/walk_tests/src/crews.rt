//! Tasks by two workers that wait for each other: what builds that decide every pair and judges of version 3 share their work by.

use crate::meeting::Meeting;
use sight_names::Memory;
use sight_workers::Gate;
use std::alloc::Global;
use std::sync::atomic::{AtomicU64, Ordering};
use std::test::Fail;
use std::thread::Threads;
use task_crew::{Tasks, shared};

/// Tasks at which a worker passes a gate, and of which it makes its own number: how many got tools before it.
#[derive(Drop)]
struct Crew {
    given: AtomicU64,
    gate: Meeting,
}

fn small(number: u64) -> u16 {
    u16::try_from(number).unwrap_or(u16::MAX)
}

impl Tasks for Crew {
    type Tools = u16;

    type Done = u16;

    ghost can_do = { λ t i. Unit {0} };

    ghost is_done = { λ t i d. Unit {0} };

    fn tools(&self, alloc: Global) -> u16 {
        let _ = alloc;
        small(self.given.fetch_add(1, Ordering::SeqCst))
    }

    fn work(&self, alloc: Global, worker: &mut u16, number: usize) -> Result<u16, Memory> {
        let _ = alloc;
        self.gate.pass(*worker, small(number as u64));
        Ok(*worker)
    }
}

// Whether two workers that wait for each other do each of eight tasks once, and each of them some.
fn two_share<R: Threads + Sync>(rt: &R, alloc: Global) -> Result<bool, Memory> {
    let crew = Crew {
        given: AtomicU64::new(0),
        gate: Meeting::new(),
    };
    let done = shared(rt, alloc, &crew, 8, 2)?;
    let is_once = crew.gate.met() && crew.gate.passed() == 0x01_01_01_01_01_01_01_01;
    Ok(is_once && done.len() == 8 && done.contains(&0) && done.contains(&1))
}

#[test]
fn two_workers_that_wait_for_each_other_share_tasks(rt: HostRuntime) -> Result<(), Fail> {
    assert!(rt; two_share(&rt, rt.alloc())?);
    Ok(())
}
