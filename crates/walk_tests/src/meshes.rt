//! The greedy segments of a made map by workers in threads.

use map_answers::find_in;
use map_maker::grid;
use sight_names::{MapFormat, Memory, Plan};
use std::alloc::Global;
use std::test::Fail;
use std::thread::Threads;
use triangulate::Segments;
use triangulate::greedy_segments::{InThreads, greedy, greedy_by};

// Whether both have the same segments, in the same order.
fn are_same(one: &Segments, other: &Segments) -> bool {
    let (left, right) = (one.as_slice(), other.as_slice());
    left.len() == right.len()
        && left
            .iter()
            .zip(right.iter())
            .all(|(s, t)| s.from == t.from && s.to == t.to)
}

// Whether so many workers keep the segments that one keeps.
fn keep_the_same<R: Threads + Sync>(
    rt: &R,
    alloc: Global,
    plan: &Plan,
    workers: u16,
) -> Result<bool, Memory> {
    let one = greedy(alloc, plan)?;
    let all = greedy_by(&InThreads { rt, workers }, alloc, plan)?;
    Ok(are_same(&one, &all))
}

// Whether two workers do of a made map with points for more than two parts of a round.
fn two_keep_the_same<R: Threads + Sync>(rt: &R, alloc: Global) -> Result<bool, Fail> {
    let file = grid(alloc, 10, MapFormat::Doom)?;
    let Ok(found) = find_in(alloc, file, false, "MAP01") else {
        return Err("the made map isn't read".into());
    };
    let is_large = found.plan.points().len() > 512;
    Ok(is_large && keep_the_same(rt, alloc, &found.plan, 2)?)
}

#[test]
fn two_workers_keep_the_segments_that_one_keeps(rt: HostRuntime) -> Result<(), Fail> {
    assert!(rt; two_keep_the_same(&rt, rt.alloc())?);
    Ok(())
}
