//! The walks of a worked map and of a made one by two workers that wait for each other.

ghost use Rattle.std.specs.Prelude.{◌≤◌, IfOk};
ghost use Rattle.group_job.specs.Faces.{AreFacesOf};

use crate::grounds::{groups_named, groups_of};
use crate::meeting::Meeting;
use face_groups::tri_sectors::components;
use group_job::MapOfGroups;
use map_answers::find_in;
use map_maker::grid;
use sight_names::{Budget, MapFormat, Memory};
use sight_workers::{Gate, Gathered, Job, walk_all};
use std::alloc::Global;
use std::test::Fail;
use std::thread::Threads;

// What so many workers gather of a map of groups.
fn gathered_of<R: Threads + Sync, G: Gate + Sync>(
    rt: &R,
    alloc: Global,
    map: &MapOfGroups,
    workers: u16,
    gate: &G,
) -> Result<Gathered, Memory>
    requires faces { AreFacesOf map.now.plan map.now.faces }
    requires workers { (1 ≤ workers) × (workers ≤ 64) }
{
    let classes = components(alloc, &map.plan)?;
    let job = Job {
        plan: &map.plan,
        mesh: &map.faces.mesh,
        labels: &map.faces.labels,
        components: classes.as_slice(),
        budget: Budget::Full,
    };
    walk_all(rt, alloc, job, workers, gate)
}

// Whether each of two workers has claimed some of so many sources, and there is a result of each source.
fn is_shared(gathered: &Gathered, sources: usize) -> bool {
    let claimed_by = gathered.claimed_by.as_slice();
    claimed_by.len() == sources
        && claimed_by.contains(&0)
        && claimed_by.contains(&1)
        && gathered.results.as_slice().len() == sources
}

// Whether two workers that wait for each other share so many sources, of which each passes the gate as often as its eight
// bits say.
fn two_share<R: Threads + Sync>(
    rt: &R,
    alloc: Global,
    map: &MapOfGroups,
    sources: usize,
    passed: u64,
) -> Result<bool, Memory>
    requires { AreFacesOf map.now.plan map.now.faces }
{
    let gate = Meeting::new();
    let gathered = gathered_of(rt, alloc, map, 2, &gate)?;
    Ok(gate.met() && gate.passed() == passed && is_shared(&gathered, sources))
}

// The map of groups of a made map of eight sectors.
fn made_groups(alloc: Global) -> Result<MapOfGroups, Fail>
    ensures { IfOk result (λ m. AreFacesOf m.plan m.faces) }
{
    let file = grid(alloc, 2, MapFormat::Doom)?;
    let Ok(found) = find_in(alloc, file, false, "MAP01") else {
        return Err("the made map isn't read".into());
    };
    groups_of(alloc, &found.plan)
}

// The same of the worked map of a name, or of the made map where there is none.
fn two_share_of<R: Threads + Sync>(
    rt: &R,
    alloc: Global,
    name: &str,
    sources: usize,
    passed: u64,
) -> Result<bool, Fail> {
    let map = if name.is_empty() {
        made_groups(alloc)?
    } else {
        groups_named(alloc, name)?
    };
    let told = two_share(rt, alloc, &map, sources, passed);
    drop(map);
    Ok(told?)
}

#[test]
fn two_workers_that_wait_for_each_other_walk_each_source_once(rt: HostRuntime) -> Result<(), Fail> {
    assert!(rt; two_share_of(&rt, rt.alloc(), "U", 3, 0x01_01_01)?);
    Ok(())
}

#[test]
fn two_workers_that_wait_for_each_other_share_the_sources_of_a_made_map(
    rt: HostRuntime,
) -> Result<(), Fail> {
    assert!(rt; two_share_of(&rt, rt.alloc(), "", 8, 0x01_01_01_01_01_01_01_01)?);
    Ok(())
}
