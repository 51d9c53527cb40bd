//! The path of a noise: the first of those with the fewest sides.

ghost use Rattle.std.specs.Prelude.{◌≡◌, ◌*◌, ◌<◌, ◌+◌, ◌↔◌, Contains, Some, IfOk, IsTrue, MatchOption, length};
ghost use Rattle.sight_names.specs.Found.{SideBefore};
ghost use Rattle.sight_names.specs.Map.{map_of};
ghost use Rattle.sight_names.specs.Noise.{IsNoiseHeard, IsFirstNoisePath};
ghost use Rattle.sound_reach.specs.declared.doors.Door.{Door};
ghost use Rattle.sound_reach.specs.Doors.{AreDoorsIndexed};
ghost use Rattle.sound_reach.specs.Routes.{AreDistances, distance_at};
ghost use Rattle.sound_reach.specs.Steps.{IsFirstRoute, IsLeastStep, IsLesser, IsStepThrough};

use crate::doors::{Door, Doors};
use crate::search::distances_to;
use crate::state::{State, after, place};
use sight_names::{Memory, Plan, Side};
use std::alloc::Global;

/// A side, and the state behind it.
#[derive(Clone, Copy)]
pub struct Step {
    pub side: Side,
    pub state: State,
}

/// Whether the one side comes before the other.
fn is_before(s: Side, t: Side) -> bool
    ensures { IsTrue result ↔ SideBefore s t }
{
    s.line < t.line || s.line == t.line && !s.left && t.left
}

/// The one with the lesser side.
fn lesser(best: Option<Step>, step: Option<Step>) -> Option<Step>
    ensures { IsLesser best step result }
{
    let Some(one) = best else {
        return step;
    };
    let Some(other) = step else {
        return best;
    };
    if is_before(other.side, one.side) {
        step
    } else {
        best
    }
}

/// The step through the door, if it leads to a state at this distance.
fn step_through(distances: &[Option<u32>], left: u32, spare: bool, door: Door) -> Option<Step>
    requires { door.to * 2 + 1 < length distances.now }
    ensures { IsStepThrough distances.now left spare door result }
{
    let state = after(door, spare)?;
    if distances[place(state)] == Some(left) {
        Some(Step {
            side: door.side,
            state,
        })
    } else {
        None
    }
}

/// The step with the least side to a state at this distance, if any door leads to one.
fn first_step(distances: &[Option<u32>], left: u32, spare: bool, doors: &[Door]) -> Option<Step>
    requires { (e : Door) → Contains doors.now e → e.to * 2 + 1 < length distances.now }
    ensures { IsLeastStep distances.now left spare doors.now result }
{
    let mut best = None;
    for door in doors {
        best = lesser(best, step_through(distances, left, spare, *door));
    }
    best
}

/// The first path with the fewest sides from a state at this distance.
fn path_from(
    alloc: Global,
    doors: &Doors,
    distances: &[Option<u32>],
    to: u16,
    from: State,
    distance: u32,
) -> Result<Vec<Side>, Memory>
    requires indexed { AreDoorsIndexed doors.now }
    requires distances { AreDistances doors.now.doors.items doors.now.sectors to distances.now }
    requires from { distance_at distances.now from ≡ Some distance }
    ensures len { IfOk result (λ v. length v.items ≡ distance) }
    ensures first { IfOk result (λ v. IsFirstRoute doors.now.doors.items to from v.items) }
{
    let mut sides = Vec::new(alloc);
    let mut at = from;
    for done in 0..distance {
        let step = first_step(
            distances,
            distance - done - 1,
            at.spare,
            doors.at(at.sector),
        );
        let Some(step) = step else {
            unreachable!();
        };
        sides.push(step.side)?;
        at = step.state;
    }
    Ok(sides)
}

/// A noise path from `a` to `b` with the fewest sides, and of these the first by the order of sides, compared from the front;
/// None where no noise path leads from the one to the other.
pub fn noise(
    alloc: Global,
    plan: &Plan,
    dampers: &[bool],
    a: u16,
    b: u16,
) -> Result<Option<Vec<Side>>, Memory>
    requires each { length dampers.now ≡ length plan.now.lines }
    requires first { a < plan.now.sectors }
    requires second { b < plan.now.sectors }
    ensures { IfOk result (λ path. MatchOption path (¬ IsNoiseHeard (map_of plan.now) dampers.now a b) (λ v. IsFirstNoisePath (map_of plan.now) dampers.now a b v.items)) }
{
    let doors = Doors::of(alloc, plan, dampers)?;
    let distances = distances_to(alloc, &doors, b)?;
    let from = State {
        sector: a,
        spare: true,
    };
    let Some(distance) = distances[place(from)] else {
        return Ok(None);
    };
    let sides = path_from(alloc, &doors, &distances, b, from, distance)?;
    Ok(Some(sides))
}
