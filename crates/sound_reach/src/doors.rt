//! The passable lines by the sectors that their sides name.

ghost use Rattle.std.specs.Prelude.{◌≡◌, ◌+◌, ◌<◌, ◌≤◌, IfOk, OnOk, length, slice_range};
ghost use Rattle.std.specs.List.Sorted.{IsPermutation, IsNonDecreasingBy};
ghost use Rattle.sight_names.specs.Map.{map_of};
ghost use Rattle.sound_reach.specs.declared.doors.Door.{Door};
ghost use Rattle.sound_reach.specs.Doors.{AreDoorsAdded, AreDoors, AreDoorsFrom, AreDoorStarts, AreDoorsIndexed, IsDoorStart};

use sight_names::{Line, Memory, Plan, Side};
use std::alloc::Global;

/// One side of a passable line: the sector that it names, the one behind the line, and whether the line blocks sound.
#[derive(Clone, Copy)]
pub struct Door {
    pub from: u16,
    pub side: Side,
    pub to: u16,
    pub damped: bool,
}

/// The doors in the order of the sectors that they lead from.
#[derive(Drop)]
pub struct Doors {
    pub sectors: u16,
    pub doors: Vec<Door>,
    /// For each sector the place of its first door, and one more number behind the last.
    pub starts: Vec<usize>,
}

/// Adds the doors at the two sides of the line, if it is passable.
fn add_doors(doors: &mut Vec<Door>, line: u16, entry: Line, damped: bool) -> Result<(), Memory>
    ensures { OnOk result (AreDoorsAdded line entry damped doors.old.items doors.new.items) }
{
    if entry.solid {
        return Ok(());
    }
    let Some(right) = entry.right else {
        return Ok(());
    };
    let Some(left) = entry.left else {
        return Ok(());
    };
    doors.push(Door {
        from: right,
        side: Side { line, left: false },
        to: left,
        damped,
    })?;
    doors.push(Door {
        from: left,
        side: Side { line, left: true },
        to: right,
        damped,
    })?;
    Ok(())
}

/// The doors of all lines, in record order.
fn doors_of(alloc: Global, plan: &Plan, dampers: &[bool]) -> Result<Vec<Door>, Memory>
    requires { length dampers.now ≡ length plan.now.lines }
    ensures { IfOk result (λ v. AreDoors (map_of plan.now) dampers.now v.items) }
{
    let mut doors = Vec::new(alloc);
    for (i, entry) in plan.lines().iter().enumerate() {
        if let Some(line) = entry {
            add_doors(&mut doors, i as u16, *line, dampers[i])?;
        }
    }
    Ok(doors)
}

/// The doors in the order of the sectors that they lead from.
fn in_order(mut doors: Vec<Door>) -> Result<Vec<Door>, Memory>
    ensures same { IfOk result (λ v. IsPermutation doors.items v.items) }
    ensures order { IfOk result (λ v. IsNonDecreasingBy (λ (e : Door). e.from) v.items) }
{
    doors.sort_by_key(|door| door.from)?;
    Ok(doors)
}

/// The place of the first door from this sector or a later one.
fn start_of(doors: &[Door], sector: u32) -> usize
    requires { IsNonDecreasingBy (λ (e : Door). e.from) doors.now }
    ensures { IsDoorStart doors.now sector result }
{
    doors.partition_point(|door| (door.from as u32) < sector)
}

/// The starts of all sectors.
fn starts_of(alloc: Global, doors: &[Door], sectors: u16) -> Result<Vec<usize>, Memory>
    requires { IsNonDecreasingBy (λ (e : Door). e.from) doors.now }
    ensures len { IfOk result (λ v. length v.items ≡ sectors + 1) }
    ensures starts { IfOk result (λ v. AreDoorStarts doors.now v.items) }
{
    let mut starts = Vec::new(alloc);
    for sector in 0..sectors as u32 + 1 {
        starts.push(start_of(doors, sector))?;
    }
    Ok(starts)
}

/// The doors from one place up to another.
fn between(doors: &[Door], start: usize, end: usize) -> &[Door]
    requires order { start ≤ end }
    requires within { end ≤ length doors.now }
    ensures { result.now ≡ slice_range doors.now start end }
{
    &doors[start..end]
}

impl Doors {
    /// The doors of the plan.
    pub fn of(alloc: Global, plan: &Plan, dampers: &[bool]) -> Result<Doors, Memory>
        requires { length dampers.now ≡ length plan.now.lines }
        ensures indexed { IfOk result AreDoorsIndexed }
        ensures sectors { IfOk result (λ ds. ds.sectors ≡ plan.now.sectors) }
        ensures doors { IfOk result (λ ds. AreDoors (map_of plan.now) dampers.now ds.doors.items) }
    {
        let doors = in_order(doors_of(alloc, plan, dampers)?)?;
        let starts = starts_of(alloc, &doors, plan.sectors)?;
        Ok(Doors {
            sectors: plan.sectors,
            doors,
            starts,
        })
    }

    /// The doors from this sector.
    pub fn at(&self, sector: u16) -> &[Door]
        requires indexed { AreDoorsIndexed self.now }
        requires within { sector < self.now.sectors }
        ensures { AreDoorsFrom self.now.doors.items sector result.now }
    {
        let start = self.starts[sector as usize];
        let end = self.starts[sector as usize + 1];
        between(&self.doors, start, end)
    }
}
