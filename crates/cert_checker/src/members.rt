//! The groups of each sector, where each one that a side names is a group alone.

ghost use Rattle.std.specs.Prelude.{◌≡◌, [], IfOk, OnOk};
ghost use Rattle.sight_names.specs.Map.{map_of};
ghost use Rattle.cert_checker.specs.AcceptedGroups.Accepted.{IsAlone};
ghost use Rattle.cert_checker.specs.Members.{added, AreMembersBy};
ghost use Rattle.cert_checker.specs.Named.{MarksNamed, MarksLine};

use crate::pairs::holds;
use crate::tree_judge::mark;
use face_groups::Group;
use sight_names::{Items, Line, Memory, Plan};
use std::alloc::Global;

/// Whether some side of a line names the sector, for each sector.
fn named_of(alloc: Global, plan: &Plan) -> Result<Vec<bool>, Memory>
    ensures { IfOk result (λ v. MarksNamed (map_of plan.now) v.items) }
{
    let mut named = vec![in alloc; false; plan.sectors as usize]?;
    for entry in plan.lines() {
        mark_sides(&mut named, *entry);
    }
    Ok(named)
}

/// Marks the sectors that the line's sides name.
fn mark_sides(flags: &mut [bool], entry: Option<Line>)
    ensures { MarksLine entry flags.old flags.new }
{
    if let Some(line) = entry {
        mark(flags, line.right);
        mark(flags, line.left);
    }
}

/// Adds the number, if it is to be added.
pub fn add_if(numbers: &mut Vec<u16>, number: u16, adds: bool) -> Result<(), Memory>
    ensures { OnOk result (numbers.new.items ≡ added adds number numbers.old.items) }
{
    if adds {
        numbers.push(number)?;
    }
    Ok(())
}

/// The sector alone, if it is named.
fn own_group(alloc: Global, sector: u16, named: bool) -> Result<Group, Memory>
    ensures { IfOk result (λ v. v ≡ added named sector []) }
{
    let mut own = Vec::new(alloc);
    add_if(&mut own, sector, named)?;
    Ok(Items::of(own))
}

/// The groups of each sector, each of which is a group alone if some side of a line names it.
pub fn alone_of(alloc: Global, plan: &Plan) -> Result<Vec<Group>, Memory>
    ensures { IfOk result (λ v. AreMembersBy (IsAlone (map_of plan.now)) plan.now.sectors v.items) }
{
    let named = named_of(alloc, plan)?;
    let mut members = Vec::new(alloc);
    for sector in 0..plan.sectors {
        let own = own_group(alloc, sector, holds(named.as_slice(), sector))?;
        members.push(own)?;
    }
    Ok(members)
}
