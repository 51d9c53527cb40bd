//! The faults of a map, one behind the other.

ghost use Rattle.std.specs.Prelude.{◌≡◌, ◌++◌, IfOk, OnOk, map};
ghost use Rattle.doomsight_c.specs.Audited.{AreClashing, TellsAllFlaws, TellsClashes};
ghost use Rattle.doomsight_c.specs.Flaws.{PutsFront, gap_view, loose_view, side_view, tear_view};

use crate::flaw::{DoomsightFlaw, of_clash, of_gap, of_loose, of_side, of_tear};
use map_faults::{Gap, LinePair, LooseEnd, Tear};
use sight_names::{Memory, Plan, Side};
use std::alloc::Global;

fn tell_clashes(plan: &Plan, pairs: &[LinePair], out: &mut Vec<DoomsightFlaw>) -> Result<(), Memory>
    requires { AreClashing plan.now pairs.now }
    ensures { OnOk result (TellsClashes plan.now pairs.now out.old.items out.new.items) }
{
    for i in 0..pairs.len() {
        out.push(of_clash(plan, pairs[i]))?;
    }
    Ok(())
}

fn tell_loose(plan: &Plan, ends: &[LooseEnd], out: &mut Vec<DoomsightFlaw>) -> Result<(), Memory>
    ensures { OnOk result (out.new.items ≡ out.old.items ++ map (loose_view plan.now) ends.now) }
{
    for end in ends {
        out.push(of_loose(plan, *end))?;
    }
    Ok(())
}

fn tell_sides(plan: &Plan, sides: &[Side], out: &mut Vec<DoomsightFlaw>) -> Result<(), Memory>
    ensures { OnOk result (out.new.items ≡ out.old.items ++ map (side_view plan.now) sides.now) }
{
    for side in sides {
        out.push(of_side(plan, *side))?;
    }
    Ok(())
}

fn tell_tears(plan: &Plan, tears: &[Tear], out: &mut Vec<DoomsightFlaw>) -> Result<(), Memory>
    ensures { OnOk result (out.new.items ≡ out.old.items ++ map (tear_view plan.now) tears.now) }
{
    for tear in tears {
        out.push(of_tear(plan, *tear))?;
    }
    Ok(())
}

fn tell_gaps(plan: &Plan, gaps: &[Gap], out: &mut Vec<DoomsightFlaw>) -> Result<(), Memory>
    ensures { OnOk result (out.new.items ≡ out.old.items ++ map (gap_view plan.now) gaps.now) }
{
    for gap in gaps {
        out.push(of_gap(plan, *gap))?;
    }
    Ok(())
}

/// All of them, kind after kind.
pub fn tell_all(
    alloc: Global,
    plan: &Plan,
    clashes: &[LinePair],
    loose: &[LooseEnd],
    sides: &[Side],
    tears: &[Tear],
    gaps: &[Gap],
) -> Result<Vec<DoomsightFlaw>, Memory>
    requires { AreClashing plan.now clashes.now }
    ensures { IfOk result (λ v. TellsAllFlaws plan.now clashes.now loose.now sides.now tears.now gaps.now v.items) }
{
    let mut out = Vec::new(alloc);
    tell_clashes(plan, clashes, &mut out)?;
    tell_loose(plan, loose, &mut out)?;
    tell_sides(plan, sides, &mut out)?;
    tell_tears(plan, tears, &mut out)?;
    tell_gaps(plan, gaps, &mut out)?;
    Ok(out)
}

/// Puts the front of them into the buffer, as far as both go.
pub fn put_front(all: &[DoomsightFlaw], room: &mut [DoomsightFlaw])
    ensures { PutsFront all.now room.old room.new }
{
    let count = if all.len() < room.len() {
        all.len()
    } else {
        room.len()
    };
    room[..count].copy_from_slice(&all[..count]);
}
