//! The components of sectors under passable lines.

ghost use Rattle.std.specs.Prelude.{◌≡◌, ◌<◌, IfOk, IfSome, length};
ghost use Rattle.sight_names.specs.Map.{map_of};
ghost use Rattle.face_groups.specs.TriSectors.Components.{AreComponents, Connects};
ghost use Rattle.face_groups.specs.TriSectors.Forest.{classes_in, IsForest};

use crate::tri_sectors::classes::{merge, name_all, singles};
use sight_names::{Line, Memory, Plan};
use std::alloc::Global;

/// For each sector the least sector that passable lines connect with it.
pub fn components(alloc: Global, plan: &Plan) -> Result<Vec<u16>, Memory>
    ensures len { IfOk result (λ v. length v.items ≡ plan.now.sectors) }
    ensures components { IfOk result (λ v. AreComponents (map_of plan.now) v.items) }
{
    let mut parents = singles(alloc, plan.sectors)?;
    for line in plan.lines() {
        if let Some(line) = line {
            connect(&mut parents, *line);
        }
    }
    name_all(&mut parents);
    Ok(parents)
}

/// Puts the sectors of a passable line's two sides together.
fn connect(parents: &mut [u16], line: Line)
    requires forest { IsForest parents.old }
    requires right { IfSome line.right (λ a. a < length parents.old) }
    requires left { IfSome line.left (λ a. a < length parents.old) }
    ensures len { length parents.new ≡ length parents.old }
    ensures forest { IsForest parents.new }
    ensures connected { Connects line (classes_in parents.old) (classes_in parents.new) }
{
    if line.solid {
        return;
    }
    let Some(right) = line.right else {
        return;
    };
    let Some(left) = line.left else {
        return;
    };
    merge(parents, right, left);
}
