//! The gate at a side of a line.

ghost use Rattle.std.specs.Prelude.{◌≡◌, ◌↔◌, Some};
ghost use Rattle.sight_names.specs.Map.{map_of};
ghost use Rattle.gate_floods.specs.declared.gate_masks.gate.Gate.{Gate};
ghost use Rattle.gate_floods.specs.GateMasks.Gates.{crossing_of, ends_by_side, IsGateOf};

use sight_names::{Line, Pair, Plan, Pt, Side};

/// A passable line that is walked through out of the sector that a side names into another one: the two sectors, the
/// side, and the left and the right end as seen by one who walks through it, by their numbers and as points.
#[derive(Clone, Copy)]
pub struct Gate {
    pub near: u16,
    pub far: u16,
    pub side: Side,
    pub left: u16,
    pub right: u16,
    pub left_at: Pt,
    pub right_at: Pt,
}

/// The sectors before and behind a side of the line, if the line is passable and they differ.
fn crossing(line: Line, left: bool) -> Option<Pair>
    ensures { result ≡ crossing_of line left }
{
    if line.solid {
        return None;
    }
    let right_name = line.right?;
    let left_name = line.left?;
    if right_name == left_name {
        return None;
    }
    if left {
        Some(Pair {
            a: left_name,
            b: right_name,
        })
    } else {
        Some(Pair {
            a: right_name,
            b: left_name,
        })
    }
}

/// The left and the right end of the line for one who leaves by this side.
fn ends(line: Line, left: bool) -> Pair
    ensures { result ≡ ends_by_side line left }
{
    if left {
        Pair {
            a: line.b,
            b: line.a,
        }
    } else {
        Pair {
            a: line.a,
            b: line.b,
        }
    }
}

/// The gate at this side, if there is one.
pub fn gate_at(plan: &Plan, side: Side) -> Option<Gate>
    ensures { (e : Gate) → (result ≡ Some e) ↔ (IsGateOf (map_of plan.now) e × (e.side ≡ side)) }
{
    let _ = plan.lines();
    let line = plan.line(side.line)?;
    let sectors = crossing(line, side.left)?;
    let points = ends(line, side.left);
    Some(Gate {
        near: sectors.a,
        far: sectors.b,
        side,
        left: points.a,
        right: points.b,
        left_at: plan.place(points.a),
        right_at: plan.place(points.b),
    })
}
