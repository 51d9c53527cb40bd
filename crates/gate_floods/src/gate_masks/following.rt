//! Which gate may follow which on a straight way.

ghost use Rattle.std.specs.Prelude.{◌<ℤ◌, ◌↔◌, IsTrue, pos};
ghost use Rattle.geom_exact.specs.Formulas.{turn_of};
ghost use Rattle.gate_floods.specs.GateMasks.Following.{GateFollows};

use crate::gate_masks::gate::Gate;
use geom_exact::turn;
use sight_names::Pt;

/// Whether the point is strictly on the side to which the gate leads.
fn is_in_front(gate: Gate, at: Pt) -> bool
    ensures { IsTrue result ↔ (pos 0 <ℤ turn_of gate.left_at gate.right_at at) }
{
    turn(gate.left_at, gate.right_at, at) > 0
}

/// Whether the point is strictly on the side from which one comes to the gate.
fn is_in_back(gate: Gate, at: Pt) -> bool
    ensures { IsTrue result ↔ (turn_of gate.left_at gate.right_at at <ℤ pos 0) }
{
    turn(gate.left_at, gate.right_at, at) < 0
}

/// Whether an end of the next gate is in front of this one, and an end of this one in the back of the next.
pub fn may_follow(gate: Gate, next: Gate) -> bool
    ensures { IsTrue result ↔ GateFollows gate next }
{
    (is_in_front(gate, next.left_at) || is_in_front(gate, next.right_at))
        && (is_in_back(next, gate.left_at) || is_in_back(next, gate.right_at))
}
