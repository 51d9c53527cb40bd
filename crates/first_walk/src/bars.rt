//! Gates as floods need them. Nothing is proved of them.

use gate_floods::gate_masks::gate::Gate;
use sight_names::{Memory, Pt};
use std::alloc::Global;

/// A gate as a flood needs it: its line, which is above 0 in front of it, its ends, and the groups on both sides of it.
#[derive(Clone, Copy)]
pub struct Bar {
    a: i32,
    b: i32,
    c: i64,
    left: Pt,
    right: Pt,
    pub near: u16,
    pub far: u16,
}

/// The gate as a bar.
fn bar_of(gate: &Gate) -> Bar {
    let a = gate.left_at.y.wrapping_sub(gate.right_at.y);
    let b = gate.right_at.x.wrapping_sub(gate.left_at.x);
    let at = (a as i64)
        .wrapping_mul(gate.left_at.x as i64)
        .wrapping_add((b as i64).wrapping_mul(gate.left_at.y as i64));
    Bar {
        a,
        b,
        c: at,
        left: gate.left_at,
        right: gate.right_at,
        near: gate.near,
        far: gate.far,
    }
}

/// The value of the bar's line at the point, to be compared with the bar's own.
#[inline(always)]
fn level(bar: &Bar, at: Pt) -> i64 {
    (bar.a as i64)
        .wrapping_mul(at.x as i64)
        .wrapping_add((bar.b as i64).wrapping_mul(at.y as i64))
}

/// Whether an end of the next one is in front of this one, and an end of this one in the back of the next.
#[inline(always)]
pub fn may_follow(bar: &Bar, next: &Bar) -> bool {
    (level(bar, next.left) > bar.c || level(bar, next.right) > bar.c)
        && (level(next, bar.left) < next.c || level(next, bar.right) < next.c)
}

/// The gates as bars.
pub fn bars_of(alloc: Global, gates: &[Gate]) -> Result<Vec<Bar>, Memory> {
    let mut bars = Vec::new(alloc);
    for gate in gates {
        bars.push(bar_of(gate))?;
    }
    Ok(bars)
}
