//! One fault of a map as the numbers that C reads.

ghost use Rattle.std.specs.Prelude.{◌≡◌};
ghost use Rattle.sight_names.specs.Map.{map_of};
ghost use Rattle.map_audit.specs.Audit.{IsLineFaultOf};
ghost use Rattle.map_faults.specs.Clashes.{IsClash};
ghost use Rattle.doomsight_c.specs.Flaws.{TellsClash, flaw_of as flaw_told, gap_view, kind_of_clash as kind_told, loose_view, point_of_plan, side_view, start_of as start_told, stop_of as stop_told, tear_view};

use crate::fault::left_of;
use map_faults::{Gap, LinePair, LooseEnd, Tear, fault_of, meeting_of};
use sight_names::{LineFault, Plan, Pt, Side};

/// A fault of a map at its place; what the numbers of each kind tell stands in the header. To C the fields are at the bytes 0,
/// 2, 4, 6, 8, 12, 16 and 20 of 24.
#[repr(C)]
#[derive(Clone, Copy)]
pub struct DoomsightFlaw {
    pub kind: u16,
    pub i: u16,
    pub j: u16,
    pub left: u16,
    pub x: i32,
    pub y: i32,
    pub to_x: i32,
    pub to_y: i32,
}

/// How many faults of each kind a map has, and how many of all are listed.
#[repr(C)]
#[derive(Clone, Copy)]
pub struct DoomsightFlawCounts {
    pub clashes: u64,
    pub loose_ends: u64,
    pub open_sides: u64,
    pub tears: u64,
    pub gaps: u64,
    pub listed: u64,
}

fn flaw_of(kind: u16, i: u16, j: u16, left: u16, from: Pt, to: Pt) -> DoomsightFlaw
    ensures { result ≡ flaw_told kind i j left from to }
{
    DoomsightFlaw {
        kind,
        i,
        j,
        left,
        x: from.x,
        y: from.y,
        to_x: to.x,
        to_y: to.y,
    }
}

/// The point with this number; the origin where there is none.
fn point_of(plan: &Plan, k: u16) -> Pt
    ensures { result ≡ point_of_plan plan.now k }
{
    match plan.points().get(k as usize) {
        Some(point) => *point,
        None => Pt { x: 0, y: 0 },
    }
}

/// Where the line of this record begins; the origin where it has none.
fn start_of(plan: &Plan, i: u16) -> Pt
    ensures { result ≡ start_told plan.now i }
{
    match plan.line(i) {
        Some(line) => point_of(plan, line.a),
        None => Pt { x: 0, y: 0 },
    }
}

/// Where it ends.
fn stop_of(plan: &Plan, i: u16) -> Pt
    ensures { result ≡ stop_told plan.now i }
{
    match plan.line(i) {
        Some(line) => point_of(plan, line.b),
        None => Pt { x: 0, y: 0 },
    }
}

fn kind_of(fault: LineFault) -> u16
    ensures { result ≡ kind_told fault }
{
    match fault {
        LineFault::Cross { .. } => 8,
        LineFault::Touch { .. } => 9,
        LineFault::Overlap { .. } => 10,
    }
}

/// Two lines that clash so, where they meet.
fn of_fault(plan: &Plan, pair: LinePair, fault: LineFault) -> DoomsightFlaw
    requires { IsLineFaultOf (map_of plan.now) pair.i pair.j fault }
    ensures { TellsClash plan.now pair result }
{
    let kind = kind_of(fault);
    match meeting_of(plan, pair.i, pair.j) {
        Some(corner) => flaw_of(kind, pair.i, pair.j, 0, corner, corner),
        None => flaw_of(
            kind,
            pair.i,
            pair.j,
            0,
            start_of(plan, pair.i),
            stop_of(plan, pair.i),
        ),
    }
}

/// Two lines that clash.
pub fn of_clash(plan: &Plan, pair: LinePair) -> DoomsightFlaw
    requires { IsClash (map_of plan.now) pair }
    ensures { TellsClash plan.now pair result }
{
    match fault_of(plan, pair.i, pair.j) {
        Some(fault) => of_fault(plan, pair, fault),
        // the lines of a pair that clashes have a fault
        None => unreachable!(),
    }
}

/// A loose end.
pub fn of_loose(plan: &Plan, end: LooseEnd) -> DoomsightFlaw
    ensures { result ≡ loose_view plan.now end }
{
    let point = point_of(plan, end.point);
    flaw_of(60, end.line, 0, 0, point, point)
}

/// An open side.
pub fn of_side(plan: &Plan, side: Side) -> DoomsightFlaw
    ensures { result ≡ side_view plan.now side }
{
    flaw_of(
        11,
        side.line,
        0,
        left_of(side),
        start_of(plan, side.line),
        stop_of(plan, side.line),
    )
}

/// A torn corner.
pub fn of_tear(plan: &Plan, tear: Tear) -> DoomsightFlaw
    ensures { result ≡ tear_view plan.now tear }
{
    flaw_of(
        61,
        tear.side.line,
        0,
        left_of(tear.side),
        point_of(plan, tear.point),
        point_of(plan, tear.to),
    )
}

/// A gap.
pub fn of_gap(plan: &Plan, gap: Gap) -> DoomsightFlaw
    ensures { result ≡ gap_view plan.now gap }
{
    flaw_of(
        62,
        0,
        0,
        0,
        point_of(plan, gap.from),
        point_of(plan, gap.to),
    )
}
