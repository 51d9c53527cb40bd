//! One more portal that has an end of the last one.

ghost use Rattle.std.specs.Prelude.{◌≡◌, ◌≢◌, ◌+◌, ◌<◌, length};
ghost use Rattle.stab_hull.specs.Portals.{portals_of};
ghost use Rattle.stab_hull.specs.Sleeves.{IsSleeve, IsCoveredLeft, IsCoveredRight, HasLastLeft, HasLastRight, TakesRight, TakesLeft, TellsRight, TellsLeft, GoesOnWithNote, frames_of, tells_of, told_of_search};

use crate::Passed;
use crate::frame::{Frame, Noted};
use crate::hull::{Hull, frame_over};
use crate::turning::{Turn, left_turn, right_turn, stack_left, stack_right};
use block_evidence::{Evidence, four};
use geom_exact::extreme_lines::Cone;
use sight_names::{EndAt, Memory, Pt, RIGHT_END};

/// What comes of one more portal.
#[derive(Clone, Copy)]
pub enum Told {
    /// It is stacked: a line passes it and all before.
    Open,
    /// No line does, as these ends show.
    Stuck(Evidence),
    /// The two extreme lines don't tell, and it has to be searched for.
    Unseen,
}

/// What one more end does to the stacks.
#[derive(Clone, Copy)]
enum Tells {
    /// The portal is stacked and the end isn't kept, since another one covers it.
    Covered,
    /// It is stacked, and one of the lines may move to it or none.
    Takes(bool),
    Stuck(Evidence),
    Unseen,
}

/// What it does to the lines, as what it does to the stacks.
#[inline(always)]
fn of_turn(turn: Turn) -> Tells
    ensures { result ≡ tells_of turn }
{
    match turn {
        Turn::Covered => Tells::Covered,
        Turn::Same => Tells::Takes(false),
        Turn::Moves => Tells::Takes(true),
        Turn::Stuck(evidence) => Tells::Stuck(evidence),
        Turn::Unseen => Tells::Unseen,
    }
}

/// What a new right end does, of a portal with this left end.
#[inline(always)]
fn right_told<N: Copy>(portals: &[Noted<N>], hull: &Hull, left: Pt, new: EndAt) -> Tells
    requires sleeve { IsSleeve (frames_of portals.now) hull.now.lefts hull.now.rights hull.now.cones.items }
    requires there { 0 < length portals.now }
    requires code { new.code ≡ length portals.now + RIGHT_END }
    ensures { TellsRight (portals_of (frames_of portals.now)) hull.now.lefts hull.now.rights hull.now.cones.items left new result }
{
    match &hull.cones[hull.cones.len() - 1] {
        Cone::Ray(_) => Tells::Unseen,
        Cone::Open(wedge) => of_turn(right_turn(wedge, new)),
    }
}

/// What a new left end does, of a portal with this right end.
#[inline(always)]
fn left_told<N: Copy>(portals: &[Noted<N>], hull: &Hull, new: EndAt, right: Pt) -> Tells
    requires sleeve { IsSleeve (frames_of portals.now) hull.now.lefts hull.now.rights hull.now.cones.items }
    requires there { 0 < length portals.now }
    requires few { length portals.now < RIGHT_END }
    requires code { new.code ≡ length portals.now }
    ensures { TellsLeft (portals_of (frames_of portals.now)) hull.now.lefts hull.now.rights hull.now.cones.items new right result }
{
    match &hull.cones[hull.cones.len() - 1] {
        Cone::Ray(_) => Tells::Unseen,
        Cone::Open(wedge) => of_turn(left_turn(wedge, new)),
    }
}

/// The frame of a portal from the last left end to a new right end, over these stacks.
// the last portal's end is copied from there: as a value it would be taken apart into its coordinates
#[inline(always)]
fn frame_to_right<N: Copy>(portals: &[Noted<N>], hull: &Hull, left: Pt, right: Pt) -> Frame
    requires last { HasLastLeft (portals_of (frames_of portals.now)) left }
    ensures { result ≡ record { left = left; right = right; lefts = length hull.now.lefts; rights = length hull.now.rights; cones = length hull.now.cones.items } }
{
    let last = &portals[portals.len() - 1].frame;
    Frame {
        left: last.left,
        right,
        lefts: hull.lefts.len(),
        rights: hull.rights.len(),
        cones: hull.cones.len(),
    }
}

/// The same from a new left end to the last right end.
#[inline(always)]
fn frame_to_left<N: Copy>(portals: &[Noted<N>], hull: &Hull, left: Pt, right: Pt) -> Frame
    requires last { HasLastRight (portals_of (frames_of portals.now)) right }
    ensures { result ≡ record { left = left; right = right; lefts = length hull.now.lefts; rights = length hull.now.rights; cones = length hull.now.cones.items } }
{
    let last = &portals[portals.len() - 1].frame;
    Frame {
        left,
        right: last.right,
        lefts: hull.lefts.len(),
        rights: hull.rights.len(),
        cones: hull.cones.len(),
    }
}

/// Stacks a portal from the last left end to a new right end that another one covers, so that it isn't kept.
#[inline(always)]
fn pass_right<N: Copy>(
    portals: &mut Vec<Noted<N>>,
    hull: &Hull,
    left: Pt,
    new: EndAt,
    note: N,
) -> Result<Told, Memory>
    requires sleeve { IsSleeve (frames_of portals.old.items) hull.now.lefts hull.now.rights hull.now.cones.items }
    requires last { HasLastLeft (portals_of (frames_of portals.old.items)) left }
    requires few { length portals.old.items < RIGHT_END }
    requires code { new.code ≡ length portals.old.items + RIGHT_END }
    requires covered { IsCoveredRight hull.now.rights hull.now.cones.items new.at }
    ensures { GoesOnWithNote portals.old.items note (record { left = left; right = new.at }) portals.new.items hull.now.lefts hull.now.rights hull.now.cones.items result }
{
    portals.reserve(1)?;
    let frame = frame_to_right(portals.as_slice(), hull, left, new.at);
    portals.push_reserved(Noted { frame, note });
    Ok(Told::Open)
}

/// Stacks a portal from a new left end that another one covers to the last right end.
#[inline(always)]
fn pass_left<N: Copy>(
    portals: &mut Vec<Noted<N>>,
    hull: &Hull,
    new: EndAt,
    right: Pt,
    note: N,
) -> Result<Told, Memory>
    requires sleeve { IsSleeve (frames_of portals.old.items) hull.now.lefts hull.now.rights hull.now.cones.items }
    requires last { HasLastRight (portals_of (frames_of portals.old.items)) right }
    requires few { length portals.old.items < RIGHT_END }
    requires code { new.code ≡ length portals.old.items }
    requires covered { IsCoveredLeft hull.now.lefts hull.now.cones.items new.at }
    ensures { GoesOnWithNote portals.old.items note (record { left = new.at; right = right }) portals.new.items hull.now.lefts hull.now.rights hull.now.cones.items result }
{
    portals.reserve(1)?;
    let frame = frame_to_left(portals.as_slice(), hull, new.at, right);
    portals.push_reserved(Noted { frame, note });
    Ok(Told::Open)
}

/// Stacks a portal from the last left end to a new right end.
#[inline(always)]
fn add_right<N: Copy>(
    portals: &mut Vec<Noted<N>>,
    hull: &mut Hull,
    left: Pt,
    new: EndAt,
    moves: bool,
    note: N,
) -> Result<Told, Memory>
    requires sleeve { IsSleeve (frames_of portals.old.items) hull.old.lefts hull.old.rights hull.old.cones.items }
    requires last { HasLastLeft (portals_of (frames_of portals.old.items)) left }
    requires few { length portals.old.items < RIGHT_END }
    requires code { new.code ≡ length portals.old.items + RIGHT_END }
    requires takes { TakesRight hull.old.lefts hull.old.rights hull.old.cones.items new moves }
    ensures { GoesOnWithNote portals.old.items note (record { left = left; right = new.at }) portals.new.items hull.new.lefts hull.new.rights hull.new.cones.items result }
{
    portals.reserve(1)?;
    let count = hull.rights.len();
    hull.rights.push(new)?;
    if moves {
        // a copy, since the end itself then needn't stand in memory
        let copy = EndAt {
            code: new.code,
            at: new.at,
        };
        let lefts = hull.lefts.as_slice();
        match stack_right(&mut hull.cones, lefts, lefts, copy) {
            Ok(()) => {}
            Err(memory) => {
                hull.rights.truncate(count);
                return Err(memory);
            }
        }
    }
    let frame = frame_to_right(portals.as_slice(), hull, left, new.at);
    portals.push_reserved(Noted { frame, note });
    Ok(Told::Open)
}

/// Stacks a portal from a new left end to the last right end.
#[inline(always)]
fn add_left<N: Copy>(
    portals: &mut Vec<Noted<N>>,
    hull: &mut Hull,
    new: EndAt,
    right: Pt,
    moves: bool,
    note: N,
) -> Result<Told, Memory>
    requires sleeve { IsSleeve (frames_of portals.old.items) hull.old.lefts hull.old.rights hull.old.cones.items }
    requires last { HasLastRight (portals_of (frames_of portals.old.items)) right }
    requires few { length portals.old.items < RIGHT_END }
    requires code { new.code ≡ length portals.old.items }
    requires takes { TakesLeft hull.old.lefts hull.old.rights hull.old.cones.items new moves }
    ensures { GoesOnWithNote portals.old.items note (record { left = new.at; right = right }) portals.new.items hull.new.lefts hull.new.rights hull.new.cones.items result }
{
    portals.reserve(1)?;
    let count = hull.lefts.len();
    hull.lefts.push(new)?;
    if moves {
        // a copy, since the end itself then needn't stand in memory
        let copy = EndAt {
            code: new.code,
            at: new.at,
        };
        let rights = hull.rights.as_slice();
        match stack_left(&mut hull.cones, rights, rights, copy) {
            Ok(()) => {}
            Err(memory) => {
                hull.lefts.truncate(count);
                return Err(memory);
            }
        }
    }
    let frame = frame_to_left(portals.as_slice(), hull, new.at, right);
    portals.push_reserved(Noted { frame, note });
    Ok(Told::Open)
}

/// Adds a portal by a search over all ends, which the first portals need.
#[inline(never)]
pub fn add_by_search<N: Copy>(
    portals: &mut Vec<Noted<N>>,
    hull: &mut Hull,
    left: Pt,
    right: Pt,
    note: N,
) -> Result<Passed, Memory>
    requires sleeve { IsSleeve (frames_of portals.old.items) hull.old.lefts hull.old.rights hull.old.cones.items }
    requires there { 0 < length portals.old.items }
    requires few { length portals.old.items < RIGHT_END }
    requires proper { left ≢ right }
    ensures { GoesOnWithNote portals.old.items note (record { left = left; right = right }) portals.new.items hull.new.lefts hull.new.rights hull.new.cones.items (told_of_search result) }
{
    portals.reserve(1)?;
    let top = portals[portals.len() - 1].frame;
    let place = portals.len() as u16;
    let left_end = EndAt {
        code: place,
        at: left,
    };
    let right_end = EndAt {
        code: place + RIGHT_END,
        at: right,
    };
    match hull.add(left_end, right_end) {
        Ok(None) => {
            let frame = frame_over(hull, left, right);
            portals.push_reserved(Noted { frame, note });
            Ok(Passed::Open)
        }
        Ok(Some(pairs)) => {
            hull.cut(&top);
            Ok(Passed::Stuck(four(&pairs)))
        }
        Err(memory) => {
            hull.cut(&top);
            Err(memory)
        }
    }
}

/// Adds the portal from the last left end to this right end, where a line passes it and all others.
#[inline(always)]
pub fn add_by_new_right<N: Copy>(
    portals: &mut Vec<Noted<N>>,
    hull: &mut Hull,
    left: Pt,
    right: Pt,
    note: N,
) -> Result<Told, Memory>
    requires sleeve { IsSleeve (frames_of portals.old.items) hull.old.lefts hull.old.rights hull.old.cones.items }
    requires last { HasLastLeft (portals_of (frames_of portals.old.items)) left }
    requires few { length portals.old.items < RIGHT_END }
    requires proper { left ≢ right }
    ensures { GoesOnWithNote portals.old.items note (record { left = left; right = right }) portals.new.items hull.new.lefts hull.new.rights hull.new.cones.items result }
{
    let new = EndAt {
        code: portals.len() as u16 + RIGHT_END,
        at: right,
    };
    match right_told(portals.as_slice(), hull, left, new) {
        Tells::Covered => pass_right(portals, hull, left, new, note),
        Tells::Takes(moves) => add_right(portals, hull, left, new, moves, note),
        Tells::Stuck(evidence) => Ok(Told::Stuck(evidence)),
        Tells::Unseen => Ok(Told::Unseen),
    }
}

/// Adds the portal from this left end to the last right end, where a line passes it and all others.
#[inline(always)]
pub fn add_by_new_left<N: Copy>(
    portals: &mut Vec<Noted<N>>,
    hull: &mut Hull,
    left: Pt,
    right: Pt,
    note: N,
) -> Result<Told, Memory>
    requires sleeve { IsSleeve (frames_of portals.old.items) hull.old.lefts hull.old.rights hull.old.cones.items }
    requires last { HasLastRight (portals_of (frames_of portals.old.items)) right }
    requires few { length portals.old.items < RIGHT_END }
    requires proper { left ≢ right }
    ensures { GoesOnWithNote portals.old.items note (record { left = left; right = right }) portals.new.items hull.new.lefts hull.new.rights hull.new.cones.items result }
{
    let new = EndAt {
        code: portals.len() as u16,
        at: left,
    };
    match left_told(portals.as_slice(), hull, new, right) {
        Tells::Covered => pass_left(portals, hull, new, right, note),
        Tells::Takes(moves) => add_left(portals, hull, new, right, moves, note),
        Tells::Stuck(evidence) => Ok(Told::Stuck(evidence)),
        Tells::Unseen => Ok(Told::Unseen),
    }
}
