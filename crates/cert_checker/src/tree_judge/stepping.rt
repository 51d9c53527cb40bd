//! The steps of a walk that hears nodes from bytes, by the table of steps.
//!
//! What is asked is a plain number here: the place of a step, or `NO_PLACE` where nothing is.

ghost use Rattle.std.specs.Prelude.{◌≡◌, ◌≤◌, ◌<◌, ◌↔◌, List, IsTrue, length};
ghost use Rattle.mesh_shape.specs.declared.half_edges.table.HalfEdge.{HalfEdge as EdgeOf};
ghost use Rattle.block_evidence.specs.Stuck.{BlocksEnds};
ghost use Rattle.sight_names.specs.declared.limits.TheConstants.{RIGHT_END};
ghost use Rattle.cert_checker.specs.TreeJudge.Path.{path_ends, PutsAt, EntersThrough, TakesNext};
ghost use Rattle.cert_checker.specs.TreeJudge.Steps.{code_told, step_ends, AreSeenNoted, IsStepOf, LetsWait, NotesCode};

use crate::tree_judge::marks::mark;
use crate::tree_judge::roots::Roots;
use crate::tree_judge::steps::{NO_SECTOR, Step, outside};
use crate::tree_judge::trees::{
    Follow, Frame, Wait, are_shown_blocked, is_seen_blocked, next_asked, note,
};
use block_evidence::Evidence;
use reject_bits::Table;

/// Stands for no place: more than any number of a half-edge.
pub const NO_PLACE: usize = 4_294_967_296;

/// What is asked, as a plain number.
#[inline(always)]
pub fn place_of(asked: Option<u32>) -> usize
    ensures { code_told result ≡ asked }
{
    match asked {
        Some(number) => number as usize,
        None => NO_PLACE,
    }
}

/// What is asked, told by its plain number.
pub fn asked_at(place: usize) -> Option<u32>
    ensures { result ≡ code_told place }
{
    if place < NO_PLACE {
        Some(place as u32)
    } else {
        None
    }
}

/// Puts the portal of this step behind the open ones.
#[inline(always)]
pub fn put_step(path: &mut [Frame], depth: usize, step: &Step)
    requires { depth < length path.old }
    ensures { PutsAt path.old depth (step_ends step.now) path.new }
{
    path[depth] = Frame {
        left: step.left_at,
        right: step.right_at,
    };
}

/// Whether the ends are ends of these portals, and stuck; most often it is seen at once.
#[inline(always)]
pub fn is_shown(path: &[Frame], evidence: Evidence) -> bool
    requires { length path.now ≤ RIGHT_END }
    ensures { IsTrue result ↔ BlocksEnds (path_ends path.now) evidence }
{
    let [a, b, c, d] = evidence.ends;
    is_seen_blocked(path, evidence) || are_shown_blocked(path, evidence.count, a, b, c, d)
}

/// Notes that the source reaches the sector with this plain number, where there is one, and that this is seen.
// out of line: a source enters each sector once for the first time, and most of them many times more
#[inline(never)]
fn note_first(reached: &mut Table, seen: &mut [bool], source: u16, sector: u32)
    requires { AreSeenNoted source seen.old reached.old }
    ensures noted { NotesCode source sector reached.old reached.new }
    ensures seen { AreSeenNoted source seen.new reached.new }
{
    if sector >= NO_SECTOR {
        return;
    }
    note(reached, source, Some(sector as u16));
    mark(seen, Some(sector as u16));
}

/// The same, where it may be seen already.
#[inline(always)]
pub fn note_code(reached: &mut Table, seen: &mut [bool], source: u16, sector: u32)
    requires { AreSeenNoted source seen.old reached.old }
    ensures noted { NotesCode source sector reached.old reached.new }
    ensures seen { AreSeenNoted source seen.new reached.new }
{
    if (sector as usize) < seen.len() && seen[sector as usize] {
        return;
    }
    note_first(reached, seen, source, sector);
}

/// The place that is asked next: the last way that waits, or else the next root.
#[inline(always)]
pub fn next_place(roots: &Roots, path: &[Frame], waits: &[Wait], follow: &mut Follow) -> usize
    ensures within { follow.new.depth ≤ length path.now }
    ensures room { follow.new.depth ≤ length waits.now }
    ensures next { TakesNext roots.now.roots.items path.now waits.now follow.old follow.new (code_told result) }
{
    place_of(next_asked(roots, path, waits, follow))
}

/// The step's right way waits, where it leads out of the source.
#[inline(always)]
fn let_wait(source: u16, waits: &mut [Wait], follow: &mut Follow, step: &Step)
    requires { follow.old.depth < length waits.old }
    ensures waits { (xs : List EdgeOf) (x : EdgeOf) → IsStepOf xs x step.now → LetsWait xs source x waits.old follow.old waits.new follow.new }
    ensures depth { follow.new.depth ≡ follow.old.depth }
{
    let Some(right) = outside(step.right_way, step.right_sector, source) else {
        return;
    };
    waits[follow.depth] = Wait {
        way: right,
        before: follow.waiting,
    };
    follow.waiting = follow.depth + 1;
}

/// Goes through the step whose portal was put last, and gives the place that is asked next: its left way, its right way, or
/// what comes behind both.
// the right way waits in any case, and may be asked at once: so it is looked at in one place
#[inline(always)]
pub fn enter_step(
    roots: &Roots,
    source: u16,
    path: &[Frame],
    waits: &mut [Wait],
    follow: &mut Follow,
    step: &Step,
) -> usize
    requires path { follow.old.depth < length path.now }
    requires waits { follow.old.depth < length waits.old }
    ensures within { follow.new.depth ≤ length path.now }
    ensures room { follow.new.depth ≤ length waits.new }
    ensures enters { (xs : List EdgeOf) (x : EdgeOf) → IsStepOf xs x step.now → EntersThrough xs roots.now.roots.items source path.now waits.old follow.old x waits.new follow.new (code_told result) }
{
    let_wait(source, waits, follow, step);
    let Some(left) = outside(step.left_way, step.left_sector, source) else {
        return next_place(roots, path, waits, follow);
    };
    follow.depth += 1;
    place_of(Some(left))
}
