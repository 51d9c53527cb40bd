//! A walk with a row that follows a tree.

ghost use Rattle.std.specs.Prelude.{◌≡◌, ◌↔◌, ◌+◌, ◌<◌, ◌≤◌, ◌++◌, [], ◌∷◌, ℕ, List, Some as Given, IfOk, OnOk, IsTrue, length, not, slice_get, true, false};
ghost use Rattle.block_evidence.specs.declared.sight_tree.Node.TheVariants.{Open, Blocked};
ghost use Rattle.cert_checker.specs.TreeJudge.Path.{IsRootChain};
ghost use Rattle.cert_checker.specs.TreeJudge.Roots.{first_at};
ghost use Rattle.gate_floods.specs.RowJudge.Masks.{rows_of};
ghost use Rattle.gate_floods.specs.RowJudge.Asked.{row_behind, way_asked as way_asked_of};
ghost use Rattle.gate_floods.specs.RowJudge.Path.{AsksRoot, EntersThrough, HasAnswered, HasPassedTo, HasRefused, HasRoomFor, StandsBefore, TakesNext};
ghost use Rattle.gate_floods.specs.RowJudge.Words.{is_away};

use crate::row_judge::masks::{Masks, leaves, leaves_near, place_of};
use crate::row_judge::words::{has, part, put_both};
use block_evidence::Evidence;
use block_evidence::sight_tree::Node;
use cert_checker::tree_judge::{Frame, Roots, Terrain, is_blocked, put};
use mesh_shape::half_edges::HalfEdge;
use sight_names::Memory;

/// A right way that waits: how many portals lead to it, where the row behind them is, and its half-edge.
#[derive(Clone, Copy)]
pub struct Wait {
    pub depth: usize,
    pub row: usize,
    pub way: u32,
}

/// A walk that follows a tree.
#[derive(Clone, Copy)]
pub struct RowFollow {
    /// How many open nodes lead to the present one.
    pub depth: usize,
    /// Where the row behind them is.
    pub row: usize,
    /// The place of the next root.
    pub root: Option<usize>,
    /// The half-edge that is asked now.
    pub asked: Option<u32>,
}

/// The way, if it leads out of the source and something is left of the row behind it. `near` is the word in which a row and a
/// mask met last.
#[inline(always)]
fn way_asked(
    terrain: &Terrain<'_>,
    masks: &Masks<'_>,
    source: u16,
    row: &[u64],
    way: Option<u32>,
    near: &mut usize,
) -> Option<u32>
    ensures { result ≡ way_asked_of terrain.now.edges.now (rows_of masks.now) source row.now way }
{
    let number = terrain.edges.outside(way, source)?;
    if leaves_near(masks, row, number, near) {
        Some(number)
    } else {
        None
    }
}

/// The half-edge of the first root from this place on behind which something is left of the row, and the place of the
/// root behind it.
// out of line, where few nodes lead: what it needs would else take registers at each node
#[inline(never)]
fn next_root(
    roots: &Roots,
    masks: &Masks<'_>,
    row: &[u64],
    root: Option<usize>,
) -> (Option<u32>, Option<usize>)
    ensures { (es : List ℕ) → IsRootChain roots.now.roots.items root es → AsksRoot (rows_of masks.now) row.now roots.now.roots.items es result.0 result.1 }
{
    let mut at = root;
    for _ in 0..roots.len() {
        let Some(found) = roots.root(at) else {
            return (None, at);
        };
        at = found.next;
        if leaves(masks, row, found.edge) {
            return (Some(found.edge), at);
        }
    }
    (None, at)
}

/// The half-edge that is asked next: the right way that waits last, or else the next root.
#[inline(always)]
pub fn next_asked(
    roots: &Roots,
    masks: &Masks<'_>,
    rows: &[u64],
    waits: &mut Vec<Wait>,
    follow: &mut RowFollow,
) -> Option<u32>
    ensures { (first : List ℕ) (path : List Frame) → TakesNext (rows_of masks.now) first roots.now.roots.items path rows.now waits.old.items follow.old waits.new.items follow.new result }
{
    match waits.pop() {
        Some(wait) => {
            follow.depth = wait.depth;
            follow.row = wait.row;
            Some(wait.way)
        }
        None => {
            let first = part(rows, 0, masks.width);
            let (asked, next) = next_root(roots, masks, first, follow.root);
            follow.depth = 0;
            follow.row = 0;
            follow.root = next;
            asked
        }
    }
}

/// Puts a way behind those that wait.
// put where there is room, a wait needn't stand in memory before
#[inline(always)]
fn put_wait(waits: &mut Vec<Wait>, wait: Wait) -> Result<(), Memory>
    ensures { OnOk result (waits.new.items ≡ waits.old.items ++ wait ∷ []) }
{
    waits.reserve(1)?;
    waits.push_reserved(wait);
    Ok(())
}

/// What is asked next behind the half-edge to whose far side the walk has come: its left way, its right way, or what
/// comes behind both. Where both are asked, the right one waits.
#[inline(always)]
fn enter(
    terrain: &Terrain<'_>,
    masks: &Masks<'_>,
    source: u16,
    rows: &[u64],
    waits: &mut Vec<Wait>,
    follow: &mut RowFollow,
    edge: &HalfEdge,
    near: &mut usize,
) -> Result<Option<u32>, Memory>
    ensures { (first : List ℕ) (path : List Frame) → IfOk result (λ asked. EntersThrough terrain.now.edges.now (rows_of masks.now) source first terrain.now.roots.now.roots.items path rows.now waits.old.items follow.old edge.now waits.new.items follow.new asked) }
{
    let row = part(rows, follow.row, masks.width);
    let right = way_asked(terrain, masks, source, row, edge.right_way, near);
    let left = way_asked(terrain, masks, source, row, edge.left_way, near);
    match (left, right) {
        (Some(left), Some(right)) => {
            let wait = Wait {
                depth: follow.depth,
                row: follow.row,
                way: right,
            };
            put_wait(waits, wait)?;
            Ok(Some(left))
        }
        (Some(way), None) => Ok(Some(way)),
        (None, Some(way)) => Ok(Some(way)),
        (None, None) => Ok(next_asked(terrain.roots, masks, rows, waits, follow)),
    }
}

/// Makes the rows longer where they have no place for a row behind the one at this place. False where there is no row there.
// out of line: it is seldom called
#[inline(never)]
fn make_row(rows: &mut Vec<u64>, row: usize, width: usize) -> Result<bool, Memory>
    ensures { IfOk result (HasRoomFor rows.old.items row width rows.new.items) }
{
    let count = rows.len();
    if count < width || count - width < row {
        return Ok(false);
    }
    if count - width - row < width {
        rows.resize(row + width + width, 0)?;
    }
    Ok(true)
}

/// Whether the rows have a place for a row behind the one at this place.
#[inline(always)]
fn has_place(rows: &[u64], row: usize, width: usize) -> bool
    ensures { IsTrue result ↔ (row + width + width ≤ length rows.now) }
{
    row <= rows.len() && width <= (rows.len() - row) / 2
}

/// The same of rows that may be made longer. False where there is no row at this place.
#[inline(always)]
fn has_room(rows: &mut Vec<u64>, row: usize, width: usize) -> Result<bool, Memory>
    ensures { IfOk result (HasRoomFor rows.old.items row width rows.new.items) }
{
    if has_place(rows.as_slice(), row, width) {
        return Ok(true);
    }
    make_row(rows, row, width)
}

/// Where the row behind the half-edge is: behind a gate it is put behind the one before, elsewhere it is that one. None
/// where there is no row before.
#[inline(always)]
fn pass(
    masks: &Masks<'_>,
    rows: &mut Vec<u64>,
    row: usize,
    edge: u32,
) -> Result<Option<usize>, Memory>
    ensures { IfOk result (λ at. HasPassedTo (rows_of masks.now) rows.old.items row edge rows.new.items at) }
{
    let Some(place) = place_of(masks, edge) else {
        return Ok(Some(row));
    };
    if !has_room(rows, row, masks.width)? {
        return Ok(None);
    }
    let mask = part(masks.words, place as usize, masks.width);
    put_both(rows.as_mut_slice(), row, masks.width, mask);
    Ok(Some(row + masks.width))
}

/// Whether the row has the sector, where there is one.
#[inline(always)]
fn holds(row: &[u64], sector: Option<u16>) -> bool
    ensures { is_away row.now sector ≡ not result }
{
    match sector {
        Some(sector) => has(row, sector),
        None => false,
    }
}

/// Whether an open node answers for the half-edge that is asked: it goes through it, and enters no sector that the row still has.
/// The next half-edge is asked then. False also where there is no room on the path.
#[inline(always)]
pub fn answer_open(
    terrain: &Terrain<'_>,
    masks: &Masks<'_>,
    source: u16,
    path: &mut [Frame],
    rows: &mut Vec<u64>,
    waits: &mut Vec<Wait>,
    follow: &mut RowFollow,
    near: &mut usize,
) -> Result<bool, Memory>
    ensures answered { (first : List ℕ) → IfOk result (λ yes. yes ≡ true → HasAnswered terrain.now.edges.now (rows_of masks.now) source first terrain.now.roots.now.roots.items Open path.old rows.old.items waits.old.items follow.old path.new rows.new.items waits.new.items follow.new) }
    ensures refused { (first : List ℕ) → IfOk result (λ yes. yes ≡ false → follow.old.depth < length path.old → HasRefused terrain.now.edges.now (rows_of masks.now) source first terrain.now.roots.now.roots.items Open path.old rows.old.items waits.old.items follow.old) }
{
    let Some(place) = follow.asked else {
        return Ok(false);
    };
    let Some(edge) = terrain.edges.get(place) else {
        return Ok(false);
    };
    if !put(path, follow.depth, edge) {
        return Ok(false);
    }
    let Some(row) = pass(masks, rows, follow.row, place)? else {
        return Ok(false);
    };
    if holds(part(rows, row, masks.width), edge.sector) {
        return Ok(false);
    }
    follow.depth += 1;
    follow.row = row;
    follow.asked = enter(terrain, masks, source, rows, waits, follow, edge, near)?;
    Ok(true)
}

/// Goes through the half-edge that is asked, this one, where an open node answers for it: nothing of that is tested here. The
/// next half-edge is asked then. False where there is no room on the path, or no row.
#[inline(always)]
pub fn go_through(
    terrain: &Terrain<'_>,
    masks: &Masks<'_>,
    source: u16,
    path: &mut [Frame],
    rows: &mut Vec<u64>,
    waits: &mut Vec<Wait>,
    follow: &mut RowFollow,
    near: &mut usize,
    number: u32,
    edge: &HalfEdge,
) -> Result<bool, Memory>
    requires asked { follow.old.asked ≡ Given number }
    requires there { slice_get terrain.now.edges.now number ≡ Given edge.now }
    requires away { is_away (row_behind (rows_of masks.now) rows.old.items follow.old.row number) edge.now.sector ≡ true }
    ensures answered { (first : List ℕ) → IfOk result (λ yes. yes ≡ true → HasAnswered terrain.now.edges.now (rows_of masks.now) source first terrain.now.roots.now.roots.items Open path.old rows.old.items waits.old.items follow.old path.new rows.new.items waits.new.items follow.new) }
    ensures room { IfOk result (λ yes. follow.old.depth < length path.old → follow.old.row + masks.now.width ≤ length rows.old.items → yes ≡ true) }
{
    if !put(path, follow.depth, edge) {
        return Ok(false);
    }
    let Some(row) = pass(masks, rows, follow.row, number)? else {
        return Ok(false);
    };
    follow.depth += 1;
    follow.row = row;
    follow.asked = enter(terrain, masks, source, rows, waits, follow, edge, near)?;
    Ok(true)
}

/// Whether the ends of a blocked node show that no line passes the sequence through the half-edge that is asked; then the next
/// one is. False also where there is no room on the path.
#[inline(always)]
pub fn answer_blocked(
    terrain: &Terrain<'_>,
    masks: &Masks<'_>,
    path: &mut [Frame],
    rows: &[u64],
    waits: &mut Vec<Wait>,
    follow: &mut RowFollow,
    evidence: Evidence,
) -> bool
    ensures answered { (source : ℕ) (first : List ℕ) → IsTrue result → HasAnswered terrain.now.edges.now (rows_of masks.now) source first terrain.now.roots.now.roots.items (Blocked evidence) path.old rows.now waits.old.items follow.old path.new rows.now waits.new.items follow.new }
    ensures refused { (source : ℕ) (first : List ℕ) → result ≡ false → follow.old.depth < length path.old → HasRefused terrain.now.edges.now (rows_of masks.now) source first terrain.now.roots.now.roots.items (Blocked evidence) path.old rows.now waits.old.items follow.old }
{
    let Some(place) = follow.asked else {
        return false;
    };
    let Some(edge) = terrain.edges.get(place) else {
        return false;
    };
    if !put(path, follow.depth, edge) {
        return false;
    }
    if !is_blocked(&path[..=follow.depth], evidence) {
        return false;
    }
    follow.asked = next_asked(terrain.roots, masks, rows, waits, follow);
    true
}

/// Whether the node answers for the half-edge that is asked: it goes through it and enters no sector that the row still
/// has, or its ends show that no line passes the sequence through it. The next half-edge is asked then. False also
/// where there is no room on the path.
#[inline(always)]
pub fn answer(
    terrain: &Terrain<'_>,
    masks: &Masks<'_>,
    source: u16,
    path: &mut [Frame],
    rows: &mut Vec<u64>,
    waits: &mut Vec<Wait>,
    follow: &mut RowFollow,
    near: &mut usize,
    node: Node,
) -> Result<bool, Memory>
    ensures answered { (first : List ℕ) → IfOk result (λ yes. yes ≡ true → HasAnswered terrain.now.edges.now (rows_of masks.now) source first terrain.now.roots.now.roots.items node path.old rows.old.items waits.old.items follow.old path.new rows.new.items waits.new.items follow.new) }
    ensures refused { (first : List ℕ) → IfOk result (λ yes. yes ≡ false → follow.old.depth < length path.old → HasRefused terrain.now.edges.now (rows_of masks.now) source first terrain.now.roots.now.roots.items node path.old rows.old.items waits.old.items follow.old) }
{
    match node {
        Node::Open => answer_open(terrain, masks, source, path, rows, waits, follow, near),
        Node::Blocked(evidence) => Ok(answer_blocked(
            terrain,
            masks,
            path,
            rows.as_slice(),
            waits,
            follow,
            evidence,
        )),
    }
}

/// A walk of the source before its first root.
pub fn start(
    terrain: &Terrain<'_>,
    masks: &Masks<'_>,
    source: u16,
    rows: &[u64],
    waits: &mut Vec<Wait>,
) -> RowFollow
    ensures { (first : List ℕ) (path : List Frame) → StandsBefore (rows_of masks.now) first terrain.now.roots.now.roots.items (first_at terrain.now.roots.now.first.items source) path rows.now waits.new.items result }
{
    waits.clear();
    let mut follow = RowFollow {
        depth: 0,
        row: 0,
        root: terrain.roots.first_of(source),
        asked: None,
    };
    follow.asked = next_asked(terrain.roots, masks, rows, waits, &mut follow);
    follow
}
