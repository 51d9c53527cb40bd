//! Trees judged in one pass: each node is asked of the walk at its place.

ghost use Rattle.std.specs.Prelude.{◌≡◌, ◌+◌, ◌≤◌, ◌<◌, ◌↔◌, [], ◌∷◌, List, false, IsTrue, IfNone, IfSome, IfOk, length, take};
ghost use Rattle.sight_names.specs.Splitting.{end_of as end_at};
ghost use Rattle.block_evidence.specs.Stuck.{BlocksEnds};
ghost use Rattle.block_evidence.specs.declared.Evidence.{Evidence as EvidenceOf};
ghost use Rattle.cert_checker.specs.TreeJudge.Path.{list_of, path_ends, edge_ends, longest_of, IsEndWithCode, AreStuckEnds, AsksRoot, Pending, IsWaiting, WaitsBehind, PutsAt, EntersThrough, TakesNext};
ghost use Rattle.block_evidence.specs.declared.sight_tree.Node.TheVariants.{Open, Blocked};
ghost use Rattle.reject_bits.specs.Parts.{TableParts};
ghost use Rattle.cert_checker.specs.TreeJudge.Roots.{first_at};
ghost use Rattle.cert_checker.specs.TreeJudge.Whole.{Notes, HasAnswered, HasRefused, StandsBefore, IsWholeFrom, IsFirstWrongFrom};

use crate::tree_judge::roots::Roots;
use block_evidence::sight_tree::{Node, Tree};
use block_evidence::{Evidence, are_stuck, stuck};
use mesh_shape::half_edges::{HalfEdge, HalfEdges};
use reject_bits::Table;
use sight_names::{EndAt, Memory, Pt, RIGHT_END};
use std::alloc::Global;

const ORIGIN: Pt = Pt { x: 0, y: 0 };

/// A portal on the way to the present node: its ends.
#[derive(Clone, Copy)]
pub struct Frame {
    pub left: Pt,
    pub right: Pt,
}

/// What stands at the place of a portal behind which both ways lead on, the left one being taken: the right one, which waits,
/// and how many portals lead to the portal before it whose right way waits; 0 where there is none.
#[derive(Clone, Copy)]
pub struct Wait {
    pub way: u32,
    pub before: usize,
}

/// The mesh as a walk needs it.
#[derive(Clone, Copy)]
pub struct Terrain<'a> {
    pub edges: &'a HalfEdges,
    pub roots: &'a Roots,
}

/// The portal at a place of the path that no walk has come to.
fn blank() -> Frame {
    Frame {
        left: ORIGIN,
        right: ORIGIN,
    }
}

/// What stands at the place of a portal that no right way waits behind.
fn no_wait() -> Wait {
    Wait { way: 0, before: 0 }
}

/// The path buffer, for trees of at most so many nodes.
pub fn path_of(alloc: Global, trees: &[Tree]) -> Result<Vec<Frame>, Memory>
    ensures { IfOk result (λ v. length v.items ≡ longest_of trees.now) }
{
    let mut longest: usize = 0;
    for tree in trees {
        longest = longest.max(tree.nodes.len());
    }
    Ok(vec![in alloc; blank(); longest]?)
}

/// The buffer of the ways that wait, for a path of so many portals.
pub fn waits_of(alloc: Global, count: usize) -> Result<Vec<Wait>, Memory>
    ensures { IfOk result (λ v. length v.items ≡ count) }
{
    Ok(vec![in alloc; no_wait(); count]?)
}

/// Makes the path longer by a place where it has none behind the open portals.
pub fn make_room(path: &mut Vec<Frame>, depth: usize) -> Result<(), Memory>
    ensures room { depth ≤ length path.old.items → IfOk result (λ _. depth < length path.new.items) }
    ensures kept { depth ≤ length path.old.items → IfOk result (λ _. take depth path.new.items ≡ take depth path.old.items) }
{
    if depth >= path.len() {
        path.push(blank())?;
    }
    Ok(())
}

/// The same of the ways that wait.
pub fn make_wait(waits: &mut Vec<Wait>, depth: usize) -> Result<(), Memory>
    ensures room { depth ≤ length waits.old.items → IfOk result (λ _. depth < length waits.new.items) }
    ensures kept { depth ≤ length waits.old.items → IfOk result (λ _. take depth waits.new.items ≡ take depth waits.old.items) }
{
    if depth >= waits.len() {
        waits.push(no_wait())?;
    }
    Ok(())
}

/// The end with this code: of the portal at its place.
fn end_of(path: &[Frame], code: u16) -> Option<EndAt>
    ensures { result ≡ end_at (path_ends path.now) code }
{
    let frame = path.get((code % RIGHT_END) as usize)?;
    let at = if code < RIGHT_END {
        frame.left
    } else {
        frame.right
    };
    Some(EndAt { code, at })
}

/// The point.
// its coordinates one by one: a point in one piece would be taken apart again. It is read as a whole for the proof alone, which
// has the ranges of its coordinates from there
#[inline(always)]
fn point_of(point: &Pt) -> Pt
    ensures { result ≡ point.now }
{
    let _whole = *point;
    Pt {
        x: point.x,
        y: point.y,
    }
}

/// The left end of the portal at this place.
// the code is seen to be a left end's
#[inline(always)]
fn left_at(path: &[Frame], place: u16) -> EndAt
    requires within { place < length path.now }
    requires few { length path.now ≤ RIGHT_END }
    ensures { end_at (path_ends path.now) place ≡ Some result }
{
    EndAt {
        code: place % RIGHT_END,
        at: point_of(&path[place as usize].left),
    }
}

/// The right end with this code.
#[inline(always)]
fn right_at(path: &[Frame], code: u16) -> EndAt
    requires right { RIGHT_END ≤ code }
    requires within { code < RIGHT_END + length path.now }
    ensures { end_at (path_ends path.now) code ≡ Some result }
{
    let place = code - RIGHT_END;
    EndAt {
        code: RIGHT_END + place % RIGHT_END,
        at: point_of(&path[place as usize].right),
    }
}

/// Whether three left ends and a right one, by ascending codes, are seen at once to be stuck. `false` says nothing.
#[inline(always)]
fn are_three_and_one(path: &[Frame], a: u16, b: u16, c: u16, d: u16) -> bool
    requires few { length path.now ≤ RIGHT_END }
    requires left { c < length path.now }
    requires first { a < b }
    requires second { b < c }
    requires right { RIGHT_END ≤ d }
    requires last { d < RIGHT_END + length path.now }
    ensures { IsTrue result → AreStuckEnds (path_ends path.now) a b c d }
{
    let (p, q, r) = (left_at(path, a), left_at(path, b), left_at(path, c));
    are_stuck(p, q, r, right_at(path, d))
}

/// The same of two left ends and two right ones.
#[inline(always)]
fn are_two_and_two(path: &[Frame], a: u16, b: u16, c: u16, d: u16) -> bool
    requires few { length path.now ≤ RIGHT_END }
    requires left { b < length path.now }
    requires first { a < b }
    requires right { RIGHT_END ≤ c }
    requires third { c < d }
    requires last { d < RIGHT_END + length path.now }
    ensures { IsTrue result → AreStuckEnds (path_ends path.now) a b c d }
{
    let (p, q) = (left_at(path, a), left_at(path, b));
    are_stuck(p, q, right_at(path, c), right_at(path, d))
}

/// The same of a left end and three right ones.
#[inline(always)]
fn are_one_and_three(path: &[Frame], a: u16, b: u16, c: u16, d: u16) -> bool
    requires few { length path.now ≤ RIGHT_END }
    requires left { a < length path.now }
    requires right { RIGHT_END ≤ b }
    requires second { b < c }
    requires third { c < d }
    requires last { d < RIGHT_END + length path.now }
    ensures { IsTrue result → AreStuckEnds (path_ends path.now) a b c d }
{
    let (q, r, s) = (right_at(path, b), right_at(path, c), right_at(path, d));
    are_stuck(left_at(path, a), q, r, s)
}

/// Whether the ends are four ends of these portals that are seen at once to be stuck. `false` says nothing.
// the greatest code of either side is looked up alone: codes ascend, which whoever read them has found just before
#[inline(always)]
pub fn is_seen_blocked(path: &[Frame], evidence: Evidence) -> bool
    requires { length path.now ≤ RIGHT_END }
    ensures { IsTrue result → BlocksEnds (path_ends path.now) evidence }
{
    let [a, b, c, d] = evidence.ends;
    if evidence.count != 4 || a >= b || b >= c || c >= d {
        return false;
    }
    let last = d.wrapping_sub(RIGHT_END);
    if last as usize >= path.len() {
        return false;
    }
    if (b as usize) < path.len() {
        if (c as usize) < path.len() {
            return are_three_and_one(path, a, b, c, d);
        }
        if c < RIGHT_END {
            return false;
        }
        return are_two_and_two(path, a, b, c, d);
    }
    if b < RIGHT_END || a as usize >= path.len() {
        return false;
    }
    are_one_and_three(path, a, b, c, d)
}

/// Whether the ends are ends of these portals, and stuck.
fn is_shown_blocked(path: &[Frame], evidence: Evidence) -> bool
    ensures { IsTrue result ↔ BlocksEnds (path_ends path.now) evidence }
{
    let mut ends = [EndAt {
        code: 0,
        at: ORIGIN,
    }; 4];
    let count = (evidence.count as usize).min(4);
    for i in 0..count {
        match end_of(path, evidence.ends[i]) {
            Some(end) => ends[i] = end,
            None => return false,
        }
    }
    stuck(&ends[..count])
}

/// The same of evidence in its parts.
// out of line, and by its parts: whole evidence would be put into memory for it at each blocked node
#[inline(never)]
pub fn are_shown_blocked(path: &[Frame], count: u8, a: u16, b: u16, c: u16, d: u16) -> bool
    ensures { (e : EvidenceOf) → e.count ≡ count → e.ends ≡ a ∷ b ∷ c ∷ d ∷ [] → IsTrue result ↔ BlocksEnds (path_ends path.now) e }
{
    let ends = [a, b, c, d];
    is_shown_blocked(path, Evidence { count, ends })
}

/// The same of evidence; most often it is seen at once.
#[inline(always)]
pub fn is_blocked(path: &[Frame], evidence: Evidence) -> bool
    ensures { IsTrue result ↔ BlocksEnds (path_ends path.now) evidence }
{
    let [a, b, c, d] = evidence.ends;
    (path.len() <= RIGHT_END as usize && is_seen_blocked(path, evidence))
        || are_shown_blocked(path, evidence.count, a, b, c, d)
}

/// Puts the portal of this half-edge behind the open ones, and says whether there was room.
#[inline(always)]
pub fn put(path: &mut [Frame], depth: usize, edge: &HalfEdge) -> bool
    ensures room { IsTrue result ↔ (depth < length path.old) }
    ensures put { IsTrue result → PutsAt path.old depth (edge_ends edge.now) path.new }
{
    if depth >= path.len() {
        return false;
    }
    path[depth] = Frame {
        left: edge.left_at,
        right: edge.right_at,
    };
    true
}

/// A walk that follows a tree.
#[derive(Clone, Copy)]
pub struct Follow {
    /// How many open nodes lead to the present one.
    pub depth: usize,
    /// The place of the next root.
    pub root: Option<usize>,
    /// The half-edge that is asked now.
    pub asked: Option<u32>,
    /// How many portals lead to the last one whose right way is still to come; 0 where there is none.
    pub waiting: usize,
}

/// The half-edge of the root at this place, and the place of the next one.
// out of line, where few nodes lead: what it needs would else take registers at each node
#[inline(never)]
fn next_root(roots: &Roots, root: Option<usize>) -> (Option<u32>, Option<usize>)
    ensures { AsksRoot roots.now.roots.items root result.0 result.1 }
{
    match roots.root(root) {
        Some(found) => (Some(found.edge), found.next),
        None => (None, root),
    }
}

/// The last way that waits, where so many portals lead to the one that it is behind.
#[inline(always)]
#[tactic(auto, using(crate::proofs::TreeJudge::Ways::none_waits, crate::proofs::TreeJudge::Ways::none_stands, crate::proofs::TreeJudge::Ways::none_leads))]
fn last_waiting(path: &[Frame], waits: &[Wait], waiting: usize) -> Option<Wait>
    ensures some { IfSome result (λ w. WaitsBehind waits.now waiting w) }
    ensures within { IfSome result (λ _. waiting ≤ length path.now) }
    ensures none { IfNone result ((ws : List Pending) → IsWaiting path.now waits.now waiting ws → ws ≡ []) }
{
    // 0 becomes the greatest number: so one test tells whether there is a way, and whether its place is there
    let place = waiting.wrapping_sub(1);
    if place >= path.len() || place >= waits.len() {
        return None;
    }
    Some(waits[place])
}

/// The half-edge that is asked next: the last way that waits, or else the next root.
#[inline(always)]
pub fn next_asked(roots: &Roots, path: &[Frame], waits: &[Wait], follow: &mut Follow) -> Option<u32>
    ensures within { follow.new.depth ≤ length path.now }
    ensures room { follow.new.depth ≤ length waits.now }
    ensures next { TakesNext roots.now.roots.items path.now waits.now follow.old follow.new result }
{
    match last_waiting(path, waits, follow.waiting) {
        Some(wait) => {
            follow.depth = follow.waiting;
            follow.waiting = wait.before;
            Some(wait.way)
        }
        None => {
            let (asked, next) = next_root(roots, follow.root);
            follow.depth = 0;
            follow.waiting = 0;
            follow.root = next;
            asked
        }
    }
}

/// Goes through the half-edge whose portal was put last, and gives what is asked next: its left way, its right way, or what comes
/// behind both. Where both ways lead out of the source, the right one waits.
// each outcome returns on its own: else what one look-up gave is kept as a flag while the other is made
#[inline(always)]
fn enter(
    terrain: &Terrain<'_>,
    source: u16,
    path: &[Frame],
    waits: &mut [Wait],
    follow: &mut Follow,
    edge: &HalfEdge,
) -> Option<u32>
    requires path { follow.old.depth < length path.now }
    requires waits { follow.old.depth < length waits.old }
    ensures within { follow.new.depth ≤ length path.now }
    ensures room { follow.new.depth ≤ length waits.new }
    ensures enters { EntersThrough terrain.now.edges.now terrain.now.roots.now.roots.items source path.now waits.old follow.old edge.now waits.new follow.new result }
{
    let Some(left) = terrain.edges.outside(edge.left_way, source) else {
        let Some(right) = terrain.edges.outside(edge.right_way, source) else {
            return next_asked(terrain.roots, path, waits, follow);
        };
        follow.depth += 1;
        return Some(right);
    };
    let Some(right) = terrain.edges.outside(edge.right_way, source) else {
        follow.depth += 1;
        return Some(left);
    };
    waits[follow.depth] = Wait {
        way: right,
        before: follow.waiting,
    };
    follow.depth += 1;
    follow.waiting = follow.depth;
    Some(left)
}

/// Notes that the source reaches the sector, where there is one.
#[inline(always)]
pub fn note(reached: &mut Table, source: u16, sector: Option<u16>)
    ensures { Notes source (list_of sector) reached.old reached.new }
{
    let Some(sector) = sector else {
        return;
    };
    let count = reached.sectors();
    if source < count && sector < count {
        reached.set(source, sector);
    }
}

/// Whether an open node answers for the half-edge that is asked: then it goes through it, the source reaches the sector
/// behind it, and the next half-edge is asked. False also where there is no room on the path.
#[inline(always)]
pub fn answer_open(
    terrain: &Terrain<'_>,
    reached: &mut Table,
    source: u16,
    path: &mut [Frame],
    waits: &mut [Wait],
    follow: &mut Follow,
) -> bool
    ensures within { follow.old.depth ≤ length path.old → follow.new.depth ≤ length path.new }
    ensures room { follow.old.depth ≤ length waits.old → follow.new.depth ≤ length waits.new }
    ensures sectors { reached.new.n ≡ reached.old.n }
    ensures answered { IsTrue result → HasAnswered terrain.now.edges.now terrain.now.roots.now.roots.items source Open path.old waits.old follow.old reached.old path.new waits.new follow.new reached.new }
    ensures refused { result ≡ false → follow.old.depth < length path.old → follow.old.depth < length waits.old → HasRefused terrain.now.edges.now terrain.now.roots.now.roots.items source Open path.old waits.old follow.old }
{
    let Some(place) = follow.asked else {
        return false;
    };
    let Some(edge) = terrain.edges.get(place) else {
        return false;
    };
    if !put(path, follow.depth, edge) {
        return false;
    }
    if follow.depth >= waits.len() {
        return false;
    }
    note(reached, source, edge.sector);
    follow.asked = enter(terrain, source, path, waits, follow, edge);
    true
}

/// Whether the ends of a blocked node show that no line passes the sequence through the half-edge that is asked; then the
/// next one is. False also where there is no room on the path.
#[inline(always)]
pub fn answer_blocked(
    terrain: &Terrain<'_>,
    source: u16,
    path: &mut [Frame],
    waits: &[Wait],
    follow: &mut Follow,
    evidence: Evidence,
) -> bool
    ensures within { follow.old.depth ≤ length path.old → follow.new.depth ≤ length path.new }
    ensures room { follow.old.depth ≤ length waits.now → follow.new.depth ≤ length waits.now }
    ensures answered { IsTrue result → (t : TableParts) → HasAnswered terrain.now.edges.now terrain.now.roots.now.roots.items source (Blocked evidence) path.old waits.now follow.old t path.new waits.now follow.new t }
    ensures refused { result ≡ false → follow.old.depth < length path.old → follow.old.depth < length waits.now → HasRefused terrain.now.edges.now terrain.now.roots.now.roots.items source (Blocked evidence) path.old waits.now follow.old }
{
    let Some(place) = follow.asked else {
        return false;
    };
    let Some(edge) = terrain.edges.get(place) else {
        return false;
    };
    if !put(path, follow.depth, edge) {
        return false;
    }
    if !is_blocked(&path[..=follow.depth], evidence) {
        return false;
    }
    follow.asked = next_asked(terrain.roots, path, waits, follow);
    true
}

/// Whether the node answers for the half-edge that is asked: it goes through it, and the source reaches the sector behind it; or
/// its ends show that no line passes the sequence through it. The next half-edge is asked then. False also where there is no
/// room on the path.
// each kind of node has the steps that both take on its own: so what the bytes tell is asked once, and no node is put together
#[inline(always)]
pub fn answer(
    terrain: &Terrain<'_>,
    reached: &mut Table,
    source: u16,
    path: &mut [Frame],
    waits: &mut [Wait],
    follow: &mut Follow,
    node: Node,
) -> bool
    ensures within { follow.old.depth ≤ length path.old → follow.new.depth ≤ length path.new }
    ensures room { follow.old.depth ≤ length waits.old → follow.new.depth ≤ length waits.new }
    ensures sectors { reached.new.n ≡ reached.old.n }
    ensures answered { IsTrue result → HasAnswered terrain.now.edges.now terrain.now.roots.now.roots.items source node path.old waits.old follow.old reached.old path.new waits.new follow.new reached.new }
    ensures refused { result ≡ false → follow.old.depth < length path.old → follow.old.depth < length waits.old → HasRefused terrain.now.edges.now terrain.now.roots.now.roots.items source node path.old waits.old follow.old }
{
    match node {
        Node::Open => answer_open(terrain, reached, source, path, waits, follow),
        Node::Blocked(evidence) => {
            answer_blocked(terrain, source, path, waits, follow, evidence)
        }
    }
}

/// A walk of the source before its first root.
pub fn start(terrain: &Terrain<'_>, source: u16, path: &[Frame], waits: &[Wait]) -> Follow
    ensures depth { result.depth ≡ 0 }
    ensures stands { StandsBefore terrain.now.roots.now.roots.items (first_at terrain.now.roots.now.first.items source) path.now waits.now result }
{
    let mut follow = Follow {
        depth: 0,
        root: terrain.roots.first_of(source),
        asked: None,
        waiting: 0,
    };
    follow.asked = next_asked(terrain.roots, path, waits, &mut follow);
    follow
}

/// The least node of the tree that is missing, superfluous, or blocked by ends that aren't ends of its sequence or
/// aren't stuck. The sectors that its open nodes reach are noted.
pub fn first_wrong(
    terrain: &Terrain<'_>,
    path: &mut [Frame],
    waits: &mut [Wait],
    reached: &mut Table,
    tree: &Tree,
) -> Option<u64>
    ensures sectors { reached.new.n ≡ reached.old.n }
    ensures whole { IfNone result (IsWholeFrom terrain.now.edges.now terrain.now.roots.now.roots.items (first_at terrain.now.roots.now.first.items tree.now.source) tree.now reached.old reached.new) }
    ensures wrong { length tree.now.nodes ≤ length path.old → length tree.now.nodes ≤ length waits.old → IfSome result (IsFirstWrongFrom terrain.now.edges.now terrain.now.roots.now.roots.items (first_at terrain.now.roots.now.first.items tree.now.source) tree.now) }
{
    let mut follow = start(terrain, tree.source, path, waits);
    let count = tree.nodes.len();
    for (number, node) in tree.nodes.iter().enumerate() {
        if !answer(
            terrain,
            reached,
            tree.source,
            path,
            waits,
            &mut follow,
            node,
        ) {
            return Some(number as u64);
        }
    }
    if follow.asked.is_some() {
        return Some(count as u64);
    }
    None
}
