//! A walk with a row that is asked node by node.

ghost use Rattle.std.specs.Prelude.{◌≡◌, ◌+◌, ◌≤◌, ℕ, List, Some as Given, length, slice_get, true, false, IfOk};
ghost use Rattle.block_evidence.specs.declared.sight_tree.Node.TheVariants.{Open};
ghost use Rattle.block_evidence.specs.declared.sight_tree.Tree.{Tree as WalkTree};
ghost use Rattle.cert_checker.specs.TreeJudge.Walked.{begun, with_node};
ghost use Rattle.gate_floods.specs.RowJudge.Masks.{rows_of};
ghost use Rattle.gate_floods.specs.RowJudge.Asked.{AnswersFirstInRow, Pending, row_behind};
ghost use Rattle.gate_floods.specs.RowJudge.Words.{is_away};
ghost use Rattle.certificates.specs.CertParts.Nodes.{TakesNodes};
ghost use Rattle.gate_floods.specs.RowJudge.Judged.{AsksNothing, FollowsNodesInRow, FollowsAt, IsFirstWrongFrom, IsTreeWalkedInRow, IsWholeFrom, StandsAt};

use crate::row_judge::follow::{
    RowFollow, Wait, answer, answer_blocked, answer_open, go_through, start,
};
use crate::row_judge::masks::Masks;
use block_evidence::sight_tree::{Node, Tree};
use cert_checker::tree_judge::{Frame, Terrain, make_room};
use certificates::cert_parts::usual_node;
use mesh_shape::half_edges::HalfEdge;
use sight_names::Memory;
use std::alloc::Global;

/// A walk of a source whose nodes come one by one. Its path grows with its depth, and its rows with the gates on the
/// path.
#[derive(Drop)]
pub struct RowWalk {
    pub source: u16,
    pub path: Vec<Frame>,
    pub rows: Vec<u64>,
    pub waits: Vec<Wait>,
    pub follow: RowFollow,
    /// The word in which a row and a mask met last.
    pub near: usize,
}

/// Puts the row in place of all rows.
fn put_first(rows: &mut Vec<u64>, row: &[u64]) -> Result<(), Memory>
    ensures { IfOk result (λ _. rows.new.items ≡ row.now) }
{
    rows.clear();
    rows.extend_from_slice(row)?;
    Ok(())
}

/// What comes of nodes that a walk has followed: the bytes behind them, how many are left, and whether the last one is wrong.
#[derive(Clone, Copy)]
pub struct Followed<'a> {
    pub rest: &'a [u8],
    pub left: u64,
    pub wrong: bool,
}

/// Follows the usual nodes that come first in the bytes, of so many that are to come, up to the first wrong one and as far as
/// the path has room.
// the walk stands in locals here, and all that it calls is in line. The first wrong node is told at once: a flag would be asked
// for at each. Out of line itself: its registers are its own
#[inline(never)]
fn follow_nodes<'a>(
    terrain: &Terrain<'_>,
    masks: &Masks<'_>,
    source: u16,
    path: &mut [Frame],
    rows: &mut Vec<u64>,
    waits: &mut Vec<Wait>,
    follow: &mut RowFollow,
    bytes: &'a [u8],
    count: u64,
) -> Result<Followed<'a>, Memory>
    ensures { IfOk result (λ f. TakesNodes bytes.now count f.rest.now f.left (FollowsAt terrain.now.edges.now (rows_of masks.now) terrain.now.roots.now.roots.items terrain.now.roots.now.first.items source path.old rows.old.items waits.old.items follow.old path.new rows.new.items waits.new.items follow.new f.wrong)) }
{
    let mut at = *follow;
    let mut rest = bytes;
    let mut left = count;
    let mut near = 0;
    'rest: while left > 0 && at.depth < path.len() {
        let Some((node, behind)) = usual_node(rest) else {
            break;
        };
        rest = behind;
        left -= 1;
        let answers = match node {
            Node::Open => answer_open(
                terrain, masks, source, path, rows, waits, &mut at, &mut near,
            )?,
            Node::Blocked(evidence) => answer_blocked(
                terrain,
                masks,
                path,
                rows.as_slice(),
                waits,
                &mut at,
                evidence,
            ),
        };
        if !answers {
            *follow = at;
            return Ok(Followed {
                rest,
                left,
                wrong: true,
            });
        }
    }
    *follow = at;
    Ok(Followed {
        rest,
        left,
        wrong: false,
    })
}

impl RowWalk {
    /// A walk that asks for nothing.
    pub fn new(alloc: Global) -> RowWalk
        ensures { AsksNothing result }
    {
        RowWalk {
            source: 0,
            path: Vec::new(alloc),
            rows: Vec::new(alloc),
            waits: Vec::new(alloc),
            follow: RowFollow {
                depth: 0,
                row: 0,
                root: None,
                asked: None,
            },
            near: 0,
        }
    }

    /// Goes back before the first root, now of this source, with this row, which is as long as the masks.
    pub fn begin(
        &mut self,
        terrain: &Terrain<'_>,
        masks: &Masks<'_>,
        source: u16,
        row: &[u64],
    ) -> Result<(), Memory>
        requires { length row.now ≡ masks.now.width }
        ensures { IfOk result (λ _. IsTreeWalkedInRow terrain.now.edges.now (rows_of masks.now) row.now terrain.now.roots.now.roots.items terrain.now.roots.now.first.items (begun source) self.new) }
    {
        put_first(&mut self.rows, row)?;
        self.source = source;
        self.follow = start(
            terrain,
            masks,
            source,
            self.rows.as_slice(),
            &mut self.waits,
        );
        Ok(())
    }

    /// Whether the node answers for what is asked; then the walk stands behind it. A node that answers isn't refused.
    #[inline(always)]
    pub fn step(
        &mut self,
        terrain: &Terrain<'_>,
        masks: &Masks<'_>,
        node: Node,
    ) -> Result<bool, Memory>
        ensures answered { (row : List ℕ) (t : WalkTree) → IsTreeWalkedInRow terrain.now.edges.now (rows_of masks.now) row terrain.now.roots.now.roots.items terrain.now.roots.now.first.items t self.old → IfOk result (λ yes. yes ≡ true → IsTreeWalkedInRow terrain.now.edges.now (rows_of masks.now) row terrain.now.roots.now.roots.items terrain.now.roots.now.first.items (with_node node t) self.new) }
        ensures refused { (row : List ℕ) (t : WalkTree) → IsTreeWalkedInRow terrain.now.edges.now (rows_of masks.now) row terrain.now.roots.now.roots.items terrain.now.roots.now.first.items t self.old → IfOk result (λ yes. yes ≡ false → IsFirstWrongFrom terrain.now.edges.now (rows_of masks.now) row terrain.now.roots.now.roots.items terrain.now.roots.now.first.items (with_node node t) (length t.nodes)) }
        ensures stands { (first : List ℕ) (ps qs : List Pending) → StandsAt (rows_of masks.now) first terrain.now.roots.now.roots.items self.old ps → AnswersFirstInRow terrain.now.edges.now (rows_of masks.now) self.old.source ps node qs → IfOk result (λ yes. (yes ≡ true) × StandsAt (rows_of masks.now) first terrain.now.roots.now.roots.items self.new qs) }
        ensures source { self.new.source ≡ self.old.source }
    {
        make_room(&mut self.path, self.follow.depth)?;
        answer(
            terrain,
            masks,
            self.source,
            self.path.as_mut_slice(),
            &mut self.rows,
            &mut self.waits,
            &mut self.follow,
            &mut self.near,
            node,
        )
    }

    /// Goes through the half-edge that is asked, this one, where an open node answers for it: nothing of that is tested anew.
    #[inline(always)]
    pub fn go(
        &mut self,
        terrain: &Terrain<'_>,
        masks: &Masks<'_>,
        number: u32,
        edge: &HalfEdge,
    ) -> Result<(), Memory>
        requires asked { self.old.follow.asked ≡ Given number }
        requires there { slice_get terrain.now.edges.now number ≡ Given edge.now }
        requires away { is_away (row_behind (rows_of masks.now) self.old.rows.items self.old.follow.row number) edge.now.sector ≡ true }
        requires room { self.old.follow.depth ≤ length self.old.path.items }
        requires row { self.old.follow.row + masks.now.width ≤ length self.old.rows.items }
        ensures answered { (row : List ℕ) (t : WalkTree) → IsTreeWalkedInRow terrain.now.edges.now (rows_of masks.now) row terrain.now.roots.now.roots.items terrain.now.roots.now.first.items t self.old → IfOk result (λ _. IsTreeWalkedInRow terrain.now.edges.now (rows_of masks.now) row terrain.now.roots.now.roots.items terrain.now.roots.now.first.items (with_node Open t) self.new) }
        ensures stands { (first : List ℕ) (ps qs : List Pending) → StandsAt (rows_of masks.now) first terrain.now.roots.now.roots.items self.old ps → AnswersFirstInRow terrain.now.edges.now (rows_of masks.now) self.old.source ps Open qs → IfOk result (λ _. StandsAt (rows_of masks.now) first terrain.now.roots.now.roots.items self.new qs) }
        ensures source { self.new.source ≡ self.old.source }
    {
        make_room(&mut self.path, self.follow.depth)?;
        let went = go_through(
            terrain,
            masks,
            self.source,
            self.path.as_mut_slice(),
            &mut self.rows,
            &mut self.waits,
            &mut self.follow,
            &mut self.near,
            number,
            edge,
        )?;
        if !went {
            unreachable!();
        }
        Ok(())
    }

    /// Follows the usual nodes that come first in the bytes, of so many that are to come, up to the first wrong one; others and
    /// those that find no room on the path are left to `step`.
    pub fn follow<'a>(
        &mut self,
        terrain: &Terrain<'_>,
        masks: &Masks<'_>,
        bytes: &'a [u8],
        count: u64,
    ) -> Result<Followed<'a>, Memory>
        ensures { IfOk result (λ f. TakesNodes bytes.now count f.rest.now f.left (FollowsNodesInRow terrain.now.edges.now (rows_of masks.now) terrain.now.roots.now.roots.items terrain.now.roots.now.first.items self.old self.new f.wrong)) }
    {
        follow_nodes(
            terrain,
            masks,
            self.source,
            self.path.as_mut_slice(),
            &mut self.rows,
            &mut self.waits,
            &mut self.follow,
            bytes,
            count,
        )
    }

    /// Whether nothing is asked any more.
    pub fn is_done(&self, terrain: &Terrain<'_>, masks: &Masks<'_>) -> bool
        ensures idle { AsksNothing self.now → result ≡ true }
        ensures whole { (row : List ℕ) (t : WalkTree) → IsTreeWalkedInRow terrain.now.edges.now (rows_of masks.now) row terrain.now.roots.now.roots.items terrain.now.roots.now.first.items t self.now → result ≡ true → IsWholeFrom terrain.now.edges.now (rows_of masks.now) row terrain.now.roots.now.roots.items terrain.now.roots.now.first.items t }
        ensures missing { (row : List ℕ) (t : WalkTree) → IsTreeWalkedInRow terrain.now.edges.now (rows_of masks.now) row terrain.now.roots.now.roots.items terrain.now.roots.now.first.items t self.now → result ≡ false → IsFirstWrongFrom terrain.now.edges.now (rows_of masks.now) row terrain.now.roots.now.roots.items terrain.now.roots.now.first.items t (length t.nodes) }
    {
        self.follow.asked.is_none()
    }
}
