//! A walk that is asked node by node, without the tree.

ghost use Rattle.std.specs.Prelude.{◌≡◌, ◌<◌, ◌≤◌, ℕ, List, Option, length, true, false, IfOk};
ghost use Rattle.reject_bits.specs.Parts.{TableParts};
ghost use Rattle.block_evidence.specs.declared.sight_tree.Tree.{Tree as WalkTree};
ghost use Rattle.mesh_shape.specs.declared.half_edges.table.HalfEdge.{HalfEdge as EdgeOf};
ghost use Rattle.cert_checker.specs.declared.tree_judge.roots.Root.{Root as RootOf};
ghost use Rattle.cert_checker.specs.TreeJudge.Roots.{first_at};
ghost use Rattle.sight_names.specs.declared.limits.TheConstants.{RIGHT_END};
ghost use Rattle.cert_checker.specs.TreeJudge.Steps.{AreSeenNoted, AreSteps};
ghost use Rattle.cert_checker.specs.declared.tree_judge.stepping.TheConstants.{NO_PLACE};
ghost use Rattle.cert_checker.specs.TreeJudge.Whole.{IsWholeFrom, IsFirstWrongFrom};
ghost use Rattle.certificates.specs.CertParts.Nodes.{TakesNodes};
ghost use Rattle.cert_checker.specs.TreeJudge.Walked.{begun, with_node, AsksNothing, FollowsAt, FollowsNodes, IsTreeWalked};

use crate::tree_judge::roots::Roots;
use crate::tree_judge::stepping::{
    NO_PLACE, asked_at, enter_step, is_shown, next_place, note_code, place_of, put_step,
};
use crate::tree_judge::steps::Step;
use crate::tree_judge::trees::{Follow, Frame, Terrain, Wait, answer, make_room, make_wait, start};
use block_evidence::sight_tree::Node;
use certificates::cert_parts::usual_node;
use reject_bits::Table;
use sight_names::{Memory, RIGHT_END};
use std::alloc::Global;

/// A walk of a source whose nodes come one by one. Its path grows with its depth.
#[derive(Drop)]
pub struct TreeWalk {
    source: u16,
    path: Vec<Frame>,
    waits: Vec<Wait>,
    follow: Follow,
}

/// What comes of nodes that a walk has followed: the bytes behind them, how many are left, and whether the last one is wrong.
#[derive(Clone, Copy)]
pub struct Followed<'a> {
    pub rest: &'a [u8],
    pub left: u64,
    pub wrong: bool,
}

/// Follows the usual nodes that come first in the bytes, of so many that are to come, up to the first wrong one, as far as
/// the path has room and something is asked.
// the walk stands in locals here, and all that a node mostly takes is in line: a certificate has millions of nodes. Out of line
// itself: its registers are its own
#[inline(never)]
fn follow_nodes<'a>(
    roots: &Roots,
    steps: &[Step],
    reached: &mut Table,
    seen: &mut [bool],
    source: u16,
    path: &mut [Frame],
    waits: &mut [Wait],
    follow: &mut Follow,
    bytes: &'a [u8],
    count: u64,
) -> Followed<'a>
    requires path { length path.old ≤ RIGHT_END }
    requires waits { length waits.old ≡ length path.old }
    requires steps { length steps.now ≤ NO_PLACE }
    requires seen { AreSeenNoted source seen.old reached.old }
    ensures { TakesNodes bytes.now count result.rest.now result.left (λ nodes. (result.wrong ≡ true → 0 < length nodes) × ((xs : List EdgeOf) → AreSteps xs steps.now → FollowsAt xs roots.now.roots.items roots.now.first.items source path.old waits.old follow.old reached.old path.new waits.new follow.new reached.new result.wrong nodes)) }
{
    let mut at = *follow;
    let mut asked = place_of(follow.asked);
    let mut rest = bytes;
    let mut left = count;
    // no node takes more than nine bytes
    'rest: while left > 0 && rest.len() >= 9 && at.depth < path.len() {
        let Some(step) = steps.get(asked) else {
            break;
        };
        let Some((node, behind)) = usual_node(rest) else {
            break;
        };
        rest = behind;
        left -= 1;
        // each kind puts the portal on its own: so no node is put together
        match node {
            Node::Open => {
                put_step(path, at.depth, step);
                note_code(reached, seen, source, step.sector);
                asked = enter_step(roots, source, path, waits, &mut at, step);
            }
            Node::Blocked(evidence) => {
                put_step(path, at.depth, step);
                if !is_shown(&path[..=at.depth], evidence) {
                    return Followed {
                        rest,
                        left,
                        wrong: true,
                    };
                }
                asked = next_place(roots, path, waits, &mut at);
            }
        }
    }
    at.asked = asked_at(asked);
    *follow = at;
    Followed {
        rest,
        left,
        wrong: false,
    }
}

impl TreeWalk {
    /// A walk that asks for nothing.
    pub fn new(alloc: Global) -> TreeWalk
        ensures { AsksNothing result }
    {
        TreeWalk {
            source: 0,
            path: Vec::new(alloc),
            waits: Vec::new(alloc),
            follow: Follow {
                depth: 0,
                root: None,
                asked: None,
                waiting: 0,
            },
        }
    }

    /// The source.
    pub fn source(&self) -> u16
        ensures { result ≡ self.now.source }
    {
        self.source
    }

    /// Goes back before the first root, now of this source.
    pub fn begin(&mut self, terrain: &Terrain<'_>, source: u16)
        ensures { (t : TableParts) → IsTreeWalked terrain.now.edges.now terrain.now.roots.now.roots.items terrain.now.roots.now.first.items (begun source) t t self.new }
    {
        self.source = source;
        self.follow = start(terrain, source, self.path.as_slice(), self.waits.as_slice());
    }

    /// Whether the node answers for what is asked; then the walk stands behind it, and what it enters is noted.
    #[inline(always)]
    pub fn step(
        &mut self,
        terrain: &Terrain<'_>,
        reached: &mut Table,
        node: Node,
    ) -> Result<bool, Memory>
        ensures answered { (t : WalkTree) (old : TableParts) → IsTreeWalked terrain.now.edges.now terrain.now.roots.now.roots.items terrain.now.roots.now.first.items t old reached.old self.old → IfOk result (λ yes. yes ≡ true → IsTreeWalked terrain.now.edges.now terrain.now.roots.now.roots.items terrain.now.roots.now.first.items (with_node node t) old reached.new self.new) }
        ensures refused { (t : WalkTree) (old : TableParts) → IsTreeWalked terrain.now.edges.now terrain.now.roots.now.roots.items terrain.now.roots.now.first.items t old reached.old self.old → IfOk result (λ yes. yes ≡ false → IsFirstWrongFrom terrain.now.edges.now terrain.now.roots.now.roots.items (first_at terrain.now.roots.now.first.items t.source) (with_node node t) (length t.nodes)) }
    {
        make_wait(&mut self.waits, self.follow.depth)?;
        make_room(&mut self.path, self.follow.depth)?;
        Ok(answer(
            terrain,
            reached,
            self.source,
            self.path.as_mut_slice(),
            self.waits.as_mut_slice(),
            &mut self.follow,
            node,
        ))
    }

    /// Follows the usual nodes that come first in the bytes, of so many that are to come, up to the first wrong one; others and
    /// those that find no room are left to `step`.
    pub fn follow<'a>(
        &mut self,
        roots: &Roots,
        steps: &[Step],
        reached: &mut Table,
        seen: &mut [bool],
        bytes: &'a [u8],
        count: u64,
    ) -> Followed<'a>
        ensures { TakesNodes bytes.now count result.rest.now result.left (λ nodes. (result.wrong ≡ true → 0 < length nodes) × ((xs : List EdgeOf) → AreSteps xs steps.now → FollowsNodes xs roots.now.roots.items roots.now.first.items self.old reached.old self.new reached.new result.wrong nodes)) }
    {
        // one length for both buffers, one test of room for both; and each code is that of one end
        if self.waits.len() != self.path.len()
            || self.path.len() > RIGHT_END as usize
            || steps.len() > NO_PLACE
        {
            return Followed {
                rest: bytes,
                left: count,
                wrong: false,
            };
        }
        // what the source has seen in these nodes: its bits are set
        seen.fill(false);
        follow_nodes(
            roots,
            steps,
            reached,
            seen,
            self.source,
            self.path.as_mut_slice(),
            self.waits.as_mut_slice(),
            &mut self.follow,
            bytes,
            count,
        )
    }

    /// Whether nothing is asked any more.
    pub fn is_done(&self) -> bool
        ensures idle { AsksNothing self.now → result ≡ true }
        ensures whole { (xs : List EdgeOf) (roots : List RootOf) (firsts : List (Option ℕ)) (t : WalkTree) (old new : TableParts) → IsTreeWalked xs roots firsts t old new self.now → result ≡ true → IsWholeFrom xs roots (first_at firsts t.source) t old new }
        ensures missing { (xs : List EdgeOf) (roots : List RootOf) (firsts : List (Option ℕ)) (t : WalkTree) (old new : TableParts) → IsTreeWalked xs roots firsts t old new self.now → result ≡ false → IsFirstWrongFrom xs roots (first_at firsts t.source) t (length t.nodes) }
    {
        self.follow.asked.is_none()
    }
}
