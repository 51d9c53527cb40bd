//! Trees that are judged by rows as they come, node by node. No tree is kept.

ghost use Rattle.std.specs.Prelude.{◌≡◌, ◌+◌, ℕ, List, [], ◌++◌, Option, Some, None, option_map, false, IfOk};
ghost use Rattle.std.specs.Option.{option_to_list};
ghost use Rattle.block_evidence.specs.declared.sight_tree.Node.{Node as OneNode};
ghost use Rattle.certificates.specs.CertParts.Nodes.{TakesNodes};
ghost use Rattle.any_judge.specs.ExactJudge.Ground.{IsSizedGround};
ghost use Rattle.any_judge.specs.ExactJudge.Trees.{Begun, HasHeardRowTrees, at_source, begun_all, heard_nodes, one_node};

use crate::exact_judge::ground::Ground;
use block_evidence::sight_tree::Node;
use cert_checker::tree_judge::Terrain;
use exact_checker::{Owning, WrongNode, owned_row};
use gate_floods::gate_masks::Row;
use gate_floods::row_judge::RowWalk;
use sight_names::Memory;
use std::alloc::Global;

/// A judge that hears trees one after another, each node by node. It keeps the path of one walk and no tree; nothing
/// behind the first wrong node is judged.
#[derive(Drop)]
pub struct RowTrees {
    pub ground: Ground,
    walk: RowWalk,
    /// How many trees have begun.
    begun: usize,
    /// Whether the last of them is open, and has no wrong node so far.
    under_way: bool,
    /// Its group.
    source: u16,
    /// How many nodes of it have come. The count stands still at its type's end.
    nodes: u64,
    /// The first tree that is wrong, and its first wrong node.
    pub wrong: Option<WrongNode>,
}

impl RowTrees {
    /// No tree so far.
    pub fn new(alloc: Global, judged_by: Ground) -> RowTrees
        ensures heard { IsSizedGround judged_by → HasHeardRowTrees ([], None) result }
        ensures ground { result.ground ≡ judged_by }
    {
        RowTrees {
            ground: judged_by,
            walk: RowWalk::new(alloc),
            begun: 0,
            under_way: false,
            source: 0,
            nodes: 0,
            wrong: None,
        }
    }

    /// The node with this number is the first wrong one of the open tree.
    fn stop(&mut self, node: u64)
        ensures wrong { self.new.wrong ≡ Some (record { source = self.old.source; node = node }) }
        ensures ended { self.new.under_way ≡ false }
        ensures ground { self.new.ground ≡ self.old.ground }
    {
        self.under_way = false;
        self.wrong = Some(WrongNode {
            source: self.source,
            node,
        });
    }

    /// Ends the open tree, if there is one.
    fn end(&mut self)
        ensures heard { (b : Begun) → HasHeardRowTrees b self.old → HasHeardRowTrees (b.0 ++ option_to_list b.1, None) self.new }
        ensures ground { self.new.ground ≡ self.old.ground }
    {
        if !self.under_way {
            return;
        }
        let ground = &self.ground;
        let terrain = Terrain {
            edges: &ground.edges,
            roots: &ground.roots,
        };
        let masks = ground.mask_rows();
        if self.walk.is_done(&terrain, &masks) {
            self.under_way = false;
        } else {
            self.stop(self.nodes);
        }
    }

    /// The next tree begins; the one before it has ended.
    fn begin(&mut self, alloc: Global) -> Result<(), Memory>
        ensures heard { (b : Begun) → HasHeardRowTrees b self.old → IfOk result (λ _. HasHeardRowTrees (b.0 ++ option_to_list b.1, Some []) self.new) }
        ensures ground { self.new.ground ≡ self.old.ground }
    {
        self.end();
        if self.wrong.is_some()
            || self.begun >= self.ground.count as usize
            || !self.ground.is_sized()
        {
            return Ok(());
        }
        let ground = &self.ground;
        let source = self.begun as u16;
        let known = Owning {
            count: ground.count,
            components: ground.components.as_slice(),
            ranks: ground.ranks.as_slice(),
            joined: ground.joined.as_slice(),
        };
        let terrain = Terrain {
            edges: &ground.edges,
            roots: &ground.roots,
        };
        let masks = ground.mask_rows();
        let row = owned_row(alloc, known, masks.width, source)?;
        self.walk.begin(&terrain, &masks, source, row.as_slice())?;
        self.begun += 1;
        self.source = source;
        self.nodes = 0;
        self.under_way = true;
        Ok(())
    }

    /// The next node of the open tree.
    fn step(&mut self, node: Node) -> Result<(), Memory>
        ensures heard { (b : Begun) → HasHeardRowTrees b self.old → IfOk result (λ _. HasHeardRowTrees (b.0, option_map (one_node node) b.1) self.new) }
        ensures ground { self.new.ground ≡ self.old.ground }
    {
        if !self.under_way {
            return Ok(());
        }
        let ground = &self.ground;
        let terrain = Terrain {
            edges: &ground.edges,
            roots: &ground.roots,
        };
        let masks = ground.mask_rows();
        if self.walk.step(&terrain, &masks, node)? {
            self.nodes = self.nodes.saturating_add(1);
            return Ok(());
        }
        self.stop(self.nodes);
        Ok(())
    }

    /// The next nodes of this group's tree, of so many that are to come, from the bytes: what of those is behind them, and how many
    /// are left. Others than the usual ones, and now and then one that needs room or is its tree's first, are left to `hear`.
    pub fn hear_nodes<'a>(
        &mut self,
        source: usize,
        bytes: &'a [u8],
        count: u64,
    ) -> Result<(&'a [u8], u64), Memory>
        ensures heard { IfOk result (λ r. TakesNodes bytes.now count r.0.now r.1 (λ nodes. (b : Begun) → HasHeardRowTrees b self.old → HasHeardRowTrees (heard_nodes source nodes b) self.new)) }
        ensures ground { self.new.ground ≡ self.old.ground }
    {
        if !self.under_way || source != self.source as usize {
            return Ok((bytes, count));
        }
        let ground = &self.ground;
        let terrain = Terrain {
            edges: &ground.edges,
            roots: &ground.roots,
        };
        let masks = ground.mask_rows();
        let followed = self.walk.follow(&terrain, &masks, bytes, count)?;
        let taken = count - followed.left;
        if followed.wrong {
            self.stop(self.nodes.saturating_add(taken - 1));
            return Ok((followed.rest, followed.left));
        }
        self.nodes = self.nodes.saturating_add(taken);
        Ok((followed.rest, followed.left))
    }

    /// Begins trees until so many have begun.
    fn begin_to(&mut self, alloc: Global, count: usize) -> Result<(), Memory>
        ensures heard { (b : Begun) → HasHeardRowTrees b self.old → IfOk result (λ _. HasHeardRowTrees (begun_all count b) self.new) }
        ensures ground { self.new.ground ≡ self.old.ground }
    {
        if self.wrong.is_some() {
            return Ok(());
        }
        for _ in self.begun..count {
            self.begin(alloc)?;
        }
        Ok(())
    }

    /// The next node of this group's tree; trees of groups before it have ended.
    pub fn hear(&mut self, alloc: Global, source: usize, node: Node) -> Result<(), Memory>
        ensures heard { (b : Begun) → HasHeardRowTrees b self.old → IfOk result (λ _. HasHeardRowTrees (at_source source node b) self.new) }
        ensures ground { self.new.ground ≡ self.old.ground }
    {
        if source >= self.ground.count as usize {
            return Ok(());
        }
        self.begin_to(alloc, source + 1)?;
        self.step(node)
    }

    /// All trees have ended.
    pub fn finish(&mut self, alloc: Global) -> Result<(), Memory>
        ensures heard { (b : Begun) → HasHeardRowTrees b self.old → IfOk result (λ _. HasHeardRowTrees ((begun_all self.old.ground.count b).0 ++ option_to_list (begun_all self.old.ground.count b).1, None) self.new) }
        ensures ground { self.new.ground ≡ self.old.ground }
    {
        self.begin_to(alloc, self.ground.count as usize)?;
        self.end();
        Ok(())
    }

    /// The rows of what is joined with each group.
    pub fn joined(&self) -> &[Row]
        ensures { result.now ≡ self.now.ground.joined.items }
    {
        self.ground.joined.as_slice()
    }
}
