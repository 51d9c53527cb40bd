//! The half-edges as a walk over trees needs them: the ends of each, and its two ways out with the sectors behind them.

ghost use Rattle.std.specs.Prelude.{◌≡◌, IfOk};
ghost use Rattle.mesh_shape.specs.declared.half_edges.table.HalfEdge.{HalfEdge as EdgeOf};
ghost use Rattle.cert_checker.specs.TreeJudge.Steps.{sector_code, way_unless_source, IsBelowNone, WayLeadsTo, IsStepOf, AreSteps};

use crate::tree_judge::stepping::NO_PLACE;
use mesh_shape::half_edges::{HalfEdge, HalfEdges};
use sight_names::{Memory, Pt};
use std::alloc::Global;

/// Stands for no sector: more than any number of one.
pub const NO_SECTOR: u32 = 65_536;

/// A half-edge: its ends, its triangle's sector, and the half-edges behind the two ways out with the sectors of theirs.
#[derive(Clone, Copy)]
pub struct Step {
    pub left_at: Pt,
    pub right_at: Pt,
    pub left_way: Option<u32>,
    pub right_way: Option<u32>,
    pub left_sector: u32,
    pub right_sector: u32,
    pub sector: u32,
}

/// The sector as a plain number.
fn code_of(sector: Option<u16>) -> u32
    ensures value { result ≡ sector_code sector }
    ensures below { IsBelowNone sector }
{
    match sector {
        Some(sector) => sector as u32,
        None => NO_SECTOR,
    }
}

/// The half-edge that the way leads to, where it is there, and the sector of its triangle.
fn way_of(edges: &HalfEdges, way: Option<u32>) -> (Option<u32>, u32)
    ensures { WayLeadsTo edges.now way result.0 result.1 }
{
    let Some(number) = way else {
        return (None, NO_SECTOR);
    };
    match edges.get(number) {
        Some(edge) => (way, code_of(edge.sector)),
        None => (None, NO_SECTOR),
    }
}

/// The half-edge as a step.
fn step_of(edges: &HalfEdges, edge: &HalfEdge) -> Step
    ensures { IsStepOf edges.now edge.now result }
{
    let (left_way, left_sector) = way_of(edges, edge.left_way);
    let (right_way, right_sector) = way_of(edges, edge.right_way);
    Step {
        left_at: edge.left_at,
        right_at: edge.right_at,
        left_way,
        right_way,
        left_sector,
        right_sector,
        sector: code_of(edge.sector),
    }
}

/// All half-edges as steps, as far as numbers of 32 bits reach.
pub fn steps_of(alloc: Global, edges: &HalfEdges) -> Result<Vec<Step>, Memory>
    ensures { IfOk result (λ v. AreSteps edges.now v.items) }
{
    let mut steps = Vec::new(alloc);
    for number in 0..edges.len().min(NO_PLACE) {
        let Some(edge) = edges.get(number as u32) else {
            unreachable!();
        };
        steps.push(step_of(edges, edge))?;
    }
    Ok(steps)
}

/// The way, unless it leads into a triangle of the source.
#[inline(always)]
pub fn outside(way: Option<u32>, sector: u32, source: u16) -> Option<u32>
    ensures { result ≡ way_unless_source way sector source }
{
    if sector == source as u32 { None } else { way }
}
