//! What is ahead by a way out of a triangle, so that a walk reads it in one place.

ghost use Rattle.std.specs.Prelude.{◌≡◌, ◌≤◌, ◌*◌, length, IfOk};
ghost use Rattle.sight_names.specs.Sequence.{names_it};
ghost use Rattle.sight_names.specs.declared.limits.TheConstants.{MOST_TRIANGLES};
ghost use Rattle.portal_walk.specs.Ahead.{AreAhead, ahead_by as by_way, apex_end as end_at_apex, kept_as, number_or, sector_in};

use crate::scene::{Way, behind};
use mesh_shape::half_edges::{HalfEdge, HalfEdges};
use sight_names::{Memory, Pt};
use std::alloc::Global;

/// No half-edge has this number.
pub const NO_EDGE: u32 = 0xFFFF_FFFF;

/// What a walk needs to know of the half-edge behind a way out of a triangle. There are two for each half-edge, so it is
/// kept short: 12 bytes.
#[derive(Clone, Copy)]
pub struct Ahead {
    pub number: u32,
    /// The end at the apex of the triangle; the other one is the last end on that side.
    pub apex_at: Pt,
    /// The sector of its triangle, where that has one.
    pub sector: u16,
    pub has_sector: bool,
    /// Whether it is a line that one can look through.
    pub is_line: bool,
}

/// The end of the half-edge behind a way that the triangle has at its apex.
fn apex_end(edge: &HalfEdge, way: Way) -> Pt
    ensures { result ≡ end_at_apex edge.now way }
{
    match way {
        Way::Left => edge.right_at,
        Way::Right => edge.left_at,
    }
}

/// The number of a sector, or 0.
fn sector_number(sector: Option<u16>) -> u16
    ensures { result ≡ number_or sector }
{
    match sector {
        Some(number) => number,
        None => 0,
    }
}

/// What is ahead by this way.
fn ahead_by(edges: &HalfEdges, way: Way, number: Option<u32>) -> Option<Ahead>
    ensures { result ≡ by_way edges.now way number }
{
    let number = number?;
    let edge = edges.get(number)?;
    Some(Ahead {
        number,
        apex_at: apex_end(edge, way),
        sector: sector_number(edge.sector),
        has_sector: edge.sector.is_some(),
        is_line: edge.entered.is_some(),
    })
}

/// What is kept of it: no half-edge, where nothing is ahead.
fn kept(ahead: Option<Ahead>) -> Ahead
    ensures { result ≡ kept_as ahead }
{
    match ahead {
        Some(ahead) => ahead,
        None => Ahead {
            number: NO_EDGE,
            apex_at: Pt { x: 0, y: 0 },
            sector: 0,
            has_sector: false,
            is_line: false,
        },
    }
}

/// Whether its triangle is one of this sector.
// the sector's number first: it is nearly always another one
#[inline(always)]
pub fn is_in(ahead: &Ahead, sector: u16) -> bool
    ensures { result ≡ names_it (sector_in ahead.now) sector }
{
    if ahead.sector == sector {
        ahead.has_sector
    } else {
        false
    }
}

/// What is ahead by this way out of each half-edge's triangle.
pub fn all_ahead(alloc: Global, edges: &HalfEdges, way: Way) -> Result<Vec<Ahead>, Memory>
    requires few { length edges.now ≤ MOST_TRIANGLES * 3 }
    ensures { IfOk result (λ all. AreAhead edges.now way all.items) }
{
    let mut all = Vec::new(alloc);
    for number in 0..edges.len() {
        let ahead = match edges.get(number as u32) {
            Some(edge) => ahead_by(edges, way, behind(edge, way)),
            None => None,
        };
        all.push(kept(ahead))?;
    }
    Ok(all)
}
