//! The map as the code holds it: sorted points, and lines between point numbers.

ghost use Rattle.std.specs.Prelude.{◌≡◌, ◌<◌, Some, IfSome, length, slice_get, option_and_then};
ghost use Rattle.sight_names.specs.Map.{named, map_of};
ghost use Rattle.sight_names.specs.Plan.{IsPlan, IsPlanLine};
ghost use Rattle.sight_names.specs.Points.{place as place_of};

use crate::names::{Pt, Side};
use std::marker::Model;

/// A line between two point numbers.
#[derive(Clone, Copy, PartialEq, Eq)]
pub struct Line {
    pub a: u16,
    pub b: u16,
    pub solid: bool,
    pub right: Option<u16>,
    pub left: Option<u16>,
}

/// The map with its points in order and one entry per LINEDEFS record, None where the line is passed over.
#[derive(Drop)]
pub struct Plan {
    pub sectors: u16,
    pub points: Vec<Pt>,
    pub lines: Vec<Option<Line>>,
}

impl Model for Plan {
    ghost use Rattle.sight_names.specs.Plan.{PlanParts, IsPlan};

    ghost Value = { PlanParts };

    ghost view = { λ p. record { sectors = p.sectors; points = p.points.items; lines = p.lines.items } };

    ghost invariant = { λ p. IsPlan (record { sectors = p.sectors; points = p.points.items; lines = p.lines.items }) };
}

impl Plan {
    /// The points, by x and then by y; a point's number is its place.
    pub fn points(&self) -> &[Pt]
        ensures list { result.now ≡ self.now.points }
        ensures plan { IsPlan self.now }
    {
        self.points.as_slice()
    }

    /// One entry per LINEDEFS record, None where the line has zero length.
    pub fn lines(&self) -> &[Option<Line>]
        ensures list { result.now ≡ self.now.lines }
        ensures plan { IsPlan self.now }
    {
        self.lines.as_slice()
    }

    /// The point with this number, as the map that the plan stands for has it.
    pub fn place(&self, k: u16) -> Pt
        requires { k < length self.now.points }
        ensures place { result ≡ place_of (map_of self.now) k }
        ensures number { slice_get self.now.points k ≡ Some result }
        ensures plan { IsPlan self.now }
    {
        self.points[k as usize]
    }

    /// The line with this record number, None where there is none or it is passed over.
    pub fn line(&self, k: u16) -> Option<Line>
        ensures entry { result ≡ option_and_then (λ l. l) (slice_get self.now.lines k) }
        ensures fits { IfSome result (λ l. IsPlanLine self.now.sectors (length self.now.points) l) }
    {
        let entry = self.lines.as_slice().get(k as usize)?;
        *entry
    }

    /// The sector that the side names, None where there is no such line or name.
    pub fn sector_at(&self, side: Side) -> Option<u16>
        ensures { result ≡ named (map_of self.now) side }
    {
        match self.lines.get(side.line as usize) {
            Some(Some(line)) => { if side.left { line.left } else { line.right } }
            _ => None,
        }
    }
}
