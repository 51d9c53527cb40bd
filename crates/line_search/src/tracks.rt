//! Lines followed from gate to gate as far as they go. All groups on a line see each other. Nothing is proved of them.

use crate::cells::{Cell, Cells, NONE};
use crate::cones::Line;
use gate_floods::gate_masks::gate::Gate;
use sight_names::{Memory, Ray, Side};
use sight_ray::ray_of;
use std::alloc::Global;

/// A step of a line from a group to the next: the group that it leaves, and the side at which.
#[derive(Clone, Copy)]
pub struct Step {
    pub group: u16,
    pub side: Side,
}

/// A line: where its steps begin and end, and the group that it ends in.
#[derive(Clone, Copy)]
pub struct Track {
    line: Line,
    start: usize,
    end: usize,
    pub last: u16,
}

/// Lines with all their steps.
#[derive(Drop)]
pub struct Tracks {
    pub tracks: Vec<Track>,
    steps: Vec<Step>,
}

/// The other side of the line.
fn other_side(side: Side) -> Side {
    Side {
        line: side.line,
        left: !side.left,
    }
}

/// The half-edge by which a line leaves the triangle, by its value at the third point.
#[inline(always)]
fn way_out(cell: &Cell, value: i64) -> u32 {
    if value > 0 {
        cell.right.edge
    } else if value < 0 {
        cell.left.edge
    } else {
        NONE
    }
}

/// The same for one who goes back along the line.
#[inline(always)]
fn way_back(cell: &Cell, value: i64) -> u32 {
    way_out(cell, 0i64.wrapping_sub(value))
}

impl Track {
    /// The ray along the line from the one side to the other one, which is seen from before it.
    pub fn ray(&self, first: Side, last: Side) -> Ray {
        ray_of(
            first,
            other_side(last),
            self.line.a,
            self.line.b,
            self.line.c,
        )
    }
}

impl Tracks {
    /// None.
    pub fn new(alloc: Global) -> Tracks {
        Tracks {
            tracks: Vec::new(alloc),
            steps: Vec::new(alloc),
        }
    }

    /// Lets all go.
    pub fn clear(&mut self) {
        self.tracks.clear();
        self.steps.clear();
    }

    /// The same with no room left over.
    pub fn copy(&self, alloc: Global) -> Result<Tracks, Memory> {
        Ok(Tracks {
            tracks: Vec::from_slice(alloc, self.tracks.as_slice())?,
            steps: Vec::from_slice(alloc, self.steps.as_slice())?,
        })
    }

    /// The steps of the line.
    pub fn steps_of(&self, track: &Track) -> &[Step] {
        let end = track.end.min(self.steps.len());
        &self.steps.as_slice()[track.start.min(end)..end]
    }

    /// Notes the line through the gate with this number, backwards and forwards as far as it goes.
    pub fn follow(
        &mut self,
        cells: &Cells,
        gates: &[Gate],
        number: usize,
        line: Line,
    ) -> Result<(), Memory> {
        let (Some(gate), Some(door), Some(back)) = (
            gates.get(number),
            cells.doors.get(number),
            cells.backs.get(number),
        ) else {
            return Ok(());
        };
        let start = self.steps.len();
        self.follow_back(cells.cells.as_slice(), gates, &line, *back)?;
        self.turn(start);
        let last = self.follow_on(cells.cells.as_slice(), gates, &line, gate.near, *door)?;
        self.tracks.push(Track {
            line,
            start,
            end: self.steps.len(),
            last,
        })?;
        Ok(())
    }

    /// Notes the steps to this half-edge, the last one first; the one over the half-edge itself is left out.
    fn follow_back(
        &mut self,
        cells: &[Cell],
        gates: &[Gate],
        line: &Line,
        back: u32,
    ) -> Result<(), Memory> {
        let mut edge = match cells.get(back as usize) {
            Some(cell) => way_back(cell, line.level(cell.apex)),
            None => NONE,
        };
        for _ in 0..cells.len() {
            let Some(cell) = cells.get(edge as usize) else {
                return Ok(());
            };
            if let Some(gate) = gates.get(cell.gate as usize) {
                self.steps.push(Step {
                    group: gate.far,
                    side: other_side(gate.side),
                })?;
            }
            edge = way_back(cell, line.level(cell.apex));
        }
        Ok(())
    }

    /// Turns the order of the steps from this one on.
    fn turn(&mut self, start: usize) {
        let steps = self.steps.as_mut_slice();
        if start <= steps.len() {
            steps[start..].reverse();
        }
    }

    /// Notes the steps from the group on by this half-edge: then the group that the line ends in.
    fn follow_on(
        &mut self,
        cells: &[Cell],
        gates: &[Gate],
        line: &Line,
        from: u16,
        door: u32,
    ) -> Result<u16, Memory> {
        let mut group = from;
        let mut edge = door;
        for _ in 0..cells.len() {
            let Some(cell) = cells.get(edge as usize) else {
                return Ok(group);
            };
            if let Some(gate) = gates.get(cell.gate as usize) {
                self.steps.push(Step {
                    group,
                    side: gate.side,
                })?;
                group = gate.far;
            }
            edge = way_out(cell, line.level(cell.apex));
        }
        Ok(group)
    }
}
