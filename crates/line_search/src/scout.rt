//! A search for lines of sight by walks within what is known so far. Nothing is proved of it: each line that it finds is judged
//! before it counts.

use crate::cells::{Cell, NONE, Way, short};
use crate::cones::{Cone, End, end_at};
use crate::marks::Marks;
use crate::scene::{Scene, first_of};
use crate::traces::{Growth, Level, Trace};
use crate::tracks::Tracks;
use crate::words::{drop_at, has_any, has_at, meet, put_both, start_of};
use gate_floods::gate_masks::gate::Gate;
use gate_floods::row_judge::words::part;
use sight_names::Memory;
use std::alloc::Global;

/// More than any walk's steps.
const STEPS: u64 = 1_000_000_000_000;

/// No number of a gate of a trace: the way doesn't lead on.
const STOP: u32 = 4_294_967_293;

/// Where a search is: behind which gate of its trace, and behind how many. So many rows of what is wanted are before the one there.
#[derive(Clone, Copy)]
struct Spot {
    entry: u32,
    depth: u32,
}

/// Where a search goes on: by which half-edge, and where it is then. None is a half-edge that isn't there.
#[derive(Clone, Copy)]
struct Head {
    edge: u32,
    spot: Spot,
}

/// A right way that waits, what the lines were before they turn to the left end there, and how many ends there were.
#[derive(Clone, Copy)]
struct Fork {
    head: Head,
    cone: Cone,
    apex: End,
    lefts: u32,
    rights: u32,
}

/// Where a search goes on by this half-edge, behind so many gates, of which this one is the last.
#[inline(always)]
fn head_by(edge: u32, entry: u32, depth: u32) -> Head {
    Head {
        edge,
        spot: Spot { entry, depth },
    }
}

/// What a search goes by: what all searches share, the group that it begins in, what is wanted, and what was met before.
#[derive(Clone, Copy)]
pub struct Search<'a> {
    pub scene: &'a Scene<'a>,
    pub source: u16,
    pub wanted: &'a [u64],
    pub before: &'a Trace,
}

/// What a search came to: what it adds to the trace, and the lines that it found, as far as they go.
#[derive(Drop)]
pub struct Searched {
    pub growth: Growth,
    pub tracks: Tracks,
}

/// A search's buffers, which are used again from group to group.
#[derive(Drop)]
pub struct Scout {
    lefts: Vec<End>,
    rights: Vec<End>,
    forks: Vec<Fork>,
    /// Rows of what is still wanted, one for each gate on the way, each behind the one that it is part of.
    rows: Vec<u64>,
    /// How far the search is among the gates met behind each gate on the way.
    levels: Vec<Level>,
    marks: Marks,
    growth: Growth,
    tracks: Tracks,
    /// In which word of a row something was wanted last.
    hint: usize,
}

impl Scout {
    /// No buffers yet.
    pub fn new(alloc: Global) -> Scout {
        Scout {
            lefts: Vec::new(alloc),
            rights: Vec::new(alloc),
            forks: Vec::new(alloc),
            rows: Vec::new(alloc),
            levels: Vec::new(alloc),
            marks: Marks::new(alloc),
            growth: Growth::new(alloc),
            tracks: Tracks::new(alloc),
            hint: 0,
        }
    }

    /// Searches from the group for what is wanted, behind each gate within its mask: all ways, or of those that were taken before
    /// the ones behind which masks got more.
    pub fn search(&mut self, alloc: Global, search: &Search<'_>) -> Result<Searched, Memory> {
        self.growth.clear();
        self.tracks.clear();
        if self.is_worthwhile(search)? {
            self.search_all(search)?;
        }
        Ok(Searched {
            growth: self.growth.copy(alloc)?,
            tracks: self.tracks.copy(alloc)?,
        })
    }

    /// Whether there may be something to find. Marks what is to be looked at again, where gates were met before.
    fn is_worthwhile(&mut self, search: &Search<'_>) -> Result<bool, Memory> {
        if !has_any(search.wanted) {
            return Ok(false);
        }
        if search.before.met.is_empty() {
            return Ok(true);
        }
        self.marks.mark(search.scene, search.before, search.wanted)
    }

    /// Searches through all gates of the group.
    fn search_all(&mut self, search: &Search<'_>) -> Result<(), Memory> {
        self.rows.clear();
        self.rows.extend_from_slice(search.wanted)?;
        self.levels.clear();
        self.levels.push(search.before.top())?;
        let gates = search.scene.gates;
        let start = first_of(gates, search.source as u32);
        let end = first_of(gates, search.source as u32 + 1);
        for number in start..end {
            if let Some(gate) = gates.gates.get(number) {
                self.search_through(search, gate, short(number))?;
            }
        }
        Ok(())
    }

    /// Searches through one gate.
    fn search_through(
        &mut self,
        search: &Search<'_>,
        gate: &Gate,
        number: u32,
    ) -> Result<(), Memory> {
        let Some(door) = search.scene.cells.doors.get(number as usize) else {
            return Ok(());
        };
        let top = Spot {
            entry: NONE,
            depth: 0,
        };
        let entry = self.ask(search, top, number)?;
        if entry == STOP {
            return Ok(());
        }
        let (left, right) = (end_at(gate.left_at), end_at(gate.right_at));
        self.begin(left, right)?;
        let head = Head {
            edge: *door,
            spot: Spot { entry, depth: 0 },
        };
        self.go_through(search, number, head, Cone::of(left, right))
    }

    /// Goes on through the gate with this number until no way is left.
    fn go_through(
        &mut self,
        search: &Search<'_>,
        number: u32,
        mut head: Head,
        mut cone: Cone,
    ) -> Result<(), Memory> {
        let cells = search.scene.cells.cells.as_slice();
        for _ in 0..STEPS {
            let Some(cell) = cells.get(head.edge as usize) else {
                return Ok(());
            };
            if cell.gate != NONE {
                head.spot = self.enter(search, number, cell, &cone, head.spot)?;
            }
            head = self.go_on(search, cell, &mut cone, head.spot)?;
            if head.edge == NONE {
                head = self.go_back(&mut cone)?;
            }
        }
        Ok(())
    }

    /// Asks whether the gate leads on: one that was met before does where something behind it is to be looked at again, another
    /// one where something that is wanted may be seen behind it. Then its number in the trace.
    #[inline(always)]
    fn ask(&mut self, search: &Search<'_>, spot: Spot, gate: u32) -> Result<u32, Memory> {
        let width = search.scene.width;
        let wanted = part(
            self.rows.as_slice(),
            start_of(spot.depth as usize, width),
            width,
        );
        let Some(level) = self.levels.get_mut(spot.depth as usize) else {
            return Ok(STOP);
        };
        if level.next == NONE {
            let open = meet(wanted, search.scene.mask(gate), &mut self.hint);
            let number = self.growth.note(search.before, level, gate, open)?;
            return Ok(if open { number } else { STOP });
        }
        let live = self.marks.live.as_slice();
        match self.growth.meet_again(search.before, level, live)? {
            Some(number) => Ok(number),
            None => Ok(STOP),
        }
    }

    /// Begins with the ends of a gate.
    fn begin(&mut self, left: End, right: End) -> Result<(), Memory> {
        self.lefts.clear();
        self.rights.clear();
        self.forks.clear();
        self.lefts.push(left)?;
        self.rights.push(right)?;
        Ok(())
    }

    /// Comes through a gate: notes a line if the group behind it is wanted, which is wanted no more then, and makes the row of what
    /// is wanted behind the gate.
    #[inline(always)]
    fn enter(
        &mut self,
        search: &Search<'_>,
        root: u32,
        cell: &Cell,
        cone: &Cone,
        spot: Spot,
    ) -> Result<Spot, Memory> {
        let scene = search.scene;
        // the present row may have been made before another way found the group
        if has_at(self.rows.as_slice(), 0, cell.far) {
            self.find(search, root, cell.far, cone, spot)?;
        }
        let row = start_of(spot.depth as usize, scene.width);
        self.put_met(row, scene.width, scene.mask(cell.gate))?;
        let depth = spot.depth.wrapping_add(1);
        self.put_level(depth, search.before.behind(spot.entry))?;
        Ok(Spot {
            entry: spot.entry,
            depth,
        })
    }

    /// Notes a line to the group, which is wanted no more then.
    // out of line: few nodes lead here
    #[inline(never)]
    fn find(
        &mut self,
        search: &Search<'_>,
        root: u32,
        group: u16,
        cone: &Cone,
        spot: Spot,
    ) -> Result<(), Memory> {
        let scene = search.scene;
        let gates = scene.gates.gates.as_slice();
        self.tracks
            .follow(scene.cells, gates, root as usize, cone.between())?;
        let row = start_of(spot.depth as usize, scene.width);
        self.drop_from_all(scene.width, row, group);
        Ok(())
    }

    /// Puts the level there.
    #[inline(always)]
    fn put_level(&mut self, depth: u32, level: Level) -> Result<(), Memory> {
        if let Some(old) = self.levels.get_mut(depth as usize) {
            *old = level;
        } else {
            self.levels.push(level)?;
        }
        Ok(())
    }

    /// Takes the group out of all rows up to this one.
    fn drop_from_all(&mut self, width: usize, row: usize, group: u16) {
        let mut at: usize = 0;
        for _ in 0..self.rows.len() {
            if at > row {
                return;
            }
            drop_at(self.rows.as_mut_slice(), at, group);
            at = at.saturating_add(width);
        }
    }

    /// Puts behind the row what the mask has of it too.
    #[inline(always)]
    fn put_met(&mut self, row: usize, width: usize, mask: &[u64]) -> Result<(), Memory> {
        let to = row.wrapping_add(width);
        let end = to.wrapping_add(width);
        if self.rows.len() < end {
            self.rows.resize(end, 0)?;
        }
        if to <= self.rows.len() {
            let (before, behind) = self.rows.as_mut_slice().split_at_mut(to);
            put_both(behind, part(before, row, width), mask);
        }
        Ok(())
    }

    /// Whether the way leads on: not back into the source, and through a gate only as `ask` says. Then the number of the gate in the
    /// trace behind which it leads.
    #[inline(always)]
    fn leads_on(&mut self, search: &Search<'_>, spot: Spot, way: &Way) -> Result<u32, Memory> {
        if way.gate == NONE {
            return Ok(if way.edge == NONE { STOP } else { spot.entry });
        }
        if way.far == search.source {
            return Ok(STOP);
        }
        self.ask(search, spot, way.gate)
    }

    /// Goes on by the left way out, or else by the right one. Where both lead on, the right one waits.
    #[inline(always)]
    fn go_on(
        &mut self,
        search: &Search<'_>,
        cell: &Cell,
        cone: &mut Cone,
        spot: Spot,
    ) -> Result<Head, Memory> {
        let apex = end_at(cell.apex);
        let to_left = cone.leads_left(apex);
        let to_right = cone.leads_right(apex);
        let mut left = STOP;
        if to_left {
            left = self.leads_on(search, spot, &cell.left)?;
        }
        let mut right = STOP;
        if to_right {
            right = self.leads_on(search, spot, &cell.right)?;
        }
        if left != STOP {
            if right != STOP {
                self.put_fork(head_by(cell.right.edge, right, spot.depth), cone, apex)?;
            }
            if to_right {
                cone.turn_second(self.lefts.as_slice(), apex);
            }
            self.rights.push(apex)?;
            return Ok(head_by(cell.left.edge, left, spot.depth));
        }
        if right != STOP {
            if to_left {
                cone.turn_first(self.rights.as_slice(), apex);
            }
            self.lefts.push(apex)?;
            return Ok(head_by(cell.right.edge, right, spot.depth));
        }
        Ok(head_by(NONE, STOP, 0))
    }

    /// Lets a right way wait.
    #[inline(always)]
    fn put_fork(&mut self, head: Head, cone: &Cone, apex: End) -> Result<(), Memory> {
        self.forks.push(Fork {
            head,
            cone: *cone,
            apex,
            lefts: short(self.lefts.len()),
            rights: short(self.rights.len()),
        })?;
        Ok(())
    }

    /// Goes back to the last way that waits, if one does, and on by it: the point there is a left end.
    #[inline(always)]
    fn go_back(&mut self, cone: &mut Cone) -> Result<Head, Memory> {
        let Some(fork) = self.forks.pop() else {
            return Ok(head_by(NONE, STOP, 0));
        };
        self.lefts.truncate(fork.lefts as usize);
        self.rights.truncate(fork.rights as usize);
        *cone = fork.cone;
        cone.turn_first(self.rights.as_slice(), fork.apex);
        self.lefts.push(fork.apex)?;
        Ok(fork.head)
    }
}
