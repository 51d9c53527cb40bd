//! Pairs of groups that are found in a round. Nothing is proved of them: each ray is judged before it counts.

use crate::known::Known;
use crate::turned::toward;
use geom_exact::in_range;
use line_search::words::{has_at, put_at, row_with, start_of, zeros};
use line_search::{Step, Track, Tracks};
use pair_budget::Reached;
use sight_names::{Memory, PairRay, Ray};
use std::alloc::Global;

/// Rays, and what was found.
#[derive(Drop)]
pub struct Pairs {
    width: usize,
    /// The groups on the present line.
    line: Vec<u64>,
    /// For each group a row of those that it is known or was found to see.
    told: Vec<u64>,
    /// The same of those that were found in this round.
    pub new: Vec<u64>,
    pub rays: Vec<PairRay>,
}

/// The group that the line enters by the step at this place.
fn entered(track: &Track, steps: &[Step], place: usize) -> u16 {
    match steps.get(place.wrapping_add(1)) {
        Some(next) => next.group,
        None => track.last,
    }
}

/// Puts the groups on the line.
fn put_groups(line: &mut [u64], track: &Track, steps: &[Step]) {
    line.fill(0);
    for step in steps {
        put_at(line, 0, step.group);
    }
    put_at(line, 0, track.last);
}

/// Whether the one row has any that the other one hasn't.
#[inline(always)]
fn has_more(one: &[u64], other: &[u64]) -> bool {
    let mut any = 0;
    for place in 0..one.len().min(other.len()) {
        any |= one[place] & !other[place];
    }
    any != 0
}

impl Pairs {
    /// None.
    pub fn new(alloc: Global, known: &Known) -> Result<Pairs, Memory> {
        Ok(Pairs {
            width: known.width,
            line: zeros(alloc, known.width)?,
            told: Vec::from_slice(alloc, known.seen.as_slice())?,
            new: zeros(alloc, known.seen.len())?,
            rays: Vec::new(alloc),
        })
    }

    /// Begins a round.
    pub fn begin(&mut self) {
        self.new.as_mut_slice().fill(0);
    }

    /// Adds a ray for each two groups on one of these lines that aren't known to see each other.
    pub fn join_all(&mut self, tracks: &Tracks) -> Result<(), Memory> {
        for track in tracks.tracks.as_slice() {
            self.join(track, tracks.steps_of(track))?;
        }
        Ok(())
    }

    /// The same for this line.
    fn join(&mut self, track: &Track, steps: &[Step]) -> Result<(), Memory> {
        put_groups(self.line.as_mut_slice(), track, steps);
        for place in 0..steps.len() {
            let told = row_with(
                self.told.as_slice(),
                steps[place].group as usize,
                self.width,
            );
            if has_more(self.line.as_slice(), told) {
                self.join_from(track, &steps[place..])?;
            }
        }
        Ok(())
    }

    /// Adds a ray for the first group of these steps with each one behind it that it isn't known to see.
    // out of line: few groups have any
    #[inline(never)]
    fn join_from(&mut self, track: &Track, steps: &[Step]) -> Result<(), Memory> {
        let Some(from) = steps.first() else {
            return Ok(());
        };
        let begin = start_of(from.group as usize, self.width);
        for place in 0..steps.len() {
            let to = entered(track, steps, place);
            if to != from.group && !has_at(self.told.as_slice(), begin, to) {
                self.add(from.group, to, track.ray(from.side, steps[place].side))?;
            }
        }
        Ok(())
    }

    /// Adds a ray from the one group to the other.
    fn add(&mut self, from: u16, to: u16, ray: Ray) -> Result<(), Memory> {
        if in_range(&ray) {
            let there = start_of(from as usize, self.width);
            let back = start_of(to as usize, self.width);
            put_at(self.told.as_mut_slice(), there, to);
            put_at(self.told.as_mut_slice(), back, from);
            put_at(self.new.as_mut_slice(), there, to);
            put_at(self.new.as_mut_slice(), back, from);
            self.rays.push(toward(from, &Reached { to, ray }))?;
        }
        Ok(())
    }
}
