//! Portals that a line passes, each with an end of the one before and a note of whoever goes through them.

ghost use Rattle.std.specs.Prelude.{◌≡◌, ◌≢◌, ◌∷◌, [], ◌<◌, ◌≤◌, List, length, take, OnOk, OnErr};
ghost use Rattle.sight_names.specs.Splitting.{EndPoints, SplitsEnds};
ghost use Rattle.stab_hull.specs.Answer.{IsLineInRange};
ghost use Rattle.stab_hull.specs.Portals.{IsConeOf};
ghost use Rattle.stab_hull.specs.Sleeves.{GoesOnTo, HasLastLeft, HasLastRight, IsTrack, ends_of_track, notes_of, told_of_search};

use crate::Passed;
use crate::chain::Chain;
use crate::frame::Noted;
use crate::hull::{Hull, frame_over};
use crate::onward::{Told, add_by_new_left, add_by_new_right, add_by_search};
use geom_exact::extreme_lines::Cone;
use sight_names::{EndAt, Memory, Pt, RIGHT_END};
use std::alloc::Global;

/// Portals with their notes, and the stacks of their ends. Whoever has them keeps that the stacks are of these portals alone,
/// which each call here needs and leaves so.
#[derive(Drop)]
pub struct Track<N> {
    pub portals: Vec<Noted<N>>,
    pub hull: Hull,
}

/// The line in the middle of the cone of some portals.
fn line_of(cone: &Cone) -> (i32, i32, i64)
    requires { (es : List EndPoints) × IsConeOf es cone.now }
    ensures splits { (es : List EndPoints) → IsConeOf es cone.now → SplitsEnds es result.0 result.1 result.2 }
    ensures range { IsLineInRange result.0 result.1 result.2 }
{
    let cut = cone.cut();
    (cut.a, cut.b, cut.c)
}

impl<N: Copy> Track<N> {
    /// No portal.
    pub fn new(alloc: Global) -> Track<N>
        ensures track { IsTrack result }
        ensures none { result.portals.items ≡ [] }
    {
        Track {
            portals: Vec::new(alloc),
            hull: Hull {
                lefts: Chain::new(alloc),
                rights: Chain::new(alloc),
                cones: Vec::new(alloc),
            },
        }
    }

    /// Has this portal alone.
    pub fn begin(&mut self, note: N, left: Pt, right: Pt) -> Result<(), Memory>
        requires proper { left ≢ right }
        requires first { self.old.portals.items ≡ [] }
        ensures track { IsTrack self.new }
        ensures notes { OnOk result (notes_of self.new ≡ note ∷ []) }
        ensures ends { OnOk result (ends_of_track self.new ≡ record { left = left; right = right } ∷ []) }
        ensures err { OnErr result (self.new.portals.items ≡ []) }
    {
        self.portals.reserve(1)?;
        let left_end = EndAt { code: 0, at: left };
        let right_end = EndAt {
            code: RIGHT_END,
            at: right,
        };
        self.hull.begin(left_end, right_end)?;
        let frame = frame_over(&self.hull, left, right);
        self.portals.push_reserved(Noted { frame, note });
        Ok(())
    }

    /// Adds the portal from the last left end to this right end where a line splits its ends and all others; where none
    /// does, the list stays as it was, and stuck ends show it, or it has to be searched for.
    // in line, since a walk does this or the other at each node
    #[inline(always)]
    pub fn by_new_right(&mut self, note: N, left: Pt, right: Pt) -> Result<Told, Memory>
        requires track { IsTrack self.old }
        requires last { HasLastLeft (ends_of_track self.old) left }
        requires room { length self.old.portals.items < RIGHT_END }
        requires proper { left ≢ right }
        ensures track { IsTrack self.new }
        ensures goes { GoesOnTo self.old note (record { left = left; right = right }) self.new result }
    {
        add_by_new_right(&mut self.portals, &mut self.hull, left, right, note)
    }

    /// The same from this left end to the last right end.
    #[inline(always)]
    pub fn by_new_left(&mut self, note: N, left: Pt, right: Pt) -> Result<Told, Memory>
        requires track { IsTrack self.old }
        requires last { HasLastRight (ends_of_track self.old) right }
        requires room { length self.old.portals.items < RIGHT_END }
        requires proper { left ≢ right }
        ensures track { IsTrack self.new }
        ensures goes { GoesOnTo self.old note (record { left = left; right = right }) self.new result }
    {
        add_by_new_left(&mut self.portals, &mut self.hull, left, right, note)
    }

    /// The same of a portal with any ends, behind others, by a search that tells.
    pub fn by_search(&mut self, note: N, left: Pt, right: Pt) -> Result<Passed, Memory>
        requires track { IsTrack self.old }
        requires there { 0 < length self.old.portals.items }
        requires room { length self.old.portals.items < RIGHT_END }
        requires proper { left ≢ right }
        ensures track { IsTrack self.new }
        ensures goes { GoesOnTo self.old note (record { left = left; right = right }) self.new (told_of_search result) }
    {
        add_by_search(&mut self.portals, &mut self.hull, left, right, note)
    }

    /// Takes the portals behind the first ones away.
    #[inline(always)]
    pub fn cut(&mut self, count: usize)
        requires track { IsTrack self.old }
        requires there { count ≤ length self.old.portals.items }
        ensures track { IsTrack self.new }
        ensures portals { self.new.portals.items ≡ take count self.old.portals.items }
    {
        self.portals.truncate(count);
        match self.portals.as_slice().last() {
            Some(top) => self.hull.cut(&top.frame),
            None => {}
        }
    }

    /// A line that splits the ends. |a| and |b| are at most 2^30, |c| is at most 2^57.
    pub fn line(&self) -> (i32, i32, i64)
        requires track { IsTrack self.now }
        requires there { 0 < length self.now.portals.items }
        ensures splits { SplitsEnds (ends_of_track self.now) result.0 result.1 result.2 }
        ensures range { IsLineInRange result.0 result.1 result.2 }
    {
        line_of(&self.hull.cones[self.hull.cones.len() - 1])
    }
}
