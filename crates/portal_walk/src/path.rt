//! The portals that a walk has entered, with their ends.

ghost use Rattle.std.specs.Prelude.{◌≡◌, ◌≢◌, ◌+◌, ◌-◌, ◌<◌, ◌≤◌, ◌++◌, ◌∷◌, [], length, slice_get, take, OnErr, OnOk};
ghost use Rattle.sight_names.specs.Splitting.{SplitsEnds, IsSplittable};
ghost use Rattle.stab_hull.specs.Answer.{IsLineInRange};
ghost use Rattle.stab_hull.specs.Sleeves.{HasLastLeft, HasLastRight};
ghost use Rattle.portal_walk.specs.Frames.{PassesPortal, TellsPortal, HasWays, first_portals};

use sight_names::{Memory, Pt, RIGHT_END};
use stab_hull::{Passed, Told, Track};
use std::alloc::Global;
use std::marker::Model;

/// The ways out of a triangle that are still to be tried.
#[derive(Clone, Copy, PartialEq, Eq)]
pub enum Ways {
    Both,
    RightOnly,
    Done,
}

/// A portal that was entered, by the number of its half-edge.
#[derive(Clone, Copy)]
pub struct Frame {
    pub edge: u32,
    pub ways: Ways,
    /// So many portals stay when it is left: up to the nearest one before it that has a way left.
    pub under: u32,
}

/// The portals that were entered, in order, with their ends.
#[derive(Drop)]
pub struct Path {
    track: Track<Frame>,
}

impl Model for Path {
    ghost use Rattle.stab_hull.specs.Sleeves.{IsTrack, ends_of_track, notes_of};
    ghost use Rattle.portal_walk.specs.Frames.{PathParts};

    ghost Value = { PathParts };

    ghost view = { λ p. record { frames = notes_of p.track; ends = ends_of_track p.track } };

    ghost invariant = { λ p. IsTrack p.track };
}

impl Path {
    /// The path of no portal.
    pub fn new(alloc: Global) -> Path
        ensures { result ≡ record { frames = []; ends = [] } }
    {
        Path {
            track: Track::new(alloc),
        }
    }

    /// How many portals were entered.
    pub fn len(&self) -> usize
        ensures { result ≡ length self.now.frames }
    {
        self.track.portals.len()
    }

    /// The last portal.
    pub fn top(&self) -> Option<Frame>
        ensures { result ≡ slice_get self.now.frames (length self.now.frames - 1) }
    {
        match self.track.portals.as_slice().last() {
            Some(portal) => Some(portal.note),
            None => None,
        }
    }

    /// The left end of the last portal.
    #[inline(always)]
    pub fn last_left(&self) -> Pt
        requires { 0 < length self.now.frames }
        ensures { HasLastLeft self.now.ends result }
    {
        self.track.portals[self.track.portals.len() - 1].frame.left
    }

    /// The right one.
    #[inline(always)]
    pub fn last_right(&self) -> Pt
        requires { 0 < length self.now.frames }
        ensures { HasLastRight self.now.ends result }
    {
        self.track.portals[self.track.portals.len() - 1].frame.right
    }

    /// Writes the ways that a portal has left.
    #[inline(always)]
    pub fn set_ways(&mut self, at: usize, ways: Ways)
        requires { at < length self.old.frames }
        ensures { HasWays self.old at ways self.new }
    {
        self.track.portals[at].note.ways = ways;
    }

    /// Takes the portals behind the first ones away.
    #[inline(always)]
    pub fn cut(&mut self, count: usize)
        requires { count ≤ length self.old.frames }
        ensures { self.new ≡ first_portals count self.old }
    {
        self.track.cut(count);
    }

    /// Enters the portal of a root with these ends.
    pub fn begin(&mut self, frame: Frame, left: Pt, right: Pt) -> Result<(), Memory>
        requires first { self.old.frames ≡ [] }
        requires proper { left ≢ right }
        ensures ok { OnOk result (self.new ≡ record { frames = frame ∷ []; ends = record { left = left; right = right } ∷ [] }) }
        ensures err { OnErr result (self.new ≡ self.old) }
    {
        self.track.begin(frame, left, right)
    }

    /// Enters a portal from the last left end to this right end where a line splits the ends of the whole path, else
    /// tells ends that show that none does, or that it has to be searched for.
    // in line, since a call would take what comes of it through memory
    #[inline(always)]
    pub fn by_new_right(&mut self, frame: Frame, left: Pt, right: Pt) -> Result<Told, Memory>
        requires last { HasLastLeft self.old.ends left }
        requires proper { left ≢ right }
        requires room { length self.old.frames < RIGHT_END }
        ensures tells { TellsPortal self.old self.new frame (record { left = left; right = right }) result }
    {
        self.track.by_new_right(frame, left, right)
    }

    /// The same from this left end to the last right end.
    #[inline(always)]
    pub fn by_new_left(&mut self, frame: Frame, left: Pt, right: Pt) -> Result<Told, Memory>
        requires last { HasLastRight self.old.ends right }
        requires proper { left ≢ right }
        requires room { length self.old.frames < RIGHT_END }
        ensures tells { TellsPortal self.old self.new frame (record { left = left; right = right }) result }
    {
        self.track.by_new_left(frame, left, right)
    }

    /// The same of either by a search, which the first portals need.
    pub fn by_search(&mut self, frame: Frame, left: Pt, right: Pt) -> Result<Passed, Memory>
        requires there { 0 < length self.old.frames }
        requires proper { left ≢ right }
        requires room { length self.old.frames < RIGHT_END }
        ensures passes { PassesPortal self.old self.new frame (record { left = left; right = right }) result }
    {
        self.track.by_search(frame, left, right)
    }

    /// A line that splits the ends.
    pub fn line(&self) -> (i32, i32, i64)
        requires there { 0 < length self.now.frames }
        requires splittable { IsSplittable self.now.ends }
        ensures splits { SplitsEnds self.now.ends result.0 result.1 result.2 }
        ensures range { IsLineInRange result.0 result.1 result.2 }
    {
        self.track.line()
    }
}
