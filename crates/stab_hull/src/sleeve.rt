//! Portals of which each has an end of the one before, as a walk goes through them: a line splits the ends of all.

ghost use Rattle.std.specs.Prelude.{◌≡◌, ◌≢◌, ◌∷◌, [], ◌<◌, ◌≤◌, length, take, OnOk, OnErr};
ghost use Rattle.sight_names.specs.Splitting.{SplitsEnds};
ghost use Rattle.stab_hull.specs.Answer.{IsPortalPassed, IsLineInRange};
ghost use Rattle.stab_hull.specs.Sleeves.{HasLastLeft, HasLastRight};

use crate::Passed;
use crate::onward::Told;
use crate::track::Track;
use sight_names::{Memory, Pt, RIGHT_END};
use std::alloc::Global;
use std::marker::Model;

/// Portals that a line passes. The stacks have no more than what is of them.
#[derive(Drop)]
pub struct Sleeve {
    track: Track<()>,
}

impl Model for Sleeve {
    ghost use Rattle.std.specs.Prelude.{List};
    ghost use Rattle.sight_names.specs.Splitting.{EndPoints};

    ghost Value = { List EndPoints };

    ghost use Rattle.stab_hull.specs.Sleeves.{IsTrack, ends_of_track};

    ghost view = { λ s. ends_of_track s.track };

    ghost invariant = { λ s. IsTrack s.track };
}

impl Sleeve {
    /// No portal.
    pub fn new(alloc: Global) -> Sleeve
        ensures { result ≡ [] }
    {
        Sleeve {
            track: Track::new(alloc),
        }
    }

    /// The number of portals.
    pub fn len(&self) -> usize
        ensures { result ≡ length self.now }
    {
        self.track.portals.len()
    }

    /// Has this portal alone.
    pub fn begin(&mut self, left: Pt, right: Pt) -> Result<(), Memory>
        requires proper { left ≢ right }
        requires first { self.old ≡ [] }
        ensures ok { OnOk result (self.new ≡ record { left = left; right = right } ∷ []) }
        ensures err { OnErr result (self.new ≡ []) }
    {
        self.track.begin((), left, right)
    }

    /// Adds the portal from the last left end to this right end where a line splits its ends and all others; where none
    /// does, the list stays as it was, and stuck ends show it.
    // in line, since a walk does this or the other at each node
    #[inline(always)]
    pub fn by_new_right(&mut self, left: Pt, right: Pt) -> Result<Passed, Memory>
        requires last { HasLastLeft self.old left }
        requires room { length self.old < RIGHT_END }
        requires proper { left ≢ right }
        ensures { IsPortalPassed self.old (record { left = left; right = right }) self.new result }
    {
        match self.track.by_new_right((), left, right)? {
            Told::Open => Ok(Passed::Open),
            Told::Stuck(evidence) => Ok(Passed::Stuck(evidence)),
            Told::Unseen => self.track.by_search((), left, right),
        }
    }

    /// The same from this left end to the last right end.
    #[inline(always)]
    pub fn by_new_left(&mut self, left: Pt, right: Pt) -> Result<Passed, Memory>
        requires last { HasLastRight self.old right }
        requires room { length self.old < RIGHT_END }
        requires proper { left ≢ right }
        ensures { IsPortalPassed self.old (record { left = left; right = right }) self.new result }
    {
        match self.track.by_new_left((), left, right)? {
            Told::Open => Ok(Passed::Open),
            Told::Stuck(evidence) => Ok(Passed::Stuck(evidence)),
            Told::Unseen => self.track.by_search((), left, right),
        }
    }

    /// Takes the portals behind the first ones away.
    #[inline(always)]
    pub fn cut(&mut self, count: usize)
        requires { count ≤ length self.old }
        ensures { self.new ≡ take count self.old }
    {
        self.track.cut(count);
    }

    /// A line that splits the ends. |a| and |b| are at most 2^30, |c| is at most 2^57.
    pub fn line(&self) -> (i32, i32, i64)
        requires there { 0 < length self.now }
        ensures splits { SplitsEnds self.now result.0 result.1 result.2 }
        ensures range { IsLineInRange result.0 result.1 result.2 }
    {
        self.track.line()
    }
}
