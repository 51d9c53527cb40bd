//! The portals that a walk has gone through, each with an end of the one before.

ghost use Rattle.std.specs.Prelude.{◌≡◌, ◌≢◌, ◌<◌, ◌≤◌, [], MatchOption, length, take};
ghost use Rattle.sight_names.specs.Splitting.{SplitsEnds};
ghost use Rattle.stab_hull.specs.Answer.{IsLineInRange, IsPortalPassed};
ghost use Rattle.stab_hull.specs.Sleeves.{HasLastLeft, HasLastRight};
ghost use Rattle.row_trees.specs.Path.{HasEndOfLast};

use sight_names::{Memory, Pt, RIGHT_END};
use stab_hull::{Passed, Told, Track};
use std::alloc::Global;
use std::marker::Model;

/// Portals that a line passes.
#[derive(Drop)]
pub struct Path {
    track: Track<()>,
}

impl Model for Path {
    ghost use Rattle.std.specs.Prelude.{List};
    ghost use Rattle.sight_names.specs.Splitting.{EndPoints};
    ghost use Rattle.stab_hull.specs.Sleeves.{IsTrack, ends_of_track};

    ghost Value = { List EndPoints };

    ghost view = { λ p. ends_of_track p.track };

    ghost invariant = { λ p. IsTrack p.track };
}

impl Path {
    /// No portal.
    pub fn new(alloc: Global) -> Path
        ensures { result ≡ [] }
    {
        Path {
            track: Track::new(alloc),
        }
    }

    /// The left end of the last portal, if there is one.
    #[inline(always)]
    fn last_left(&self) -> Option<Pt>
        ensures { MatchOption result (self.now ≡ []) (HasLastLeft self.now) }
    {
        match self.track.portals.as_slice().last() {
            Some(last) => Some(last.frame.left),
            None => None,
        }
    }

    /// Adds the portal from the last left end to this right end, as `pass` does.
    // what comes of it is taken apart at once: it needn't stand in memory
    #[inline(always)]
    fn by_new_right(&mut self, left: Pt, right: Pt) -> Result<Passed, Memory>
        requires last { HasLastLeft self.old left }
        requires proper { left ≢ right }
        requires room { length self.old < RIGHT_END }
        ensures { IsPortalPassed self.old (record { left = left; right = right }) self.new result }
    {
        match self.track.by_new_right((), left, right)? {
            Told::Open => Ok(Passed::Open),
            Told::Stuck(evidence) => Ok(Passed::Stuck(evidence)),
            Told::Unseen => self.track.by_search((), left, right),
        }
    }

    /// The same from this left end to the last right end.
    #[inline(always)]
    fn by_new_left(&mut self, left: Pt, right: Pt) -> Result<Passed, Memory>
        requires last { HasLastRight self.old right }
        requires proper { left ≢ right }
        requires room { length self.old < RIGHT_END }
        ensures { IsPortalPassed self.old (record { left = left; right = right }) self.new result }
    {
        match self.track.by_new_left((), left, right)? {
            Told::Open => Ok(Passed::Open),
            Told::Stuck(evidence) => Ok(Passed::Stuck(evidence)),
            Told::Unseen => self.track.by_search((), left, right),
        }
    }

    /// Takes the portals behind the first ones away.
    #[inline(always)]
    pub fn cut(&mut self, count: usize)
        requires { count ≤ length self.old }
        ensures { self.new ≡ take count self.old }
    {
        // most often none is behind them
        if count == self.track.portals.len() {
            return;
        }
        self.track.cut(count);
    }

    /// Adds a portal that has an end of the last one, where a line splits its ends and all others; where none does, the list
    /// stays as it was, and stuck ends show it.
    #[inline(always)]
    pub fn pass(&mut self, left: Pt, right: Pt) -> Result<Passed, Memory>
        requires proper { left ≢ right }
        requires room { length self.old < RIGHT_END }
        requires joins { HasEndOfLast self.old left right }
        ensures { IsPortalPassed self.old (record { left = left; right = right }) self.new result }
    {
        match self.last_left() {
            None => {
                self.track.begin((), left, right)?;
                Ok(Passed::Open)
            }
            Some(last) => {
                if last == left {
                    self.by_new_right(left, right)
                } else {
                    self.by_new_left(left, right)
                }
            }
        }
    }

    /// A line that splits the ends.
    pub fn line(&self) -> (i32, i32, i64)
        requires there { 0 < length self.now }
        ensures splits { SplitsEnds self.now result.0 result.1 result.2 }
        ensures range { IsLineInRange result.0 result.1 result.2 }
    {
        self.track.line()
    }
}
