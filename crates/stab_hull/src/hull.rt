//! The distinct ends of portals that a line may come to, and their cones.

ghost use Rattle.std.specs.Prelude.{◌≡◌, ◌++◌, ◌∷◌, [], length, take, IsTrue, IfOk, MatchOption, ◌≢◌};
ghost use Rattle.stab_hull.specs.Chains.{kept_ends};
ghost use Rattle.stab_hull.specs.Stacks.{HasPoint, IsEndAdded, IsTopCone, AreStuckAmong, KeepsFirst};

use crate::chain::{Chain, Kept};
use crate::frame::Frame;
use crate::step::{Step, left_step, right_step};
use geom_exact::extreme_lines::{Cone, Extreme};
use sight_names::{EndAt, EndPair, Memory, Pt};

/// The ends of portals, without those that repeat the point of the one before and those that another one covers, and the
/// cones of the ends so far.
#[derive(Drop)]
pub struct Hull {
    pub lefts: Chain,
    pub rights: Chain,
    pub cones: Vec<Cone>,
}

/// Whether the last end is at this point.
fn repeats(ends: &[Kept], at: Pt) -> bool
    ensures { IsTrue result → HasPoint (kept_ends ends.now) at }
{
    match ends.last() {
        Some(kept) => kept.end.at == at,
        None => false,
    }
}

/// The frame of a portal whose ends are the last ones on the stacks.
#[inline(always)]
pub fn frame_over(hull: &Hull, left: Pt, right: Pt) -> Frame
    ensures { result ≡ record { left = left; right = right; lefts = length hull.now.lefts; rights = length hull.now.rights; cones = length hull.now.cones.items } }
{
    Frame {
        left,
        right,
        lefts: hull.lefts.len(),
        rights: hull.rights.len(),
        cones: hull.cones.len(),
    }
}

impl Hull {
    /// Has the ends of one portal alone.
    pub fn begin(&mut self, left: EndAt, right: EndAt) -> Result<(), Memory>
        requires proper { left.at ≢ right.at }
        ensures lefts { IfOk result (λ _. self.new.lefts ≡ left ∷ []) }
        ensures rights { IfOk result (λ _. self.new.rights ≡ right ∷ []) }
        ensures cone { IfOk result (λ _. IsTopCone (left ∷ []) (right ∷ []) self.new.cones.items) }
    {
        self.lefts.clear();
        self.rights.clear();
        self.cones.clear();
        self.lefts.push(left)?;
        self.rights.push(right)?;
        self.cones.push(Cone::Ray(Extreme::through(left, right)))?;
        Ok(())
    }

    /// Adds a left end, or gives the pairs that show that no line splits it and the others.
    fn add_left(&mut self, left: EndAt) -> Result<Option<[EndPair; 3]>, Memory>
        requires top { IsTopCone self.old.lefts self.old.rights self.old.cones.items }
        ensures lefts { KeepsFirst (length self.old.lefts) self.old.lefts self.new.lefts }
        ensures rights { self.new.rights ≡ self.old.rights }
        ensures cones { KeepsFirst (length self.old.cones.items) self.old.cones.items self.new.cones.items }
        ensures free { IfOk result (λ stuck. MatchOption stuck (IsTopCone self.new.lefts self.old.rights self.new.cones.items × IsEndAdded self.old.lefts left self.new.lefts) (λ pairs. AreStuckAmong (self.old.lefts ++ left ∷ []) self.old.rights pairs)) }
    {
        if repeats(self.lefts.as_slice(), left.at) {
            return Ok(None);
        }
        let cone = &self.cones[self.cones.len() - 1];
        match left_step(cone, self.rights.as_slice(), left) {
            Step::Same => {}
            Step::Wider(wider) => self.cones.push(wider)?,
            Step::Stuck(pairs) => return Ok(Some(pairs)),
        }
        self.lefts.push(left)?;
        Ok(None)
    }

    /// Adds a right end, or gives the pairs that show that no line splits it and the others.
    fn add_right(&mut self, right: EndAt) -> Result<Option<[EndPair; 3]>, Memory>
        requires top { IsTopCone self.old.lefts self.old.rights self.old.cones.items }
        ensures lefts { self.new.lefts ≡ self.old.lefts }
        ensures rights { KeepsFirst (length self.old.rights) self.old.rights self.new.rights }
        ensures cones { KeepsFirst (length self.old.cones.items) self.old.cones.items self.new.cones.items }
        ensures free { IfOk result (λ stuck. MatchOption stuck (IsTopCone self.old.lefts self.new.rights self.new.cones.items × IsEndAdded self.old.rights right self.new.rights) (λ pairs. AreStuckAmong self.old.lefts (self.old.rights ++ right ∷ []) pairs)) }
    {
        if repeats(self.rights.as_slice(), right.at) {
            return Ok(None);
        }
        let cone = &self.cones[self.cones.len() - 1];
        match right_step(cone, self.lefts.as_slice(), right) {
            Step::Same => {}
            Step::Wider(wider) => self.cones.push(wider)?,
            Step::Stuck(pairs) => return Ok(Some(pairs)),
        }
        self.rights.push(right)?;
        Ok(None)
    }

    /// Adds the ends of one more portal, or gives the pairs that show that no line splits all ends.
    pub fn add(&mut self, left: EndAt, right: EndAt) -> Result<Option<[EndPair; 3]>, Memory>
        requires top { IsTopCone self.old.lefts self.old.rights self.old.cones.items }
        ensures lefts { KeepsFirst (length self.old.lefts) self.old.lefts self.new.lefts }
        ensures rights { KeepsFirst (length self.old.rights) self.old.rights self.new.rights }
        ensures cones { KeepsFirst (length self.old.cones.items) self.old.cones.items self.new.cones.items }
        ensures free { IfOk result (λ stuck. MatchOption stuck (IsTopCone self.new.lefts self.new.rights self.new.cones.items × IsEndAdded self.old.lefts left self.new.lefts × IsEndAdded self.old.rights right self.new.rights) (λ pairs. AreStuckAmong (self.old.lefts ++ left ∷ []) (self.old.rights ++ right ∷ []) pairs)) }
    {
        match self.add_left(left)? {
            Some(pairs) => Ok(Some(pairs)),
            None => self.add_right(right),
        }
    }

    /// Drops what is of the portals behind that of the frame.
    #[inline(always)]
    pub fn cut(&mut self, frame: &Frame)
        ensures lefts { self.new.lefts ≡ take frame.now.lefts self.old.lefts }
        ensures rights { self.new.rights ≡ take frame.now.rights self.old.rights }
        ensures cones { self.new.cones.items ≡ take frame.now.cones self.old.cones.items }
    {
        self.lefts.truncate(frame.lefts);
        self.rights.truncate(frame.rights);
        self.cones.truncate(frame.cones);
    }
}
