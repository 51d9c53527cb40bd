//! Ends of one side, in order, with how a look at all of them goes back from each to the next: ends between two others on one
//! line needn't be looked at, so that a straight row of many portals has few ends to look at.

ghost use Rattle.std.specs.Prelude.{◌≡◌, ◌≤◌, ◌<◌, ◌^◌, ◌++◌, ◌∷◌, [], ◌-ℤ◌, ◌*ℤ◌, take, length, unsigned_abs, OnOk, OnErr, IsTrue};
ghost use Rattle.stab_hull.specs.Chains.{HasChainSteps, LiesBetween, kept_ends};

use sight_names::{EndAt, Memory, Pt};
use std::alloc::Global;
use std::marker::Model;

/// Behind so many ends there are steps of more than one place; a look at fewer is soon done.
const FEW: usize = 32;

/// The longest step, in places.
const LONGEST: u16 = 65_535;

/// An end, and how many places a look goes back from it to the next one. All between lie between these two.
#[derive(Clone, Copy)]
pub struct Kept {
    pub end: EndAt,
    pub step: u16,
}

/// The ends.
#[derive(Drop)]
pub struct Chain {
    kept: Vec<Kept>,
}

impl Model for Chain {
    ghost use Rattle.std.specs.Prelude.{List};
    ghost use Rattle.sight_names.specs.declared.names.EndAt.{EndAt as End};

    ghost Value = { List End };

    ghost use Rattle.stab_hull.specs.Chains.{HasChainSteps, kept_ends};

    ghost view = { λ s. kept_ends s.kept.items };

    ghost invariant = { λ s. HasChainSteps s.kept.items };
}

/// The way from `a` to `b`.
fn difference(a: i32, b: i32) -> i64
    requires from { unsigned_abs a ≤ 2 ^ 25 }
    requires to { unsigned_abs b ≤ 2 ^ 25 }
    ensures value { result ≡ b -ℤ a }
    ensures bound { unsigned_abs result ≤ 2 ^ 26 }
{
    b as i64 - a as i64
}

/// `a * b`, of two such ways.
fn product(a: i64, b: i64) -> i64
    requires left { unsigned_abs a ≤ 2 ^ 26 }
    requires right { unsigned_abs b ≤ 2 ^ 26 }
    ensures value { result ≡ a *ℤ b }
    ensures bound { unsigned_abs result ≤ 2 ^ 52 }
{
    a * b
}

/// Whether the second point lies between the first and the third, on one line.
fn is_between(a: Pt, b: Pt, c: Pt) -> bool
    ensures { IsTrue result → LiesBetween a b c }
{
    let ax = difference(a.x, b.x);
    let ay = difference(a.y, b.y);
    let bx = difference(b.x, c.x);
    let by = difference(b.y, c.y);
    let turn = product(ax, by);
    let back = product(ay, bx);
    if turn != back {
        return false;
    }
    let along = product(ax, bx);
    let rise = product(ay, by);
    along + rise >= 0
}

/// Steps from the last end over the one before it, where that lies between the last and the one that it steps to.
#[inline(never)]
fn mend(kept: &mut Vec<Kept>)
    requires many { 1 < length kept.old.items }
    requires steps { HasChainSteps kept.old.items }
    ensures steps { HasChainSteps kept.new.items }
    ensures ends { kept_ends kept.new.items ≡ kept_ends kept.old.items }
{
    let last = kept.len() - 1;
    let under = last - 1;
    let step = kept[under].step;
    if step < LONGEST && step as usize <= under {
        let new = kept[last].end.at;
        if is_between(kept[under - step as usize].end.at, kept[under].end.at, new) {
            kept[last].step = step + 1;
        }
    }
}

impl Chain {
    /// No end.
    pub fn new(alloc: Global) -> Chain
        ensures { result ≡ [] }
    {
        Chain {
            kept: Vec::new(alloc),
        }
    }

    /// The number of ends.
    #[inline(always)]
    pub fn len(&self) -> usize
        ensures { result ≡ length self.now }
    {
        self.kept.len()
    }

    /// The ends with their steps.
    #[inline(always)]
    pub fn as_slice(&self) -> &[Kept]
        ensures steps { HasChainSteps result.now }
        ensures ends { kept_ends result.now ≡ self.now }
    {
        self.kept.as_slice()
    }

    /// Adds an end, with the room that it needs.
    // the step is written behind the end, since the end then goes there at once
    #[inline(always)]
    pub fn push(&mut self, end: EndAt) -> Result<(), Memory>
        ensures ok { OnOk result (self.new ≡ self.old ++ end ∷ []) }
        ensures err { OnErr result (self.new ≡ self.old) }
    {
        self.kept.reserve(1)?;
        self.kept.push_reserved(Kept { end, step: 1 });
        if self.kept.len() > FEW {
            mend(&mut self.kept);
        }
        Ok(())
    }

    /// Takes all ends away.
    pub fn clear(&mut self)
        ensures { self.new ≡ [] }
    {
        self.kept.clear();
    }

    /// Takes the ends behind the first ones away.
    #[inline(always)]
    pub fn truncate(&mut self, count: usize)
        ensures { self.new ≡ take count self.old }
    {
        self.kept.truncate(count);
    }
}
