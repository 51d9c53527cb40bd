//! A portal, and how much of the stacks is of the portals up to it.

use sight_names::Pt;

/// The ends of a portal, and how many left ends, right ends and cones are stacked of the portals up to this one.
#[derive(Clone, Copy)]
pub struct Frame {
    pub left: Pt,
    pub right: Pt,
    pub lefts: usize,
    pub rights: usize,
    pub cones: usize,
}

/// A portal with what is noted of it by whoever goes through it, so that one list has both.
#[derive(Clone, Copy)]
pub struct Noted<N> {
    pub frame: Frame,
    pub note: N,
}
