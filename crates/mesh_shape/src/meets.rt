//! When two segments meet at ends alone.

ghost use Rattle.std.specs.Prelude.{◌≢◌, ◌↔◌, IsTrue};
ghost use Rattle.sight_names.specs.Sound.{MeetAtEnds};

use geom_exact::{Relation, seg_relation};
use sight_names::Pt;

/// Whether the segments from `p` to `q` and from `r` to `s` have at most one common point, and it is an end of both.
pub fn meet_at_ends(p: Pt, q: Pt, r: Pt, s: Pt) -> bool
    requires first { p ≢ q }
    requires second { r ≢ s }
    ensures { IsTrue result ↔ MeetAtEnds p q r s }
{
    match seg_relation(p, q, r, s) {
        Relation::Apart => true,
        Relation::Overlap => false,
        Relation::Ends => true,
        Relation::Touch => false,
        Relation::Cross => false,
    }
}
