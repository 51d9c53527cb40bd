//! Four stuck ends by one turn, where it is known what two extreme lines say of a new end.
//!
//! The lines go from `r1` to `l1` and from `r2` to `l2`. A new right end `t` that can't be split from `l1` makes a triangle with `r2`
//! and `l1`: by its sense the segments from `l1` to `l2` and from `r2` to `t` share a point, or the triangle of the three right ends
//! has `l1`. So it is with a new left end that can't be split from `r2`, the other way round.

ghost use Rattle.std.specs.Prelude.{◌∷◌, []};
ghost use Rattle.block_evidence.specs.OneTurn.{AreLines, BarsRight, BarsLeft};
ghost use Rattle.block_evidence.specs.Picked.{Picks};

use crate::Evidence;
use crate::candidates::in_order;
use geom_exact::turn;
use sight_names::{EndAt, EndPair};

/// Four stuck ends of two extreme lines and a new right end that bars what passes between them.
#[inline(always)]
pub fn bar_right(first: EndPair, second: EndPair, new: EndAt) -> Evidence
    requires lines { AreLines first second }
    requires bars { BarsRight first second new }
    ensures { Picks (first.left ∷ first.right ∷ second.left ∷ second.right ∷ new ∷ []) result }
{
    let (a, b, c, d) = if turn(second.right.at, new.at, first.left.at) <= 0 {
        let (a, b) = in_order(first.left, second.left);
        (a, b, second.right.code, new.code)
    } else {
        let (c, d) = in_order(first.right, second.right);
        (first.left.code, c, d, new.code)
    };
    Evidence {
        count: 4,
        ends: [a, b, c, d],
    }
}

/// Four stuck ends of two extreme lines and a new left end that bars what passes between them.
#[inline(always)]
pub fn bar_left(first: EndPair, second: EndPair, new: EndAt) -> Evidence
    requires lines { AreLines first second }
    requires bars { BarsLeft first second new }
    ensures { Picks (first.left ∷ first.right ∷ second.left ∷ second.right ∷ new ∷ []) result }
{
    let (a, b, c, d) = if turn(second.right.at, new.at, first.left.at) <= 0 {
        let (c, d) = in_order(first.right, second.right);
        (first.left.code, new.code, c, d)
    } else {
        let (a, b) = in_order(first.left, second.left);
        (a, b, new.code, second.right.code)
    };
    Evidence {
        count: 4,
        ends: [a, b, c, d],
    }
}
