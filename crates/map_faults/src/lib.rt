//! All faults of a map, each at its place: the pairs of lines that clash, loose ends, the sides of open faces, gaps in the
//! hull, and torn corners of faces.
#![tactic(auto)]

mod clashes;
mod corners;
mod edge_sides;
mod gaps;
mod loose_ends;
mod open_sides;
mod tears;

pub use clashes::{Clashes, LinePair, MOST_CLASHES, clashes_of, fault_of, in_order};
pub use corners::meeting_of;
pub use gaps::{Gap, gaps_of};
pub use loose_ends::{LooseEnd, loose_ends_of};
pub use open_sides::open_sides_of;
pub use tears::{Tear, tears_of};
