//! The picture of a map as bytes of SVG: the plan alone, with its faces as a table's row of a sector has them or by counts, with
//! what there is to see of a pair of sectors, or with marks over some lines.
#![tactic(auto)]

mod arrows;
mod chains;
mod crossings;
mod faces;
mod faults;
mod frame;
mod laws;
mod legend;
mod lines;
mod marks;
mod named;
mod pair;
mod picture;
mod rings;
mod scale;
mod sheet;
mod tint;
mod units;
mod words;

pub use arrows::Arrow;
pub use faults::{FaultAt, PointFault};
pub use laws::{
    arrows_are_shown, entered_is_shown, faults_are_shown, heat_is_shown, ids_are_once,
    lines_are_shown, marks_are_shown, pair_is_shown, plan_is_shown, points_are_read_back,
    ray_is_drawn, rings_are_inside, row_is_shown, scale_is_told,
};
pub use named::Named;
pub use pair::Stop;
pub use picture::{
    blind_picture, heat_picture, marked_picture, pair_picture, plan_picture, row_picture,
    sight_picture,
};
pub use rings::Letter;
pub use sheet::Subject;
pub use tint::{Tint, most_of};
