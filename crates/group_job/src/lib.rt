//! The build of a map with closed faces, by groups of sectors.
//!
//! A face whose sides name several sectors belongs to all of them: its list of sectors is a group. The walks go over the map of
//! groups, and what they show of groups is told of the sectors in them.
#![tactic(auto)]

mod alone;
mod build;
mod certificate;
mod faces;
mod grouped;
mod sectors;
mod walked;

pub use alone::build_table_alone;
pub use build::{GroupBuilt, build_table};
pub use certificate::labelled;
pub use faces::Faces;
pub use grouped::{MapOfGroups, map_of_groups, map_of_groups_by};
