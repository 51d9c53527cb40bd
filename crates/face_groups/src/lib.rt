//! Faces with several names: the groups of sectors that the faces of a mesh belong to, and the map of groups.
//!
//! A face whose sides name different sectors belongs to all of them. Its group is the ascending list of these; the map of
//! groups has the same lines, its sectors are the groups, and each side names the group of its face.
#![tactic(auto)]

mod fault;
mod grouping;
pub mod groups_base;
mod lists;
mod named_faces;
mod namings;
mod numbering;
mod regrouping;
mod short_list;
pub mod tri_sectors;

pub use fault::GroupFault;
pub use grouping::{Grouped, group_map};
pub use lists::{Group, faces};
pub use regrouping::regrouped_map;
pub use short_list::ShortList;
