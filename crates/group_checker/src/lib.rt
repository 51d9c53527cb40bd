//! A REJECT table judged by a certificate of version 1 or 2: yes only where no rejected pair sees, and each clear pair
//! that isn't listed does.
//!
//! A certificate of version 2 is of the map of groups: the same lines, and each side names the label of its triangle. Its mesh,
//! rays and trees are judged there. Two sectors see each other where some groups that contain them do.
#![tactic(auto)]

pub mod check_workers;
mod grouping;
mod judge;
mod lists;
mod members;
mod meshes;
mod verdict;

pub use grouping::{GroupedMesh, MeshVerdict, judge_mesh};
pub use judge::{check_any, check_any_by, judge_sectors};
pub use members::members_of;
pub use verdict::{AnyFault, AnyVerdict, any_of};
