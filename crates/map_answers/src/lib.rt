//! The map of a name in the bytes of a file, and what each order that only puts a line says of it.
#![tactic(auto)]

mod audit;
mod counts;
mod groups;
mod input;
mod need;
mod noise;
mod ray;
pub mod sight_status;
mod sound;
mod trace;

pub use audit::{count_lines, judge_audit};
pub use counts::{Counts, counts_of, push_counts};
pub use groups::{MeshGroups, audit_groups, audit_map};
pub use input::{Input, directory, find_in, lump_of, plan_named, plan_of};
pub use need::judge_need;
pub use noise::{judge_sound, missing};
pub use ray::judge_ray;
pub use sound::audit_lines_of;
pub use trace::judge_trace;
