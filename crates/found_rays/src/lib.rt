//! Rays for pairs of groups that a search found: one for each pair, in the order of their pairs, on few lines, and judged. What a
//! search found counts only once it is judged to be a sight ray.
#![tactic(auto)]

pub mod judged;
mod judges;
mod lines;
mod ray_parts;
mod rays;

pub use judges::RayJudges;
pub use ray_parts::RayParts;
pub use rays::in_order;
