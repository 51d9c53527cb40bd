//! A certificate of version 1 or 2 judged part by part, as it is read: the mesh, what is known of pairs, and one path
//! are kept.
#![tactic(auto)]

pub mod in_order;
mod intake;
mod judged;
mod judging;
mod kept;
mod on_ground;
mod on_mesh;
mod stage;

pub use intake::Intake;
pub use judged::Judged;
pub use judging::Judging;
