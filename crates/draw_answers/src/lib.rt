//! Pictures of a map that was read: the plan, the row of a table, how much each sector sees by it, what a pair of sectors sees, or
//! the faults of the map; each with the line that tells of it.
#![tactic(auto)]

mod audited;
mod drawn;
mod entering;
mod faults;
mod heat;
pub mod laws;
mod lines;
mod pair;
mod plan;
mod row;

pub use drawn::Drawn;
pub use faults::draw_faults;
pub use heat::draw_heat;
pub use pair::draw_pair;
pub use plan::draw_plan;
pub use row::draw_row;
