//! The trees of a certificate judged: each node is asked of a walk through the certificate's own triangles.

mod hearing;
mod judge;
mod marks;
mod roots;
mod stepping;
mod steps;
mod trees;
mod walk;

pub use hearing::TreeJudge;
pub use judge::{
    OneJudge, Reach, TreeJudges, TreeVerdict, judge_part, judge_trees, unmarked, unreached,
};
pub use marks::mark;
pub use roots::Roots;
pub use trees::{Frame, Terrain, is_blocked, make_room, put};
