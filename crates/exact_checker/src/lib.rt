//! A REJECT table judged by a certificate of version 3, which lists no pair: yes only where the table tells of each
//! two sectors whether they see each other.
//!
//! The certificate is of the map of groups. Two groups are joined where they are one, or a ray is for them; of all
//! others that passable lines connect it claims that they don't see each other. The tree of each group keeps from
//! those that it owns, by rows that the masks of gates thin out. A bit is to be set exactly where no groups of the
//! two sectors are joined.
#![tactic(auto)]

pub mod exact_workers;
mod joining;
mod judge;
mod masking;
mod owning;
mod pairs;
mod ranking;
mod trees;

pub use joining::{joined_rows, words_of};
pub use judge::{check_exact, check_exact_by, judge_sectors};
pub use masking::{EdgeMasks, edge_masks};
pub use owning::{Owning, owned_row};
pub use ranking::ranks_of;
pub use trees::{OneJudge, TreeJudges, WrongNode};
