//! A tree judged in one pass, node by node, by a row of what is left to be kept from: behind a gate the row is thinned
//! out by the gate's mask, a way behind which nothing would be left isn't asked, and no open node enters what the row
//! still has. A whole tree is the one that would be judged with a row that no mask thins out.

mod follow;
mod judge;
mod masks;
mod walk;
pub mod words;

pub use follow::{RowFollow, Wait, next_asked};
pub use judge::judge_by_rows;
pub use masks::{Masks, leaves};
pub use walk::{Followed, RowWalk};
