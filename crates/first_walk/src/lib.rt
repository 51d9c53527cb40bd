//! The first walk of a build that decides every pair: rays for pairs of groups, by what is known so far of what each group sees.
//!
//! Nothing is proved of what it finds: each ray is judged before it counts, and what it misses the rounds behind it find.
#![tactic(auto)]

mod bars;
mod by_pairs;
mod first;
mod floods;
mod known;
mod pairs;
mod searchers;
mod turned;

pub use first::first_rays;
pub use floods::{Floods, Part};
pub use known::Known;
pub use searchers::Searchers;
pub use turned::toward;
