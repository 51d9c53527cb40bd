//! The answer for two sectors: whether they see each other, within a budget, by the walks of their groups alone.
//!
//! It is what a build with the same budget says of the pair.
#![tactic(auto)]

mod answer;
mod answering;
mod between;
pub mod entered_triangles;
mod ground;
pub mod laws;
mod places;
mod seeker;
mod walks;
pub mod why_answers;

pub use answer::PairAnswer;
pub use answering::{budget_for, pair_answer};
pub use places::places_of;
