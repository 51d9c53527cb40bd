//! What `why` says of two sectors of a map: whether they see each other within a budget, and by which ray.

pub mod laws;
mod lines;
mod said;

pub use lines::push_ray;
pub use said::judge_why;
