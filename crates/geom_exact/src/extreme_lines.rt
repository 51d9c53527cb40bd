//! The extreme ones of the lines from right ends to left ends, by which a line splits the ends or none does.
//!
//! All arithmetic is exact: coordinates have 16 bits, so differences have 17, products of two 34.

mod arith;
pub mod cone;
pub mod cut;
pub mod extreme;
pub mod wedge;
pub mod widen;

pub use cone::Cone;
pub use cut::Cut;
pub use extreme::Extreme;
pub use wedge::Wedge;
pub use widen::{widen_first, widen_second};
