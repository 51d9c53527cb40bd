//! A budget that is enough: no walk from a sector has more sequences, so nothing is listed. And how many each has.

pub mod budget;
pub mod laws;
pub mod needs;

pub use budget::enough;
pub use laws::enough_laws;
pub use needs::{most, need};
