//! The numbers that words spell, exactly. A number has at most 30 bytes, so 128 bits hold all of it.

mod decimal;
mod digits;
mod whole;

pub use decimal::{Decimal, decimal_number};
pub use whole::whole_number;
