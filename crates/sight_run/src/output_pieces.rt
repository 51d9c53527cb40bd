//! Outputs stored piece by piece, so that none of them stands in memory a second time.

mod report;
mod spellable;
mod spelling;

pub use report::store_report;
pub use spellable::Spellable;
pub use spelling::store_spelling;
