//! A table judged by a certificate of version 3 whose trees are judged in threads. The verdict is the one that `exact_checker`
//! gives.

mod check;
mod judging;

pub use check::check_exact_par;
pub use judging::source_of;
