//! A table judged by a certificate of version 1 or 2 whose trees are judged in threads. The verdict is the one that
//! `group_checker` gives.

mod check;
mod join;
mod parts;

pub use check::check_any_par;
