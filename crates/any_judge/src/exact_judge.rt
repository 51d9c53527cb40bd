//! A REJECT table judged by a certificate of version 3 whose bytes come in pieces. No tree is kept: each node is judged
//! as it comes, by the row of what its group owns.

mod ground;
mod intake;
mod judging;
mod stage;
mod trees;

pub use intake::Intake;
