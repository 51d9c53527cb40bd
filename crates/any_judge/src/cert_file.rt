//! The certificate in a file, judged while it is read in pieces, so that its bytes never stand in memory whole.

mod file;

pub use file::judge_file;
