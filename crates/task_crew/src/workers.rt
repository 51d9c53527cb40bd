//! Who does tasks. What they give doesn't depend on who they are.

use crate::steps::Watcher;

/// One who works in the thread that calls, and whom nobody watches.
#[derive(Drop)]
pub struct Alone;

/// So many workers, each in a thread where one can be had, and who watches them.
#[derive(Drop)]
pub struct InThreads<'a, R> {
    pub rt: &'a R,
    pub workers: u16,
    pub watcher: Option<&'a Watcher>,
}
