//! Who is told how far a build is.

/// What the walks of a round are made for.
#[derive(Clone, Copy, PartialEq, Eq)]
pub enum Stage {
    /// Rays, which the first walk searches for.
    Searches,
    /// Trees, which show that what has no ray doesn't see.
    Trees,
}

/// It is told how far a build is that decides every pair. It returns, and changes no answer.
pub trait Steps {
    /// The map of this name is next.
    fn begin(&self, name: &str);

    /// Another walk of a round is done, which makes so many of so many. The workers tell it, each in its own thread, so that the
    /// numbers come once each, but in any order.
    fn step(&self, stage: Stage, done: usize, of: usize);

    /// No walk is left, whatever came of the build.
    fn end(&self);
}

/// Who is told, in a box, which all workers may share.
#[derive(Drop)]
pub struct Watcher {
    pub steps: Box<dyn Steps + Send + Sync + Drop>,
}

/// Tells that no walk is left.
pub fn tell_end(watcher: Option<&Watcher>) {
    if let Some(watcher) = watcher {
        watcher.steps.end();
    }
}
