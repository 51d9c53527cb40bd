//! What the workers of a build meet.

use exact_job::Watcher;

/// The gate that the workers of a build within a budget pass, and who watches those of a build that decides every pair, if anybody
/// does.
#[derive(Drop)]
pub struct Hooks<'a, G> {
    pub gate: &'a G,
    pub watcher: Option<&'a Watcher>,
}

impl<'a, G> Hooks<'a, G> {
    /// Tells that the map of this name is next.
    pub fn begin(&self, name: &str) {
        if let Some(watcher) = self.watcher {
            watcher.steps.begin(name);
        }
    }
}
