//! Searches as tasks, since none depends on what another one finds. Nothing is proved of what they find.

ghost use Rattle.std.specs.Prelude.{◌<◌, length};

use crate::scene::Scene;
use crate::scout::{Scout, Search, Searched};
use crate::traces::Trace;
use crate::words::row_with;
use sight_names::Memory;
use std::alloc::Global;
use task_crew::Tasks;

/// A group that is searched from, and what its searches met.
#[derive(Drop)]
pub struct Sought {
    pub group: u16,
    pub trace: Trace,
}

/// Searches from some groups, by rows of what is wanted of each group.
#[derive(Drop)]
pub struct WantedWalks<'a> {
    pub sought: &'a [Sought],
    pub wanted: &'a [u64],
    pub scene: Scene<'a>,
}

impl<'a> Tasks for WantedWalks<'a> {
    type Tools = Scout;

    type Done = Searched;

    ghost can_do = { λ w i. i < length w.sought.now };

    ghost is_done = { λ w i made. Unit {0} };

    fn tools(&self, alloc: Global) -> Scout {
        Scout::new(alloc)
    }

    fn work(&self, alloc: Global, scout: &mut Scout, number: usize) -> Result<Searched, Memory> {
        let sought = &self.sought[number];
        let search = Search {
            scene: &self.scene,
            source: sought.group,
            wanted: row_with(self.wanted, sought.group as usize, self.scene.width),
            before: &sought.trace,
        };
        scout.search(alloc, &search)
    }
}
