//! Who searches.

ghost use denote.Param.Send.{IsSync};

use crate::floods::{Floods, Part};
use line_search::{Searched, Seeds, Tracks, WantedWalks};
use sight_names::Memory;
use std::alloc::Global;
use std::thread::Threads;
use task_crew::{Alone, InThreads, Stage, in_turn, shared, shared_told};

/// Those who search. What they give doesn't depend on who they are.
pub trait Searchers {
    /// Whether they can search: threads share what all of them may look at.
    ghost can_search: { Self → Type 0 };

    /// The lines through the gates of each task.
    fn sow(&self, alloc: Global, seeds: &Seeds<'_>) -> Result<Vec<Tracks>, Memory>
        requires can { can_search self.now };

    /// The floods of the gates in each part.
    fn flood(&self, alloc: Global, floods: &Floods<'_>) -> Result<Vec<Part>, Memory>
        requires can { can_search self.now };

    /// What each of these searches finds.
    fn walk_wanted(&self, alloc: Global, walks: &WantedWalks<'_>) -> Result<Vec<Searched>, Memory>
        requires can { can_search self.now };
}

impl Searchers for Alone {
    ghost can_search = { λ w. Unit {0} };

    fn sow(&self, alloc: Global, seeds: &Seeds<'_>) -> Result<Vec<Tracks>, Memory> {
        in_turn(alloc, seeds, seeds.numbers.len())
    }

    fn flood(&self, alloc: Global, floods: &Floods<'_>) -> Result<Vec<Part>, Memory> {
        in_turn(alloc, floods, floods.known.parts())
    }

    fn walk_wanted(&self, alloc: Global, walks: &WantedWalks<'_>) -> Result<Vec<Searched>, Memory> {
        in_turn(alloc, walks, walks.sought.len())
    }
}

impl<'a, R: Threads + Sync> Searchers for InThreads<'a, R> {
    ghost can_search = { λ w. IsSync R.row };

    fn sow(&self, alloc: Global, seeds: &Seeds<'_>) -> Result<Vec<Tracks>, Memory> {
        let count = seeds.numbers.len();
        shared(self.rt, alloc, seeds, count, usize::from(self.workers))
    }

    fn flood(&self, alloc: Global, floods: &Floods<'_>) -> Result<Vec<Part>, Memory> {
        let count = floods.known.parts();
        shared(self.rt, alloc, floods, count, usize::from(self.workers))
    }

    fn walk_wanted(&self, alloc: Global, walks: &WantedWalks<'_>) -> Result<Vec<Searched>, Memory> {
        let count = walks.sought.len();
        shared_told(
            self.rt,
            alloc,
            walks,
            count,
            self.workers,
            self.watcher,
            Stage::Searches,
        )
    }
}
