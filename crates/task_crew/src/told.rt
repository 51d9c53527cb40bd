//! Tasks that somebody watches.

ghost use Rattle.std.specs.Prelude.{ℕ, ◌<◌, IfOk};
ghost use Rattle.task_crew.specs.Done.{AreTasksDone};

use crate::crew::shared;
use crate::steps::{Stage, Watcher};
use crate::tasks::Tasks;
use sight_names::Memory;
use std::alloc::Global;
use std::sync::atomic::{AtomicUsize, Ordering};
use std::thread::Threads;

/// So many tasks, how many of them are done, and who is told.
#[derive(Drop)]
pub struct Told<'a, T> {
    tasks: &'a T,
    watcher: Option<&'a Watcher>,
    stage: Stage,
    of: usize,
    done: AtomicUsize,
}

impl<'a, T> Told<'a, T> {
    // Tells that another one is done.
    fn tell(&self) {
        if let Some(watcher) = self.watcher {
            let before = self.done.fetch_add(1, Ordering::SeqCst);
            watcher
                .steps
                .step(self.stage, before.wrapping_add(1), self.of);
        }
    }
}

impl<'a, T: Tasks> Tasks for Told<'a, T> {
    type Tools = T::Tools;

    type Done = T::Done;

    ghost can_do = { λ w i. T.can_do w.tasks.now i };

    ghost is_done = { λ w i made. T.is_done w.tasks.now i made };

    fn tools(&self, alloc: Global) -> T::Tools {
        self.tasks.tools(alloc)
    }

    fn work(&self, alloc: Global, tools: &mut T::Tools, number: usize) -> Result<T::Done, Memory> {
        let made = self.tasks.work(alloc, tools, number)?;
        self.tell();
        Ok(made)
    }
}

/// Does so many tasks by so many workers, each in a thread where one can be had, and tells of each.
pub fn shared_told<R: Threads + Sync, T: Tasks>(
    rt: &R,
    alloc: Global,
    tasks: &T,
    count: usize,
    workers: u16,
    watcher: Option<&Watcher>,
    stage: Stage,
) -> Result<Vec<T::Done>, Memory>
    requires { (i : ℕ) → i < count → T.can_do tasks.now i }
    ensures { IfOk result (λ v. AreTasksDone (T.is_done tasks.now) count v.items) }
{
    let told = Told {
        tasks,
        watcher,
        stage,
        of: count,
        done: AtomicUsize::new(0),
    };
    shared(rt, alloc, &told, count, usize::from(workers))
}
