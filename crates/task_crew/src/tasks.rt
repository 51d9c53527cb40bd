//! Work in numbered tasks.

ghost use Rattle.std.specs.Prelude.{ℕ, IfOk};

use sight_names::Memory;
use std::alloc::Global;

/// Work in numbered tasks, of which any worker can do any. What is made of a task is to depend on its number alone.
pub trait Tasks: Sync {
    /// What a worker has for itself and uses again from task to task, as buffers.
    type Tools: Send + Drop;

    /// What is made of a task.
    type Done: Send + Drop;

    /// Whether there is a task with this number.
    ghost can_do: { Self → ℕ → Type 0 };

    /// Whether this may be made of the task with this number.
    ghost is_done: { Self → ℕ → Self.Done → Type 0 };

    /// The tools of one worker.
    fn tools(&self, alloc: Global) -> Self::Tools;

    /// Does the task with this number.
    fn work(
        &self,
        alloc: Global,
        tools: &mut Self::Tools,
        number: usize,
    ) -> Result<Self::Done, Memory>
        requires { can_do self.now number }
        ensures { IfOk result (is_done self.now number) };
}
