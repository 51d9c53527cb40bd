//! A worker, and what it has done so far.

ghost use Rattle.std.specs.Prelude.{ℕ, ◌<◌, All, [], ◌≡◌};

use crate::tasks::Tasks;
use sight_names::Memory;
use std::alloc::Global;
use std::sync::atomic::{AtomicUsize, Ordering};

/// What was made of the task with this number.
#[derive(Drop)]
pub struct Numbered<D> {
    pub number: usize,
    pub done: D,
}

/// A worker with its tools, what it has done, and the refusal where memory ran out.
#[derive(Drop)]
pub struct Hand<S, D> {
    pub tools: S,
    pub done: Vec<Numbered<D>>,
    pub starved: Option<Memory>,
}

/// A worker that has done nothing yet.
pub fn new_hand<T: Tasks>(alloc: Global, tasks: &T) -> Hand<T::Tools, T::Done>
    ensures { result.done.items ≡ [] }
{
    Hand {
        tools: tasks.tools(alloc),
        done: Vec::new(alloc),
        starved: None,
    }
}

/// Does the task with this number.
fn do_task<T: Tasks>(
    alloc: Global,
    tasks: &T,
    number: usize,
    hand: &mut Hand<T::Tools, T::Done>,
) -> Result<(), Memory>
    requires can { T.can_do tasks.now number }
    requires done { All (λ n. T.is_done tasks.now n.number n.done) hand.old.done.items }
    ensures { All (λ n. T.is_done tasks.now n.number n.done) hand.new.done.items }
{
    let done = tasks.work(alloc, &mut hand.tools, number)?;
    hand.done.push(Numbered { number, done })?;
    Ok(())
}

/// Does a task that nobody has drawn. False where none is left, or memory ran out.
fn turn<T: Tasks>(
    alloc: Global,
    tasks: &T,
    count: usize,
    next: &AtomicUsize,
    hand: &mut Hand<T::Tools, T::Done>,
) -> bool
    requires can { (i : ℕ) → i < count → T.can_do tasks.now i }
    requires done { All (λ n. T.is_done tasks.now n.number n.done) hand.old.done.items }
    ensures { All (λ n. T.is_done tasks.now n.number n.done) hand.new.done.items }
{
    let number = next.fetch_add(1, Ordering::SeqCst);
    if number >= count {
        return false;
    }
    match do_task(alloc, tasks, number, hand) {
        Ok(()) => true,
        Err(memory) => {
            hand.starved = Some(memory);
            false
        }
    }
}

/// Draws tasks and does them until none is left, or memory runs out.
pub fn labour<T: Tasks>(
    alloc: Global,
    tasks: &T,
    count: usize,
    next: &AtomicUsize,
    hand: &mut Hand<T::Tools, T::Done>,
)
    requires can { (i : ℕ) → i < count → T.can_do tasks.now i }
    requires done { All (λ n. T.is_done tasks.now n.number n.done) hand.old.done.items }
    ensures { All (λ n. T.is_done tasks.now n.number n.done) hand.new.done.items }
{
    for _ in 0..count {
        if !turn(alloc, tasks, count, next, hand) {
            return;
        }
    }
}
