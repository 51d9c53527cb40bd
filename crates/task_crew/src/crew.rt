//! Who does tasks.

ghost use Rattle.std.specs.Prelude.{ℕ, ◌<◌, All, IfOk, length};
ghost use Rattle.task_crew.specs.Done.{AreTasksDone, Stand};

use crate::hand::{Hand, labour, new_hand};
use crate::slots::{empty, in_order, put_all};
use crate::tasks::Tasks;
use sight_names::Memory;
use std::alloc::Global;
use std::sync::atomic::AtomicUsize;
use std::thread;
use std::thread::Threads;

/// Does so many tasks one after another.
pub fn in_turn<T: Tasks>(alloc: Global, tasks: &T, count: usize) -> Result<Vec<T::Done>, Memory>
    requires { (i : ℕ) → i < count → T.can_do tasks.now i }
    ensures { IfOk result (λ v. AreTasksDone (T.is_done tasks.now) count v.items) }
{
    let mut tools = tasks.tools(alloc);
    let mut all = Vec::new(alloc);
    for number in 0..count {
        all.push(tasks.work(alloc, &mut tools, number)?)?;
    }
    Ok(all)
}

/// A hand for each of so many workers.
fn hands_of<T: Tasks>(
    alloc: Global,
    tasks: &T,
    workers: usize,
) -> Result<Vec<Hand<T::Tools, T::Done>>, Memory>
    ensures { IfOk result (λ v. All (λ h. All (λ n. T.is_done tasks.now n.number n.done) h.done.items) v.items) }
{
    let mut hands = Vec::new(alloc);
    for _ in 0..workers {
        hands.push(new_hand(alloc, tasks))?;
    }
    Ok(hands)
}

/// Each hand works in a thread.
fn set_to_work<R: Threads + Sync, T: Tasks>(
    rt: &R,
    alloc: Global,
    tasks: &T,
    count: usize,
    hands: &mut [Hand<T::Tools, T::Done>],
)
    requires can { (i : ℕ) → i < count → T.can_do tasks.now i }
    requires done { All (λ h. All (λ n. T.is_done tasks.now n.number n.done) h.done.items) hands.old }
    ensures { All (λ h. All (λ n. T.is_done tasks.now n.number n.done) h.done.items) hands.new }
{
    let threads = hands.len();
    if threads == 0 {
        return;
    }
    let next = AtomicUsize::new(0);
    thread::for_each_mut(
        rt,
        hands,
        threads,
        &|_, hand: &mut Hand<T::Tools, T::Done>|
            requires { ((i : ℕ) → i < count → T.can_do tasks.now i) × All (λ n. T.is_done tasks.now n.number n.done) hand.old.done.items }
            ensures { All (λ n. T.is_done tasks.entry.now n.number n.done) hand.new.done.items }
        { labour(alloc, tasks, count, &next, hand) },
    );
}

/// What all hands have done, each at its place.
fn gather<T: Tasks>(
    alloc: Global,
    tasks: &T,
    count: usize,
    mut hands: Vec<Hand<T::Tools, T::Done>>,
) -> Result<Vec<Option<T::Done>>, Memory>
    requires { All (λ h. All (λ n. T.is_done tasks.now n.number n.done) h.done.items) hands.items }
    ensures { IfOk result (λ v. Stand (T.is_done tasks.now) v.items) }
{
    let mut slots = empty(alloc, tasks, count)?;
    'hands: while let Some(hand) = hands.pop() {
        if let Some(memory) = hand.starved {
            return Err(memory);
        }
        put_all(tasks, slots.as_mut_slice(), hand.done);
    }
    Ok(slots)
}

/// Does so many tasks by so many workers, each in a thread where one can be had.
pub fn shared<R: Threads + Sync, T: Tasks>(
    rt: &R,
    alloc: Global,
    tasks: &T,
    count: usize,
    workers: usize,
) -> Result<Vec<T::Done>, Memory>
    requires { (i : ℕ) → i < count → T.can_do tasks.now i }
    ensures { IfOk result (λ v. AreTasksDone (T.is_done tasks.now) count v.items) }
{
    let mut hands = hands_of(alloc, tasks, workers.min(count))?;
    set_to_work(rt, alloc, tasks, count, hands.as_mut_slice());
    let mut slots = gather(alloc, tasks, count, hands)?;
    in_order(alloc, tasks, slots.as_mut_slice(), count)
}
