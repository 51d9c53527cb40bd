//! The machine's code.

ghost use Rattle.std.specs.Prelude.{◌≡◌, ◌<◌, ◌≤◌, All, MatchResult, IfOk, length};
ghost use Rattle.pair_budget.specs.BoardCore.Machine.{CanStep, IsPair, after, reply, bits_in, bit_in, start};
ghost use Rattle.pair_budget.specs.declared.board_core.event.Event.TheVariants.{Claim, Mark};
ghost use Rattle.pair_budget.specs.declared.board_core.event.Reply.TheVariants.{Done};

use crate::board_core::event::{Event, Reply};
use crate::board_core::worker_log::{WorkerLog, claim_in, end_in, mark_in};
use sight_names::{Memory, Pair};
use std::alloc::Global;
use std::marker::Model;

/// Which source is next, which pairs are marked, and what each worker did.
#[derive(Drop)]
pub struct Core {
    sectors: u16,
    findable: Vec<Pair>,
    next: u16,
    marked: Vec<Pair>,
    logs: Vec<WorkerLog>,
}

impl Model for Core {
    ghost use Rattle.pair_budget.specs.BoardCore.Machine.{State};

    ghost Value = { State };

    ghost view = { λ c. record { sectors = c.sectors; findable = c.findable.items; next = c.next; marked = c.marked.items; workers = c.logs.items } };
}

/// The bits of the pairs that stand in a bit word.
fn bits_of(sectors: u16, marked: &[Pair], word: u32) -> u64
    ensures { result ≡ bits_in sectors word marked.now }
{
    match marked.split_first() {
        None => 0,
        Some((p, rest)) => bit_of_pair(sectors, p, word) | bits_of(sectors, rest, word),
    }
}

/// The pair's bit, 0 where it stands in another bit word.
fn bit_of_pair(sectors: u16, p: &Pair, word: u32) -> u64
    ensures { result ≡ bit_in sectors word p.now }
{
    let place = u64::from(p.a) * u64::from(sectors) + u64::from(p.b);
    if place / 64 == u64::from(word) {
        1 << place % 64
    } else {
        0
    }
}

impl Core {
    /// Workers that did nothing yet, and pairs that they may mark.
    pub fn new(
        alloc: Global,
        sectors: u16,
        workers: u16,
        findable: Vec<Pair>,
    ) -> Result<Core, Memory>
        requires workers { 1 ≤ workers }
        requires findable { All (IsPair sectors) findable.items }
        ensures { IfOk result (λ c. c ≡ start sectors workers findable.items) }
    {
        let mut logs = Vec::new(alloc);
        for _ in 0..workers {
            logs.push(WorkerLog::new(alloc))?;
        }
        Ok(Core {
            sectors,
            findable,
            next: 0,
            marked: Vec::new(alloc),
            logs,
        })
    }

    /// One event of a worker that hasn't ended. After `Memory` nothing changed.
    pub fn step(&mut self, event: Event) -> Result<Reply, Memory>
        requires can { CanStep self.old event }
        ensures { MatchResult result (λ r. (r ≡ reply self.old event) × (self.new ≡ after self.old event)) (λ _. self.new ≡ self.old) }
    {
        match event {
            Event::Claim { worker } => self.claim(worker),
            Event::Look { worker: _, word } => {
                Ok(Reply::Bits(bits_of(self.sectors, self.marked.as_slice(), word)))
            }
            Event::Mark { worker, a, b } => self.mark(worker, Pair { a, b }),
            Event::End { worker } => {
                end_in(self.logs.as_mut_slice(), usize::from(worker));
                Ok(Reply::Done)
            }
        }
    }

    fn claim(&mut self, worker: u16) -> Result<Reply, Memory>
        requires { worker < length self.old.workers }
        ensures { MatchResult result (λ r. (r ≡ reply self.old (Claim worker)) × (self.new ≡ after self.old (Claim worker))) (λ _. self.new ≡ self.old) }
    {
        if self.next >= self.sectors {
            return Ok(Reply::NoSource);
        }
        let source = self.next;
        match claim_in(self.logs.as_mut_slice(), usize::from(worker), source) {
            Ok(()) => {
                self.next = source + 1;
                Ok(Reply::Source(source))
            }
            Err(error) => Err(error),
        }
    }

    fn mark(&mut self, worker: u16, pair: Pair) -> Result<Reply, Memory>
        requires { worker < length self.old.workers }
        ensures { MatchResult result (λ r. (r ≡ Done) × (self.new ≡ after self.old (Mark worker pair.a pair.b))) (λ _. self.new ≡ self.old) }
    {
        self.marked.reserve(1)?;
        match mark_in(self.logs.as_mut_slice(), usize::from(worker), pair) {
            Ok(()) => {
                self.marked.push_reserved(pair);
                Ok(Reply::Done)
            }
            Err(error) => Err(error),
        }
    }
}
