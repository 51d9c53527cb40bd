//! What one worker did.

ghost use Rattle.std.specs.Prelude.{◌≡◌, ◌<◌, MatchResult, length};
ghost use Rattle.pair_budget.specs.BoardCore.Machine.{change, with_claim, with_mark, at_end, idle};

use sight_names::{Memory, Pair};
use std::alloc::Global;
use std::marker::Model;

/// The claims and marks of a worker, the oldest first, and whether it ended.
#[derive(Drop)]
pub struct WorkerLog {
    claims: Vec<u16>,
    marks: Vec<Pair>,
    ended: bool,
}

impl Model for WorkerLog {
    ghost use Rattle.pair_budget.specs.BoardCore.Machine.{Worker};

    ghost Value = { Worker };

    ghost view = { λ h. record { claims = h.claims.items; marks = h.marks.items; ended = h.ended } };
}

impl WorkerLog {
    /// A worker that did nothing yet.
    pub fn new(alloc: Global) -> WorkerLog
        ensures { result ≡ idle }
    {
        WorkerLog {
            claims: Vec::new(alloc),
            marks: Vec::new(alloc),
            ended: false,
        }
    }

    fn claim(&mut self, source: u16) -> Result<(), Memory>
        ensures { MatchResult result (λ _. self.new ≡ with_claim source self.old) (λ _. self.new ≡ self.old) }
    {
        self.claims.reserve(1)?;
        self.claims.push_reserved(source);
        Ok(())
    }

    fn mark(&mut self, pair: Pair) -> Result<(), Memory>
        ensures { MatchResult result (λ _. self.new ≡ with_mark pair self.old) (λ _. self.new ≡ self.old) }
    {
        self.marks.reserve(1)?;
        self.marks.push_reserved(pair);
        Ok(())
    }

    fn end(&mut self)
        ensures { self.new ≡ at_end self.old }
    {
        self.ended = true;
    }
}

/// The worker at the place has claimed the source.
pub fn claim_in(logs: &mut [WorkerLog], worker: usize, source: u16) -> Result<(), Memory>
    requires { worker < length logs.old }
    ensures { MatchResult result (λ _. logs.new ≡ change (with_claim source) worker logs.old) (λ _. logs.new ≡ logs.old) }
{
    logs[worker].claim(source)
}

/// The worker at the place has marked the pair.
pub fn mark_in(logs: &mut [WorkerLog], worker: usize, pair: Pair) -> Result<(), Memory>
    requires { worker < length logs.old }
    ensures { MatchResult result (λ _. logs.new ≡ change (with_mark pair) worker logs.old) (λ _. logs.new ≡ logs.old) }
{
    logs[worker].mark(pair)
}

/// The worker at the place has ended.
pub fn end_in(logs: &mut [WorkerLog], worker: usize)
    requires { worker < length logs.old }
    ensures { logs.new ≡ change at_end worker logs.old }
{
    logs[worker].end();
}
