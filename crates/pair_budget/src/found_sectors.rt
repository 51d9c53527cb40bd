//! The sectors that the walk of a source has found so far.

ghost use Rattle.std.specs.Prelude.{◌≡◌, ◌⊎◌, ◌↔◌, [], IfOk, IsTrue, true};
ghost use Rattle.std.specs.List.{Contains};
ghost use Rattle.pair_budget.specs.FoundSectors.{Extends};
ghost use Rattle.pair_budget.specs.Walked.{AreReached, IsReachedFrom};
ghost use Rattle.pair_budget.specs.Whole.{IsFound};
ghost use Rattle.pair_budget.specs.declared.results.Reached.{Reached as ReachedSector};

use crate::results::Reached;
use sight_names::{Items, Memory, Plan};
use std::alloc::Global;
use std::marker::Model;

/// What the walk of a source has found, with a mark for each sector of the plan.
#[derive(Drop)]
pub struct FoundSectors<'a> {
    plan: &'a Plan,
    source: u16,
    seen: Vec<bool>,
    found: Vec<Reached>,
}

impl<'a> Model for FoundSectors<'a> {
    ghost use Rattle.pair_budget.specs.FoundSectors.{FoundSectorsParts, AreFoundSectors};

    ghost Value = { FoundSectorsParts };

    ghost view = { λ f. record { plan = f.plan.now; source = f.source; found = f.found.items } };

    ghost invariant = { λ f. AreFoundSectors (record { plan = f.plan.now; source = f.source; found = f.found.items }) f.seen.items };
}

impl<'a> FoundSectors<'a> {
    /// No sector yet.
    pub fn new(alloc: Global, plan: &'a Plan, source: u16) -> Result<FoundSectors<'a>, Memory>
        ensures { IfOk result (λ f. f ≡ record { plan = plan.now; source = source; found = [] }) }
    {
        Ok(FoundSectors {
            plan,
            source,
            seen: vec![in alloc; false; plan.sectors as usize]?,
            found: Vec::new(alloc),
        })
    }

    /// Adds a sector, unless it was found before; whether it is new.
    pub fn add(&mut self, reached: Reached) -> Result<bool, Memory>
        requires { IsReachedFrom self.old.plan self.old.source reached }
        ensures extends { Extends self.old self.new }
        ensures there { IfOk result (λ new. new ≡ true → Contains self.new.found reached) }
        ensures found { IfOk result (λ _. IsFound self.new.found reached.to) }
        ensures only { IfOk result (λ _. (r : ReachedSector) → Contains self.new.found r → Contains self.old.found r ⊎ (reached ≡ r)) }
    {
        if self.seen[reached.to as usize] {
            return Ok(false);
        }
        self.found.push(reached)?;
        self.seen[reached.to as usize] = true;
        Ok(true)
    }

    /// Whether the sector was found.
    pub fn has(&self, sector: u16) -> bool
        ensures { IsTrue result ↔ IsFound self.now.found sector }
    {
        match self.seen.as_slice().get(sector as usize) {
            Some(seen) => *seen,
            None => false,
        }
    }

    /// The sectors, in the order in which they were found.
    pub fn into_items(self) -> Items<Reached>
        ensures list { result ≡ self.entry.found }
        ensures reached { AreReached self.entry.plan self.entry.source result }
    {
        let mut found = self.found;
        // all results of a map are kept, so each without spare room
        found.shrink_to_fit();
        Items::of(found)
    }
}
