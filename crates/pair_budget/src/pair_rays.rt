//! The pairs of which one found the other, each once, with a ray from its smaller sector to its larger one.

ghost use Rattle.std.specs.Prelude.{◌≡◌, ◌<◌, ◌↔◌, IsTrue, IfOk, OnOk, []};
ghost use Rattle.pair_budget.specs.PairRays.{HasRayFor, IsRayNoted};

use reject_bits::Table;
use sight_names::{Memory, PairRay};
use std::alloc::Global;
use std::marker::Model;

/// A ray for each pair, in the order in which they came; contracts see the number of sectors and the rays.
#[derive(Drop)]
pub struct PairRays {
    seen: Table,
    rays: Vec<PairRay>,
}

impl Model for PairRays {
    ghost use Rattle.pair_budget.specs.PairRays.{PairRaysParts, AreRayPairsMarked};

    ghost Value = { PairRaysParts };

    ghost view = { λ f. record { sectors = f.seen.n; rays = f.rays.items } };

    ghost invariant = { λ f. AreRayPairsMarked f.seen f.rays.items };
}

impl PairRays {
    /// No pair yet.
    pub fn new(alloc: Global, sectors: u16) -> Result<PairRays, Memory>
        ensures { IfOk result (λ f. f ≡ record { sectors = sectors; rays = [] }) }
    {
        Ok(PairRays {
            seen: Table::clear(alloc, sectors)?,
            rays: Vec::new(alloc),
        })
    }

    /// Adds the ray where its pair isn't there yet.
    pub fn note(&mut self, ray: PairRay) -> Result<(), Memory>
        requires first { ray.pair.a < self.old.sectors }
        requires second { ray.pair.b < self.old.sectors }
        ensures { OnOk result (IsRayNoted ray self.old self.new) }
    {
        if !self.seen.rejects(ray.pair.a, ray.pair.b) {
            self.rays.push(ray)?;
            self.seen.set(ray.pair.a, ray.pair.b);
        }
        Ok(())
    }

    /// Whether the pair is there.
    pub fn has(&self, a: u16, b: u16) -> bool
        requires first { a < self.now.sectors }
        requires second { b < self.now.sectors }
        ensures { IsTrue result ↔ HasRayFor self.now.rays a b }
    {
        self.seen.rejects(a, b)
    }

    /// The rays in the order in which they came.
    pub fn into_rays(self) -> Vec<PairRay>
        ensures { result.items ≡ self.rays }
    {
        self.rays
    }
}
