//! The walks of some groups in search of others.

ghost use Rattle.std.specs.Prelude.{◌≡◌, ◌<◌, ◌↔◌, IfOk, IsTrue, MatchOption};
ghost use Rattle.sight_names.specs.Map.{map_of};
ghost use Rattle.pair_budget.specs.declared.results.Outcome.TheVariants as outcome;
ghost use Rattle.pair_answer.specs.Ground.{IsAnswerGround};
ghost use Rattle.pair_answer.specs.Numbers.{AreBelow};
ghost use Rattle.pair_answer.specs.Walks.{IsSought, AreSought, IsFoundTarget, HasNoTarget};

use crate::ground::Ground;
use crate::places::{add, has};
use crate::seeker::Seeker;
use pair_budget::{Outcome, Reached, SourceResult, walk_source_over};
use sight_names::{Memory, Ray};
use std::alloc::Global;

/// What the walk of a source in search of targets gives.
pub enum Sought {
    /// A sight ray from the source to one of them, which it found.
    Ray(Ray),
    /// It found none of them; whether its budget ran out.
    Missed(bool),
}

/// What the walks of sources in search of targets give.
#[derive(Drop)]
pub enum AllSought {
    /// A sight ray from one of the sources to one of the targets, which it found.
    Ray(Ray),
    /// None found any of them; those whose budgets ran out.
    Missed(Vec<u16>),
}

/// The first sector that was found and is a target.
fn first_target(found: &[Reached], targets: &[u16]) -> Option<Reached>
    ensures { MatchOption result (HasNoTarget targets.now found.now) (IsFoundTarget targets.now found.now) }
{
    for i in 0..found.len() {
        let reached = found[i];
        if has(targets, reached.to) {
            return Some(reached);
        }
    }
    None
}

/// Whether the budget of the walk ran out.
fn ran_out(walked: &SourceResult) -> bool
    ensures { IsTrue result ↔ (walked.now.outcome ≡ outcome.Spent) }
{
    matches!(walked.outcome, Outcome::Spent)
}

/// Walks a source until it finds one of the targets.
fn seek(alloc: Global, ground: &Ground<'_>, source: u16, targets: &[u16]) -> Result<Sought, Memory>
    requires ground { IsAnswerGround ground.now }
    requires source { source < ground.now.plan.now.sectors }
    ensures { IfOk result (IsSought (map_of ground.now.plan.now) ground.now.mesh.now.triangles ground.now.labels.now ground.now.budget source targets.now) }
{
    let _ = ground.plan.lines();
    let mut seeker = Seeker {
        source,
        targets,
        hit: None,
    };
    let walked = walk_source_over(
        alloc,
        ground.plan,
        ground.mesh,
        ground.labels,
        ground.terrain,
        source,
        ground.budget,
        &mut seeker,
    )?;
    match first_target(walked.found.as_slice(), targets) {
        Some(reached) => Ok(Sought::Ray(reached.ray)),
        None => Ok(Sought::Missed(ran_out(&walked))),
    }
}

/// Walks the sources in turn until one finds one of the targets.
pub fn seek_all(
    alloc: Global,
    ground: &Ground<'_>,
    sources: &[u16],
    targets: &[u16],
) -> Result<AllSought, Memory>
    requires ground { IsAnswerGround ground.now }
    requires sources { AreBelow ground.now.plan.now.sectors sources.now }
    ensures { IfOk result (AreSought (map_of ground.now.plan.now) ground.now.mesh.now.triangles ground.now.labels.now ground.now.budget sources.now targets.now) }
{
    let mut spent = Vec::new(alloc);
    for i in 0..sources.len() {
        match seek(alloc, ground, sources[i], targets)? {
            Sought::Ray(ray) => return Ok(AllSought::Ray(ray)),
            Sought::Missed(ran_out) => add(&mut spent, sources[i], ran_out)?,
        }
    }
    Ok(AllSought::Missed(spent))
}
