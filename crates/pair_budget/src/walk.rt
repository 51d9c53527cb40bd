//! The walk of one source within its budget.

ghost use Rattle.std.specs.Prelude.{◌≡◌, ◌≢◌, ◌⊎◌, ℕ, ◌<◌, [], Some as Given, length, map, true, false, IfOk, IfSome, IsSome};
ghost use Rattle.std.specs.List.{Contains};
ghost use Rattle.sight_names.specs.Found.{Found};
ghost use Rattle.sight_names.specs.Map.{map_of};
ghost use Rattle.sight_names.specs.Mesh.{IsGoodMesh, label_of};
ghost use Rattle.sight_names.specs.Plan.{IsPlan};
ghost use Rattle.sight_names.specs.Sequence.{roots};
ghost use Rattle.sight_names.specs.Sound.{LinesMeetAtEnds};
ghost use Rattle.stab_hull.specs.Answer.{IsLineInRange};
ghost use Rattle.sight_names.specs.Splitting.{IsSplittable};
ghost use Rattle.mesh_shape.specs.declared.half_edges.table.HalfEdge.{HalfEdge as HalfEdgeOf};
ghost use Rattle.portal_walk.specs.Terrain.{IsTerrain};
ghost use Rattle.sight_lift.specs.SequenceLaws.Ways.{root_alone};
ghost use Rattle.portal_walk.specs.Sides.{ArrivesAt};
ghost use Rattle.portal_walk.specs.Walk.{IsTop, TellsLine, pending};
ghost use Rattle.pair_budget.specs.declared.results.Outcome.TheVariants as outcome;
ghost use Rattle.pair_budget.specs.declared.results.Reached.{Reached as ReachedSector};
ghost use Rattle.pair_budget.specs.Exact.{IsOutcomeExact, IsWholly};
ghost use Rattle.pair_budget.specs.FoundSectors.{Extends};
ghost use Rattle.pair_budget.specs.Notes.{ordered, EntriesGrow};
ghost use Rattle.pair_budget.specs.Through.{AreThrough, StandsOutside, IsRayOfStep, IsRayToSide};
ghost use Rattle.pair_budget.specs.Walked.{AreReached, IsOutcome, IsReachedFrom, MarksFound};
ghost use Rattle.pair_budget.specs.Whole.{IsFound, ShowsIfComplete};

use crate::budget_left::BudgetLeft;
use crate::found_sectors::FoundSectors;
use crate::notice::Notice;
use crate::results::{Outcome, Reached, SourceResult};
use mesh_shape::{Labels, Mesh};
use portal_walk::{Terrain, Walker, Went};
use sight_names::{Budget, Memory, Plan, Side};
use sight_ray::ray_of;
use std::alloc::Global;

/// What a source finds within its budget: sectors that its first stabbable sequences reach, each with a sight ray, and
/// how its walk ended.
///
/// # Errors
///
/// After `Memory` the notice may have heard of sectors that were found.
pub fn walk_source<N: Notice>(
    alloc: Global,
    plan: &Plan,
    mesh: &Mesh,
    labels: &Labels,
    source: u16,
    budget: Budget,
    notice: &mut N,
) -> Result<SourceResult, Memory>
    requires points { mesh.now.points ≡ length plan.now.points }
    requires audited { LinesMeetAtEnds (map_of plan.now) }
    requires good { IsGoodMesh (map_of plan.now) mesh.now.triangles labels.now }
    requires source { source < plan.now.sectors }
    requires hears { (b : ℕ) → b ≢ source → b < plan.now.sectors → Found (map_of plan.now) mesh.now.triangles labels.now source b budget → N.may_hear notice.old (ordered source b) }
    ensures source { IfOk result (λ r. r.source ≡ source) }
    ensures found { IfOk result (λ r. AreReached plan.now source r.found) }
    ensures outcome { IfOk result (λ r. IsOutcome source budget (N.may_settle notice.old) r.outcome) }
    ensures exact { IfOk result (λ r. IsOutcomeExact (map_of plan.now) mesh.now.triangles labels.now source budget r.found r.outcome) }
    ensures alone { N.may_settle notice.old ≡ false → IfOk result (λ r. IsWholly (map_of plan.now) mesh.now.triangles labels.now source budget r.found r.outcome) }
    ensures rays { IfOk result (λ r. AreThrough plan.now mesh.now.triangles labels.now source r.found) }
    ensures shown { IfOk result (λ r. ShowsIfComplete plan.now mesh.now.triangles labels.now r.found r.outcome) }
    ensures mates { IfOk result (λ r. r.outcome ≡ outcome.All → (b : ℕ) → N.mates notice.old source b → Contains (N.seen notice.new) (ordered source b)) }
    ensures tag { N.tag notice.new ≡ N.tag notice.old }
    ensures marks { IfOk result (λ r. MarksFound source r.found (N.marks notice.old) (N.marks notice.new)) }
    ensures kept { EntriesGrow (N.marks notice.old) (N.marks notice.new) }
    ensures claims { N.claims notice.new ≡ N.claims notice.old }
    ensures settles { N.may_settle notice.new ≡ N.may_settle notice.old }
    ensures seen { EntriesGrow (N.seen notice.old) (N.seen notice.new) }
    ensures looks { EntriesGrow (N.looks notice.old) (N.looks notice.new) }
{
    let terrain = Terrain::of(alloc, plan, mesh, labels)?;
    walk_source_over(alloc, plan, mesh, labels, &terrain, source, budget, notice)
}

/// The same over the terrain of the map, made before: many walks of one map can share it.
///
/// # Errors
///
/// After `Memory` the notice may have heard of sectors that were found.
pub fn walk_source_over<N: Notice>(
    alloc: Global,
    plan: &Plan,
    mesh: &Mesh,
    labels: &Labels,
    terrain: &Terrain,
    source: u16,
    budget: Budget,
    notice: &mut N,
) -> Result<SourceResult, Memory>
    requires points { mesh.now.points ≡ length plan.now.points }
    requires audited { LinesMeetAtEnds (map_of plan.now) }
    requires good { IsGoodMesh (map_of plan.now) mesh.now.triangles labels.now }
    requires terrain { IsTerrain plan.now mesh.now.triangles labels.now terrain.now }
    requires source { source < plan.now.sectors }
    requires hears { (b : ℕ) → b ≢ source → b < plan.now.sectors → Found (map_of plan.now) mesh.now.triangles labels.now source b budget → N.may_hear notice.old (ordered source b) }
    ensures source { IfOk result (λ r. r.source ≡ source) }
    ensures found { IfOk result (λ r. AreReached plan.now source r.found) }
    ensures outcome { IfOk result (λ r. IsOutcome source budget (N.may_settle notice.old) r.outcome) }
    ensures exact { IfOk result (λ r. IsOutcomeExact (map_of plan.now) mesh.now.triangles labels.now source budget r.found r.outcome) }
    ensures alone { N.may_settle notice.old ≡ false → IfOk result (λ r. IsWholly (map_of plan.now) mesh.now.triangles labels.now source budget r.found r.outcome) }
    ensures rays { IfOk result (λ r. AreThrough plan.now mesh.now.triangles labels.now source r.found) }
    ensures shown { IfOk result (λ r. ShowsIfComplete plan.now mesh.now.triangles labels.now r.found r.outcome) }
    ensures mates { IfOk result (λ r. r.outcome ≡ outcome.All → (b : ℕ) → N.mates notice.old source b → Contains (N.seen notice.new) (ordered source b)) }
    ensures tag { N.tag notice.new ≡ N.tag notice.old }
    ensures marks { IfOk result (λ r. MarksFound source r.found (N.marks notice.old) (N.marks notice.new)) }
    ensures kept { EntriesGrow (N.marks notice.old) (N.marks notice.new) }
    ensures claims { N.claims notice.new ≡ N.claims notice.old }
    ensures settles { N.may_settle notice.new ≡ N.may_settle notice.old }
    ensures seen { EntriesGrow (N.seen notice.old) (N.seen notice.new) }
    ensures looks { EntriesGrow (N.looks notice.old) (N.looks notice.new) }
{
    let mut found_sectors = FoundSectors::new(alloc, plan, source)?;
    if notice.settled(source) {
        return Ok(SourceResult {
            source,
            found: found_sectors.into_items(),
            outcome: Outcome::All,
        });
    }
    let walker = Walker::over(alloc, plan, mesh, labels, terrain, source)?;
    let outcome = walk_on(walker, labels, source, budget, &mut found_sectors, notice)?;
    Ok(SourceResult {
        source,
        found: found_sectors.into_items(),
        outcome,
    })
}

/// Goes on with a walk until it ends, the budget is spent, or nothing that it could still find matters.
// by a call, so that the walk, which is in line here, has the registers to itself
#[inline(never)]
fn walk_on<N: Notice>(
    mut walker: Walker,
    labels: &Labels,
    source: u16,
    budget: Budget,
    found_sectors: &mut FoundSectors,
    notice: &mut N,
) -> Result<Outcome, Memory>
    requires labels { walker.labels ≡ labels.now }
    requires one_each { length walker.labels ≡ length walker.mesh.triangles }
    requires plan { walker.plan ≡ found_sectors.old.plan }
    requires source { walker.source ≡ source }
    requires source_too { found_sectors.old.source ≡ source }
    requires rules { IsPlan walker.plan }
    requires audited { LinesMeetAtEnds (map_of walker.plan) }
    requires good { IsGoodMesh (map_of walker.plan) walker.mesh.triangles walker.labels }
    requires pending { pending walker ≡ map root_alone (roots (map_of walker.plan) walker.source) }
    requires no_nodes { walker.nodes ≡ [] }
    requires nothing { found_sectors.old.found ≡ [] }
    requires hears { (b : ℕ) → b ≢ walker.source → b < walker.plan.sectors → Found (map_of walker.plan) walker.mesh.triangles walker.labels walker.source b budget → N.may_hear notice.old (ordered source b) }
    ensures found_sectors { Extends found_sectors.old found_sectors.new }
    ensures outcome { IfOk result (λ o. IsOutcome source budget (N.may_settle notice.old) o) }
    ensures exact { IfOk result (λ o. IsOutcomeExact (map_of walker.entry.plan) walker.entry.mesh.triangles walker.entry.labels walker.entry.source budget found_sectors.new.found o) }
    ensures rays { IfOk result (λ _. AreThrough walker.entry.plan walker.entry.mesh.triangles walker.entry.labels walker.entry.source found_sectors.new.found) }
    ensures shown { IfOk result (λ o. ShowsIfComplete walker.entry.plan walker.entry.mesh.triangles walker.entry.labels found_sectors.new.found o) }
    ensures mates { IfOk result (λ o. o ≡ outcome.All → (b : ℕ) → N.mates notice.old source b → Contains (N.seen notice.new) (ordered source b)) }
    ensures tag { N.tag notice.new ≡ N.tag notice.old }
    ensures marks { MarksFound source found_sectors.new.found (N.marks notice.old) (N.marks notice.new) }
    ensures kept { EntriesGrow (N.marks notice.old) (N.marks notice.new) }
    ensures claims { N.claims notice.new ≡ N.claims notice.old }
    ensures settles { N.may_settle notice.new ≡ N.may_settle notice.old }
    ensures seen { EntriesGrow (N.seen notice.old) (N.seen notice.new) }
    ensures looks { EntriesGrow (N.looks notice.old) (N.looks notice.new) }
{
    let mut left = BudgetLeft::of(budget);
    loop {
        match walker.go()? {
            Went::End => return Ok(Outcome::Complete(walker.tree())),
            Went::Blocked => {}
            Went::Open(is_line) => {
                let Some(less) = left.with_one_less() else {
                    return Ok(Outcome::Spent);
                };
                left = less;
                let reached = newly_reached(&walker, labels, found_sectors, is_line);
                if note(found_sectors, source, reached, notice)? {
                    return Ok(Outcome::All);
                }
            }
        }
    }
}

/// The sector of the triangle that a walk came to, with a sight ray to it. None where the last portal is no line of the
/// map, or the sector was found before: most sequences need no line.
// in line, since a call would take what it finds through memory
#[inline(always)]
fn newly_reached(
    walker: &Walker,
    labels: &Labels,
    found_sectors: &FoundSectors,
    is_line: bool,
) -> Option<Reached>
    requires labels { walker.now.labels ≡ labels.now }
    requires at { (edge : HalfEdgeOf) × StandsOutside walker.now edge }
    requires splittable { IsSplittable walker.now.ends }
    requires line { TellsLine walker.now is_line }
    ensures reached { IfSome result (λ reached. IsReachedFrom walker.now.plan walker.now.source reached) }
    ensures label { (edge : HalfEdgeOf) → IsTop walker.now edge → IfSome result (λ reached. label_of labels.now edge.triangle ≡ Given reached.to) }
    ensures ray { (edge : HalfEdgeOf) → IsTop walker.now edge → IfSome result (IsRayToSide walker.now edge.entered) }
    ensures given { (edge : HalfEdgeOf) (sector : ℕ) → IsTop walker.now edge → label_of labels.now edge.triangle ≡ Given sector → IsSome walker.now.root → IsSome edge.entered → IsSome result ⊎ IsFound found_sectors.now.found sector }
{
    if !is_line {
        return None;
    }
    let here = walker.here();
    let to = labels.get(here.triangle)?;
    if found_sectors.has(to) {
        return None;
    }
    let (a, b, c) = walker.line();
    reached_by(walker, labels, here.triangle, here.entered, a, b, c)
}

/// The sector of the triangle that a walk came to, with the ray from the source that the splitting line is; None where
/// the last portal is no line.
fn reached_by(
    walker: &Walker,
    labels: &Labels,
    triangle: u16,
    entered: Option<Side>,
    a: i32,
    b: i32,
    c: i64,
) -> Option<Reached>
    requires labels { walker.now.labels ≡ labels.now }
    requires triangle { triangle < length labels.now }
    requires outside { label_of labels.now triangle ≢ Given walker.now.source }
    requires arrives { ArrivesAt walker.now.plan labels.now triangle entered }
    requires range { IsLineInRange a b c }
    ensures reached { IfSome result (λ reached. IsReachedFrom walker.now.plan walker.now.source reached) }
    ensures label { IfSome result (λ reached. label_of labels.now triangle ≡ Given reached.to) }
    ensures ray { IfSome result (IsRayOfStep walker.now.root entered a b c) }
    ensures given { (sector : ℕ) → label_of labels.now triangle ≡ Given sector → IsSome walker.now.root → IsSome entered → IsSome result }
{
    let to = labels.get(triangle)?;
    let first = walker.root()?;
    let last = entered?;
    Some(Reached {
        to,
        ray: ray_of(first, last, a, b, c),
    })
}

/// Adds a sector to what was found and tells of it, unless it was found before. Whether the notice then says that nothing
/// else matters; it isn't asked where nothing is new.
// in line, since nearly always there is nothing to add
#[inline(always)]
fn note<N: Notice>(
    found_sectors: &mut FoundSectors,
    source: u16,
    reached: Option<Reached>,
    notice: &mut N,
) -> Result<bool, Memory>
    requires reached { IfSome reached (λ r. IsReachedFrom found_sectors.old.plan source r) }
    requires source { found_sectors.old.source ≡ source }
    requires hears { IfSome reached (λ r. N.may_hear notice.old (ordered source r.to)) }
    ensures found_sectors { Extends found_sectors.old found_sectors.new }
    ensures tag { N.tag notice.new ≡ N.tag notice.old }
    ensures marks { MarksFound source found_sectors.new.found (N.marks notice.old) (N.marks notice.new) }
    ensures kept { EntriesGrow (N.marks notice.old) (N.marks notice.new) }
    ensures hears { (p : ℕ × ℕ) → N.may_hear notice.old p → N.may_hear notice.new p }
    ensures claims { N.claims notice.new ≡ N.claims notice.old }
    ensures settles { N.may_settle notice.new ≡ N.may_settle notice.old }
    ensures settled { IfOk result (λ done. done ≡ true → N.may_settle notice.old ≡ true) }
    ensures reached { IfOk result (λ _. IfSome reached (λ r. IsFound found_sectors.new.found r.to)) }
    ensures only { IfOk result (λ _. (r : ReachedSector) → Contains found_sectors.new.found r → Contains found_sectors.old.found r ⊎ (reached ≡ Given r)) }
    ensures done { IfOk result (λ done. done ≡ true → (b : ℕ) → N.mates notice.old source b → Contains (N.seen notice.new) (ordered source b)) }
    ensures mates { (x y : ℕ) → N.mates notice.old x y → N.mates notice.new x y }
    ensures seen { EntriesGrow (N.seen notice.old) (N.seen notice.new) }
    ensures looks { EntriesGrow (N.looks notice.old) (N.looks notice.new) }
{
    let Some(reached) = reached else {
        return Ok(false);
    };
    if !found_sectors.add(reached)? {
        return Ok(false);
    }
    notice.found(source, reached.to);
    Ok(notice.settled(source))
}
