//! All sources by one worker, in the thread that calls.

ghost use Rattle.std.specs.Prelude.{◌≡◌, ◌<◌, All, length, IfOk};
ghost use Rattle.portal_walk.specs.Terrain.{IsTerrain};
ghost use Rattle.pair_budget.specs.Decide.{AreResults, AreResultsSettled};
ghost use Rattle.sight_workers.specs.Board.{task_for};
ghost use Rattle.sight_workers.specs.Boards.{AreDoneOfDesk, AreFreshOfDesk};
ghost use Rattle.sight_workers.specs.Claimants.{AreClaimants};
ghost use Rattle.sight_workers.specs.Desks.{job_of_desk, sectors_of_desk};
ghost use Rattle.sight_workers.specs.Jobs.{IsJob};
ghost use Rattle.sight_workers.specs.Teams.{AreWalked, AreResultsWhole};

use crate::board::{Board, sectors_of};
use crate::desk::Desk;
use crate::gate::Gate;
use crate::hand::{Hand, labour};
use crate::job::Job;
use crate::team::{Gathered, by_source, gather, hands_of, nobody};
use pair_budget::SourceResult;
use portal_walk::Terrain;
use sight_names::{Items, Memory};
use std::alloc::Global;

/// The one hand works.
fn work_alone<G: Gate>(
    alloc: Global,
    desk: &Desk<'_>,
    hands: &mut [Hand],
    components: &[u16],
    job: &Job<'_>,
    terrain: &Terrain,
    gate: &G,
)
    requires components { length components.now ≡ sectors_of_desk desk.now }
    requires job { job.now ≡ job_of_desk desk.now }
    requires made { IsJob job.now }
    requires terrain { IsTerrain job.now.plan.now job.now.mesh.now.triangles job.now.labels.now terrain.now }
    requires one { length hands.old ≡ 1 }
    requires fresh { AreFreshOfDesk desk.now 1 hands.old }
    ensures done { AreDoneOfDesk desk.now components.now 1 hands.new }
{
    labour(desk, alloc, &mut hands[0], components, job, terrain, gate);
}

/// The results of all sectors, as the one worker gave them.
fn walk_in_turn<G: Gate>(
    alloc: Global,
    job: Job<'_>,
    components: &[u16],
    gate: &G,
    claimed_by: &mut [u16],
) -> Result<Vec<SourceResult>, Memory>
    requires components { length components.now ≡ job.plan.now.sectors }
    requires job { IsJob job }
    requires below { All (λ w. w < 1) claimed_by.old }
    ensures whole { IfOk result (λ v. AreResultsWhole job.entry.plan.now.sectors components.now (task_for job.entry 1) v.items) }
    ensures len { IfOk result (λ _. length claimed_by.new ≡ length claimed_by.old) }
    ensures below { IfOk result (λ _. All (λ w. w < 1) claimed_by.new) }
    ensures claimants { IfOk result (λ _. AreClaimants (task_for job.entry 1) claimed_by.new) }
{
    let terrain = Terrain::of(alloc, job.plan, job.mesh, job.labels)?;
    walk_over(alloc, job, &terrain, components, gate, claimed_by)
}

/// The same over the terrain of the map.
// by itself, since each way out of a function has all that it owns to drop
fn walk_over<G: Gate>(
    alloc: Global,
    job: Job<'_>,
    terrain: &Terrain,
    components: &[u16],
    gate: &G,
    claimed_by: &mut [u16],
) -> Result<Vec<SourceResult>, Memory>
    requires components { length components.now ≡ job.plan.now.sectors }
    requires job { IsJob job }
    requires terrain { IsTerrain job.plan.now job.mesh.now.triangles job.labels.now terrain.now }
    requires below { All (λ w. w < 1) claimed_by.old }
    ensures whole { IfOk result (λ v. AreResultsWhole job.entry.plan.now.sectors components.now (task_for job.entry 1) v.items) }
    ensures len { IfOk result (λ _. length claimed_by.new ≡ length claimed_by.old) }
    ensures below { IfOk result (λ _. All (λ w. w < 1) claimed_by.new) }
    ensures claimants { IfOk result (λ _. AreClaimants (task_for job.entry 1) claimed_by.new) }
{
    let mut board = Board::new(alloc, job, 1)?;
    let mut hands = hands_of(&mut board, alloc)?;
    work_alone(
        alloc,
        &board.desk,
        hands.as_mut_slice(),
        components,
        &job,
        terrain,
        gate,
    );
    let pool = gather(&mut board, alloc, hands, components, claimed_by)?;
    board.close();
    Ok(pool)
}

/// What `walk_all` gives with one worker, without a thread.
pub fn walk_alone<G: Gate>(alloc: Global, job: Job<'_>, gate: &G) -> Result<Gathered, Memory>
    requires job { IsJob job }
    ensures results { IfOk result (λ g. AreResults job.entry.plan.now g.results) }
    ensures walked { IfOk result (λ g. AreWalked (task_for job.entry 1) g.results) }
    ensures settled { IfOk result (λ g. AreResultsSettled g.results job.entry.components.now) }
    ensures claimed_by { IfOk result (λ g. (length g.claimed_by ≡ job.entry.plan.now.sectors) × All (λ w. w < 1) g.claimed_by) }
    ensures claimants { IfOk result (λ g. AreClaimants (task_for job.entry 1) g.claimed_by) }
{
    let mut claimed_by = nobody(alloc, usize::from(sectors_of(job.plan)), 1)?;
    let pool = walk_in_turn(alloc, job, job.components, gate, claimed_by.as_mut_slice())?;
    let results = by_source(pool)?;
    Ok(Gathered {
        results: Items::of(results),
        claimed_by: Items::of(claimed_by),
    })
}
