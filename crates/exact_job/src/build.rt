//! The build.

ghost use Rattle.std.specs.Prelude.{◌≡◌, ◌≤◌, None, IfErr, IfOk, length};
ghost use Rattle.sight_names.specs.Groups.{AreGroups, HasClosedFaces};
ghost use Rattle.sight_names.specs.Map.{map_of};
ghost use Rattle.sight_names.specs.Mesh.{AreTriangles};
ghost use Rattle.sight_names.specs.Sound.{LinesMeetAtEnds};
ghost use Rattle.mesh_shape.specs.HalfEdges.HalfEdges.{AreHalfEdges};
ghost use Rattle.cert_format.specs.Sizes.{sizes_of_plan};
ghost use Rattle.cert_checker.specs.Apart.{triangles_in, labels_in};
ghost use Rattle.cert_checker.specs.Rays.{AreSightRaysBelow};
ghost use Rattle.cert_format.specs.CertGroups.Grammar.{IsTwoInOrder};
ghost use Rattle.certificates.specs.CertExact.Grammar.{as_two};
ghost use Rattle.gate_floods.specs.Exact.{IsAcceptedThree, TellsAll};
ghost use Rattle.group_job.specs.Built.{IsOpenFace};
ghost use Rattle.exact_checker.specs.Judged.{IsThreeFor, TellsTrees};
ghost use Rattle.exact_job.specs.Built.{AreInCertificateOrder, IsPlanOfGroups};

use crate::settling::settle;
use crate::table::table_of;
use crate::walkers::Walkers;
use block_evidence::sight_tree::Nodes;
use cert_checker::mesh_over;
use cert_format::{Labelled, Sizes};
use certificates::cert_exact::ExactParts;
use face_groups::{Group, GroupFault};
use group_checker::GroupedMesh;
use group_job::{MapOfGroups, labelled};
use mesh_shape::half_edges::HalfEdges;
use reject_bits::Table;
use sight_names::{Items, MOST_TRIANGLES, Memory, PairRay, Plan};
use std::alloc::Global;
use std::thread::Threads;
use task_crew::{Alone, InThreads, Watcher, tell_end};

/// The table of a map's sectors, in which every pair is decided, and its certificate, which is of version 3.
#[derive(Drop)]
pub struct ExactBuilt {
    pub table: Table,
    pub cert: ExactParts,
}

/// The sizes of the map of a plan.
fn sizes_of(plan: &Plan) -> Sizes
    ensures { result ≡ sizes_of_plan plan.now }
{
    Sizes {
        sectors: plan.sectors,
        points: plan.points().len() as u16,
        lines: plan.lines().len() as u16,
    }
}

/// The half-edges of the map of groups.
fn edges_of(alloc: Global, over: &GroupedMesh) -> Result<HalfEdges, Memory>
    ensures { IfOk result (AreHalfEdges over.now.plan over.now.mesh.triangles over.now.labels) }
{
    HalfEdges::of(alloc, &over.plan, &over.mesh, &over.labels)
}

/// The sizes with the groups as sectors.
fn with_groups(sizes: Sizes, over: &GroupedMesh) -> Sizes
    ensures { result ≡ record { sectors = over.now.plan.sectors; points = sizes.points; lines = sizes.lines } }
{
    Sizes {
        sectors: over.plan.sectors,
        points: sizes.points,
        lines: sizes.lines,
    }
}

/// The certificate of these parts.
fn cert_of(
    sizes: Sizes,
    groups: Items<Group>,
    triangles: Vec<Labelled>,
    rays: Vec<PairRay>,
    trees: Vec<Nodes>,
) -> ExactParts
    ensures { result ≡ record { sizes = sizes; groups = groups; triangles = triangles.items; rays = rays.items; trees = trees.items } }
{
    ExactParts {
        sizes,
        groups,
        triangles: Items::of(triangles),
        rays: Items::of(rays),
        trees: Items::of(trees),
    }
}

/// The certificate with its table.
fn finish(
    alloc: Global,
    plan: &Plan,
    over: &GroupedMesh,
    cert: ExactParts,
) -> Result<ExactBuilt, Memory>
    requires audited { LinesMeetAtEnds (map_of plan.now) }
    requires three { IsThreeFor plan.now cert }
    requires over { IsPlanOfGroups plan.now cert.groups (triangles_in cert.triangles) (labels_in cert.triangles) over.now.plan }
    requires rays { AreSightRaysBelow (map_of over.now.plan) cert.rays (length cert.rays) }
    requires trees { TellsTrees (map_of over.now.plan) cert None }
    ensures sectors { IfOk result (λ b. b.table.n ≡ plan.now.sectors) }
    ensures cert { IfOk result (λ b. b.cert ≡ cert) }
    ensures accepted { IfOk result (λ b. IsAcceptedThree (map_of plan.now) b.table.bytes b.cert) }
    ensures sight { IfOk result (λ b. TellsAll (map_of plan.now) b.table) }
{
    let _ = plan.lines();
    let table = table_of(
        alloc,
        plan.sectors,
        cert.groups.as_slice(),
        cert.rays.as_slice(),
    )?;
    Ok(ExactBuilt { table, cert })
}

/// The build over the map of groups.
fn build_grouped<W: Walkers>(
    walkers: &W,
    alloc: Global,
    plan: &Plan,
    over: &GroupedMesh,
    sizes: Sizes,
    groups: Items<Group>,
    triangles: Vec<Labelled>,
) -> Result<ExactBuilt, Memory>
    requires can { W.can_walk walkers.now }
    requires can_judge { W.can_judge walkers.now }
    requires can_search { W.can_search walkers.now }
    requires audited { LinesMeetAtEnds (map_of plan.now) }
    requires sizes { sizes ≡ sizes_of_plan plan.now }
    requires in_order { AreInCertificateOrder sizes groups triangles.items }
    requires triangles { over.now.mesh.triangles ≡ triangles_in triangles.items }
    requires labels { over.now.labels ≡ labels_in triangles.items }
    requires over { IsPlanOfGroups plan.now groups (triangles_in triangles.items) (labels_in triangles.items) over.now.plan }
    ensures sectors { IfOk result (λ b. b.table.n ≡ plan.now.sectors) }
    ensures groups { IfOk result (λ b. b.cert.groups ≡ groups) }
    ensures in_order { IfOk result (λ b. IsTwoInOrder (sizes_of_plan plan.now) (as_two b.cert)) }
    ensures sizes { IfOk result (λ b. b.cert.sizes ≡ sizes_of_plan plan.now) }
    ensures one_each { IfOk result (λ b. length b.cert.trees ≡ length b.cert.groups) }
    ensures accepted { IfOk result (λ b. IsAcceptedThree (map_of plan.now) b.table.bytes b.cert) }
    ensures sight { IfOk result (λ b. TellsAll (map_of plan.now) b.table) }
{
    let edges = edges_of(alloc, over)?;
    let settled = settle(walkers, alloc, over, &edges, with_groups(sizes, over))?;
    let cert = cert_of(sizes, groups, triangles, settled.rays, settled.trees);
    finish(alloc, plan, over, cert)
}

/// The map of groups with these triangles as its mesh.
fn over_groups(
    alloc: Global,
    plan: &Plan,
    grouped: Plan,
    triangles: &[Labelled],
) -> Result<GroupedMesh, Memory>
    requires triangles { AreTriangles (length plan.now.points) (triangles_in triangles.now) }
    requires few { length triangles.now ≤ MOST_TRIANGLES }
    ensures plan { IfOk result (λ o. o.plan ≡ grouped) }
    ensures mesh { IfOk result (λ o. o.mesh.triangles ≡ triangles_in triangles.now) }
    ensures labels { IfOk result (λ o. o.labels ≡ labels_in triangles.now) }
{
    let (mesh, labels) = mesh_over(alloc, plan, triangles)?;
    Ok(GroupedMesh {
        plan: grouped,
        mesh,
        labels,
    })
}

/// The build by these walkers.
fn build_with<W: Walkers>(walkers: &W, alloc: Global, plan: &Plan) -> Result<ExactBuilt, GroupFault>
    requires can { W.can_walk walkers.now }
    requires can_judge { W.can_judge walkers.now }
    requires can_search { W.can_search walkers.now }
    requires audited { LinesMeetAtEnds (map_of plan.now) }
    ensures fault { IfErr result (IsOpenFace (map_of plan.now)) }
    ensures sectors { IfOk result (λ b. b.table.n ≡ plan.now.sectors) }
    ensures closed { IfOk result (λ b. HasClosedFaces (map_of plan.now)) }
    ensures groups { IfOk result (λ b. AreGroups (map_of plan.now) b.cert.groups) }
    ensures in_order { IfOk result (λ b. IsTwoInOrder (sizes_of_plan plan.now) (as_two b.cert)) }
    ensures sizes { IfOk result (λ b. b.cert.sizes ≡ sizes_of_plan plan.now) }
    ensures one_each { IfOk result (λ b. length b.cert.trees ≡ length b.cert.groups) }
    ensures accepted { IfOk result (λ b. IsAcceptedThree (map_of plan.now) b.table.bytes b.cert) }
    ensures sight { IfOk result (λ b. TellsAll (map_of plan.now) b.table) }
{
    let _ = plan.lines();
    let sizes = sizes_of(plan);
    let MapOfGroups {
        groups,
        plan: grouped,
        faces,
    } = walkers.map_groups(alloc, plan)?;
    let _ = grouped.lines();
    let triangles = labelled(alloc, &faces.mesh, &faces.labels)?;
    let over = over_groups(alloc, plan, grouped, triangles.as_slice())?;
    let built = build_grouped(walkers, alloc, plan, &over, sizes, groups, triangles)?;
    Ok(built)
}

/// The table of a map whose lines meet at ends, by walks that so many workers share, each in a thread where one can be had.
/// A bit is set exactly where the two sectors don't see each other, so the table is one however many share. The certificate
/// shows it. Who watches is told of each walk, and when none is left.
///
/// # Errors
///
/// `Open` at the least side that names a sector and whose face reaches outside the convex hull of the points.
pub fn build_exact<R: Threads + Sync>(
    rt: &R,
    alloc: Global,
    plan: &Plan,
    workers: u16,
    watcher: Option<&Watcher>,
) -> Result<ExactBuilt, GroupFault>
    requires audited { LinesMeetAtEnds (map_of plan.now) }
    ensures fault { IfErr result (IsOpenFace (map_of plan.now)) }
    ensures sectors { IfOk result (λ b. b.table.n ≡ plan.now.sectors) }
    ensures closed { IfOk result (λ b. HasClosedFaces (map_of plan.now)) }
    ensures groups { IfOk result (λ b. AreGroups (map_of plan.now) b.cert.groups) }
    ensures in_order { IfOk result (λ b. IsTwoInOrder (sizes_of_plan plan.now) (as_two b.cert)) }
    ensures sizes { IfOk result (λ b. b.cert.sizes ≡ sizes_of_plan plan.now) }
    ensures one_each { IfOk result (λ b. length b.cert.trees ≡ length b.cert.groups) }
    ensures accepted { IfOk result (λ b. IsAcceptedThree (map_of plan.now) b.table.bytes b.cert) }
    ensures sight { IfOk result (λ b. TellsAll (map_of plan.now) b.table) }
{
    let walkers = InThreads {
        rt,
        workers,
        watcher,
    };
    let built = build_with(&walkers, alloc, plan);
    tell_end(watcher);
    built
}

/// The table of a map whose lines meet at ends, without a thread. A bit is set exactly where the two sectors don't see each
/// other, so the table is that of `build_exact`. The certificate shows it.
///
/// # Errors
///
/// `Open` at the least side that names a sector and whose face reaches outside the convex hull of the points.
pub fn build_exact_alone(alloc: Global, plan: &Plan) -> Result<ExactBuilt, GroupFault>
    requires audited { LinesMeetAtEnds (map_of plan.now) }
    ensures fault { IfErr result (IsOpenFace (map_of plan.now)) }
    ensures sectors { IfOk result (λ b. b.table.n ≡ plan.now.sectors) }
    ensures closed { IfOk result (λ b. HasClosedFaces (map_of plan.now)) }
    ensures groups { IfOk result (λ b. AreGroups (map_of plan.now) b.cert.groups) }
    ensures in_order { IfOk result (λ b. IsTwoInOrder (sizes_of_plan plan.now) (as_two b.cert)) }
    ensures sizes { IfOk result (λ b. b.cert.sizes ≡ sizes_of_plan plan.now) }
    ensures one_each { IfOk result (λ b. length b.cert.trees ≡ length b.cert.groups) }
    ensures accepted { IfOk result (λ b. IsAcceptedThree (map_of plan.now) b.table.bytes b.cert) }
    ensures sight { IfOk result (λ b. TellsAll (map_of plan.now) b.table) }
{
    build_with(&Alone, alloc, plan)
}
