//! The audit of the map that four lumps spell: all its faults.

ghost use Rattle.std.specs.Prelude.{◌≡◌, ◌≢◌, ◌↔◌, IfErr, IfOk, Ok};
ghost use Rattle.mesh_shape.specs.Fills.{FillsSides};
ghost use Rattle.sight_names.specs.Map.{map_of};
ghost use Rattle.sight_names.specs.Mesh.{IsMeshOf, IsPlainMesh};
ghost use Rattle.sight_names.specs.Sound.{LinesMeetAtEnds};
ghost use Rattle.doomsight_c.specs.Lumps.{of_lumps_given};
ghost use Rattle.doomsight_c.specs.Audited.{AreBetween, AreOfFaces, IsAuditFor, IsAuditOf, IsUnaudited, counts_of as counts_told};

use crate::fault::{DoomsightFault, fault_of};
use crate::flaw::{DoomsightFlaw, DoomsightFlawCounts};
use crate::line::faults_tell_statuses;
use crate::lumps::plan_given;
use crate::tell::tell_all;
use map_answers::sight_status::Status;
use map_faults::{Gap, Tear, clashes_of, gaps_of, loose_ends_of, open_sides_of, tears_of};
use mesh_shape::Mesh;
use sight_names::{Memory, Plan, Reading, Side};
use std::alloc::Global;
use triangulate::greedy_mesh;

/// What is at fault between the lines.
#[derive(Drop)]
pub struct Between {
    pub sides: Vec<Side>,
    pub tears: Vec<Tear>,
    pub gaps: Vec<Gap>,
}

/// All faults of a map, and how many there are.
#[derive(Drop)]
pub struct Audit {
    pub all: Vec<DoomsightFlaw>,
    pub counts: DoomsightFlawCounts,
}

/// The same over this mesh of the map.
fn faces_over(alloc: Global, plan: &Plan, mesh: &Mesh) -> Result<Between, Memory>
    requires mesh { IsMeshOf (map_of plan.now) mesh.now.triangles }
    requires plain { IsPlainMesh (map_of plan.now) mesh.now.triangles }
    requires fills { FillsSides (map_of plan.now) mesh.now.triangles }
    ensures { IfOk result (λ b. AreOfFaces plan.now b.sides.items b.tears.items b.gaps.items) }
{
    let sides = open_sides_of(alloc, plan, mesh)?;
    let tears = tears_of(alloc, plan, mesh)?;
    let gaps = gaps_of(alloc, plan, mesh)?;
    Ok(Between { sides, tears, gaps })
}

/// The open sides, torn corners and gaps of a map whose lines meet at ends.
fn faces_of(alloc: Global, plan: &Plan) -> Result<Between, Memory>
    requires { LinesMeetAtEnds (map_of plan.now) }
    ensures { IfOk result (λ b. AreOfFaces plan.now b.sides.items b.tears.items b.gaps.items) }
{
    let mesh = greedy_mesh(alloc, plan)?;
    faces_over(alloc, plan, &mesh)
}

/// The same of any map; nothing where so many lines clash.
fn faults_between(alloc: Global, plan: &Plan, clashes: u64) -> Result<Between, Memory>
    requires { (clashes ≡ 0) ↔ LinesMeetAtEnds (map_of plan.now) }
    ensures { IfOk result (λ b. AreBetween plan.now b.sides.items b.tears.items b.gaps.items) }
{
    if clashes == 0 {
        return faces_of(alloc, plan);
    }
    Ok(Between {
        sides: Vec::new(alloc),
        tears: Vec::new(alloc),
        gaps: Vec::new(alloc),
    })
}

fn counts_of(
    clashes: u64,
    loose: usize,
    sides: usize,
    tears: usize,
    gaps: usize,
    listed: usize,
) -> DoomsightFlawCounts
    ensures { result ≡ counts_told clashes loose sides tears gaps listed }
{
    DoomsightFlawCounts {
        clashes,
        loose_ends: loose as u64,
        open_sides: sides as u64,
        tears: tears as u64,
        gaps: gaps as u64,
        listed: listed as u64,
    }
}

/// All faults of a map.
fn audit_of(alloc: Global, plan: &Plan) -> Result<Audit, Memory>
    ensures { IfOk result (λ a. IsAuditOf plan.now a.all.items a.counts) }
{
    let clashes = clashes_of(alloc, plan)?;
    let loose = loose_ends_of(alloc, plan)?;
    let faces = faults_between(alloc, plan, clashes.count)?;
    let all = tell_all(
        alloc,
        plan,
        clashes.first.as_slice(),
        loose.as_slice(),
        faces.sides.as_slice(),
        faces.tears.as_slice(),
        faces.gaps.as_slice(),
    )?;
    let counts = counts_of(
        clashes.count,
        loose.len(),
        faces.sides.len(),
        faces.tears.len(),
        faces.gaps.len(),
        all.len(),
    );
    Ok(Audit { all, counts })
}

fn audit_plan(alloc: Global, plan: &Plan) -> Result<Audit, DoomsightFault>
    ensures audit { IfOk result (λ a. IsAuditFor (Ok (map_of plan.now)) a.all.items a.counts) }
    ensures refused { IfErr result (IsUnaudited (Ok (map_of plan.now))) }
    ensures code { IfErr result (λ f. f.code ≢ 0) }
{
    faults_tell_statuses();
    let _ = plan.lines();
    match audit_of(alloc, plan) {
        Ok(audit) => Ok(audit),
        Err(memory) => Err(fault_of(&Status::Memory(memory))),
    }
}

/// All faults of the map that the lumps spell, or why they are no map.
pub fn audit_lumps(
    alloc: Global,
    reading: Reading,
    linedefs: &[u8],
    sidedefs: &[u8],
    vertexes: &[u8],
    sectors: &[u8],
) -> Result<Audit, DoomsightFault>
    ensures audit { IfOk result (λ a. IsAuditFor (of_lumps_given reading linedefs.now sidedefs.now vertexes.now sectors.now) a.all.items a.counts) }
    ensures refused { IfErr result (IsUnaudited (of_lumps_given reading linedefs.now sidedefs.now vertexes.now sectors.now)) }
    ensures code { IfErr result (λ f. f.code ≢ 0) }
{
    faults_tell_statuses();
    match plan_given(alloc, reading, linedefs, sidedefs, vertexes, sectors) {
        Ok(plan) => audit_plan(alloc, &plan),
        Err(status) => Err(fault_of(&status)),
    }
}
