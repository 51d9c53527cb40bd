//! What `trace` says of a map: the groups of sectors that a ray passes.

ghost use Rattle.std.specs.Prelude.{◌≡◌, ◌++◌, IfErr, IfOk, MatchResult, None, OnOk, string_bytes, ⊤};
ghost use Rattle.std.specs.List.{flat_map};
ghost use Rattle.sight_names.specs.Map.{map_of};
ghost use Rattle.sight_names.specs.Mesh.{IsGoodMesh, label_of};
ghost use Rattle.sight_ray.specs.RayTrace.Trace.{IsTrace};
ghost use Rattle.map_answers.specs.SightStatus.Answer.{GivesCalled, line_answer};
ghost use Rattle.map_answers.specs.SightStatus.Status.{IsOfTraceTest};
ghost use Rattle.map_answers.specs.Trace.{IsTraceRefusal, TraceCalls, changes, group_text, places_of_groups, plus_word, trace_line, group_word_at};

use crate::groups::{MeshGroups, audit_map};
use crate::sight_status::{Status, Why, push_count, push_number, push_text};
use face_groups::Group;
use mesh_shape::Labels;
use sight_names::{Plan, Ray, TraceFault};
use sight_ray::ray_trace::trace;
use std::alloc::{AllocError, Global};

/// The label of a triangle, None where it has none or isn't there.
fn label_at(labels: &Labels, triangle: u16) -> Option<u16>
    ensures { result ≡ label_of labels.now triangle }
{
    match labels.as_slice().get(triangle as usize) {
        Some(label) => *label,
        None => None,
    }
}

/// The places of the groups of these triangles, in order.
fn places_along(alloc: Global, labels: &Labels, passed: &[u16]) -> Result<Vec<u16>, AllocError>
    ensures { IfOk result (λ places. places.items ≡ places_of_groups labels.now passed.now) }
{
    let mut places = Vec::new(alloc);
    for triangle in passed {
        if let Some(group) = label_at(labels, *triangle) {
            places.push(group)?;
        }
    }
    Ok(places)
}

/// Adds the sectors, each behind a plus sign.
fn push_others(alloc: Global, line: &mut String, sectors: &[u16]) -> Result<(), AllocError>
    ensures { OnOk result (string_bytes line.new ≡ string_bytes line.old ++ flat_map plus_word sectors.now) }
{
    for sector in sectors {
        push_count(alloc, line, "+", u64::from(*sector))?;
    }
    Ok(())
}

/// Adds the sectors of a group.
fn push_group(alloc: Global, line: &mut String, sectors: &[u16]) -> Result<(), AllocError>
    ensures { OnOk result (string_bytes line.new ≡ string_bytes line.old ++ group_text sectors.now) }
{
    if sectors.is_empty() {
        return Ok(());
    }
    push_number(alloc, line, u64::from(sectors[0]))?;
    push_others(alloc, line, &sectors[1..])
}

/// Adds the group at this place.
fn push_word(
    alloc: Global,
    line: &mut String,
    groups: &[Group],
    place: u16,
) -> Result<(), AllocError>
    ensures { OnOk result (string_bytes line.new ≡ string_bytes line.old ++ group_word_at groups.now place) }
{
    line.push_str(" ")?;
    match groups.get(place as usize) {
        Some(group) => push_group(alloc, line, group.as_slice()),
        None => Ok(()),
    }
}

/// Adds the groups at these places one after the other, equal neighbours once.
fn push_changes(
    alloc: Global,
    line: &mut String,
    groups: &[Group],
    places: &[u16],
) -> Result<(), AllocError>
    ensures { OnOk result (string_bytes line.new ≡ string_bytes line.old ++ flat_map (group_word_at groups.now) (changes None places.now)) }
{
    let mut last = None;
    for place in places {
        if last != Some(*place) {
            push_word(alloc, line, groups, *place)?;
            last = Some(*place);
        }
    }
    Ok(())
}

fn trace_line_of(alloc: Global, groups: &[Group], places: &[u16]) -> Result<String, AllocError>
    ensures { IfOk result (λ line. string_bytes line ≡ trace_line groups.now places.now) }
{
    let mut line = String::new(alloc);
    push_text(&mut line, "trace")?;
    push_changes(alloc, &mut line, groups, places)?;
    push_text(&mut line, "\n")?;
    Ok(line)
}

/// The triangles that the ray passes on the map of groups.
fn trace_ray(alloc: Global, groups: &MeshGroups, ray: &Ray) -> Result<Vec<u16>, Status>
    requires good { IsGoodMesh (map_of groups.now.grouped.plan) groups.now.mesh.triangles groups.now.grouped.labels }
    ensures answer { MatchResult result (λ passed. IsTrace (map_of groups.now.grouped.plan) groups.now.mesh.triangles ray.now passed.items) (IsTraceRefusal (map_of groups.now.grouped.plan) groups.now.mesh.triangles ray.now) }
{
    let grouped = &groups.grouped;
    match trace(alloc, &grouped.plan, &groups.mesh, &grouped.labels, ray) {
        Ok(passed) => Ok(passed),
        Err(TraceFault::Memory(ref memory)) => Err(Status::Memory(*memory)),
        Err(fault) => Err(Status::No(Why::Trace(fault))),
    }
}

/// The groups that the ray passes, where the map is sound.
pub fn judge_trace(alloc: Global, plan: &Plan, ray: &Ray) -> Result<String, Status>
    ensures judged { GivesCalled ⊤ (TraceCalls ray.now (map_of plan.now)) (line_answer result) }
    ensures refusals { IfErr result IsOfTraceTest }
{
    let groups = audit_map(alloc, plan)?;
    let passed = trace_ray(alloc, &groups, ray)?;
    let places = match places_along(alloc, &groups.grouped.labels, &passed) {
        Ok(places) => places,
        Err(refused) => return Err(Status::Memory(refused.into())),
    };
    match trace_line_of(alloc, groups.grouped.groups.as_slice(), &places) {
        Ok(line) => Ok(line),
        Err(refused) => Err(Status::Memory(refused.into())),
    }
}
