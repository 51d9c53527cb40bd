//! What `audit` says of a map: whether it is sound.

ghost use Rattle.std.specs.Prelude.{◌≡◌, ◌++◌, IfErr, IfOk, Ok, codes, filter_map, length, string_bytes, ⊤};
ghost use Rattle.std.specs.Fmt.{decimal};
ghost use Rattle.sight_names.specs.Map.{map_of};
ghost use Rattle.sight_names.specs.Points.{lines_of, points_of};
ghost use Rattle.map_answers.specs.SightStatus.Answer.{GivesCalled, line_answer};
ghost use Rattle.map_answers.specs.Audit.{AuditCalls, sound_line};
ghost use Rattle.map_answers.specs.SightStatus.Status.{IsOfMapTest};

use crate::groups::audit_map;
use crate::sight_status::{Status, push_count, push_count_line};
use mesh_shape::Labels;
use sight_names::{Line, Plan};
use std::alloc::{AllocError, Global};

/// How many of the records are lines.
fn count_of(lines: &[Option<Line>]) -> u64
    ensures { result ≡ length (filter_map (λ line. line) lines.now) }
{
    let mut count = 0;
    for line in lines {
        if line.is_some() {
            count += 1;
        }
    }
    count
}

/// How many lines the map has.
pub fn count_lines(plan: &Plan) -> u64
    ensures { result ≡ length (lines_of (map_of plan.now)) }
{
    count_of(plan.lines())
}

/// How many of the triangles have a label.
fn count_labels(labels: &[Option<u16>]) -> u64
    ensures { result ≡ length (filter_map (λ label. label) labels.now) }
{
    let mut count = 0;
    for label in labels {
        if label.is_some() {
            count += 1;
        }
    }
    count
}

/// What a sound map has: numbers of lines, points, sectors and triangles on faces that have a sector.
#[derive(Clone, Copy)]
struct MapCounts {
    lines: u64,
    points: u64,
    sectors: u64,
    triangles: u64,
}

fn counts_of(plan: &Plan, labels: &Labels) -> MapCounts
    ensures lines { result.lines ≡ length (lines_of (map_of plan.now)) }
    ensures points { result.points ≡ length (points_of (map_of plan.now)) }
    ensures sectors { result.sectors ≡ plan.now.sectors }
    ensures triangles { result.triangles ≡ length (filter_map (λ label. label) labels.now) }
{
    MapCounts {
        lines: count_lines(plan),
        points: plan.points().len() as u64,
        sectors: u64::from(plan.sectors),
        triangles: count_labels(labels.as_slice()),
    }
}

fn line_of_counts(alloc: Global, counts: MapCounts) -> Result<String, AllocError>
    ensures { IfOk result (λ line. string_bytes line ≡ codes "sound lines " ++ decimal counts.lines ++ codes " points " ++ decimal counts.points ++ codes " sectors " ++ decimal counts.sectors ++ codes " triangles " ++ decimal counts.triangles ++ codes "\n") }
{
    let mut line = String::new(alloc);
    push_count(alloc, &mut line, "sound lines ", counts.lines)?;
    push_count(alloc, &mut line, " points ", counts.points)?;
    push_count(alloc, &mut line, " sectors ", counts.sectors)?;
    push_count_line(alloc, &mut line, " triangles ", counts.triangles)?;
    Ok(line)
}

fn sound_line_of(alloc: Global, plan: &Plan, labels: &Labels) -> Result<String, AllocError>
    ensures { IfOk result (λ line. string_bytes line ≡ sound_line (map_of plan.now) labels.now) }
{
    line_of_counts(alloc, counts_of(plan, labels))
}

/// The line that says what a sound map has, or the flaw of one that isn't.
pub fn judge_audit(alloc: Global, plan: &Plan) -> Result<String, Status>
    ensures judged { GivesCalled ⊤ (AuditCalls (map_of plan.now)) (line_answer result) }
    ensures refusals { IfErr result IsOfMapTest }
{
    let groups = audit_map(alloc, plan)?;
    match sound_line_of(alloc, plan, &groups.grouped.labels) {
        Ok(line) => Ok(line),
        Err(refused) => Err(Status::Memory(refused.into())),
    }
}
