//! The map that four lumps of a caller spell.

ghost use Rattle.std.specs.Prelude.{◌≡◌, ◌+◌, ◌*◌, ◌<◌, ◌≤◌, ◌/◌, length, IfErr};
ghost use Rattle.sight_names.specs.Lumps.{i32_at};
ghost use Rattle.sight_names.specs.Map.{map_of};
ghost use Rattle.map_answers.specs.SightStatus.Answer.{MakesAnswer};
ghost use Rattle.map_answers.specs.SightStatus.Status.{IsOfBytes};
ghost use Rattle.doomsight_c.specs.Lumps.{TextsAreNear, VerticesAreAsSpelled, far_vertex as the_far_vertex, first_far as the_first_far, is_far as is_too_far, is_far_vertex as is_vertex_too_far, of_lumps_given};

use map_answers::plan_of;
use map_answers::sight_status::Status;
use sight_names::{FARTHEST, MapFormat, Plan, Reading};
use std::alloc::Global;
use udmf_map::TextFault;

/// How many bytes a record of VERTEXES has that a text spells.
const VERTEX_LEN: usize = 8;

/// Whether the number of 32 bits at this byte is farther from 0 than a coordinate may be.
fn is_far(vertexes: &[u8], at: usize) -> bool
    requires { at + 4 ≤ length vertexes.now }
    ensures { result ≡ is_too_far (i32_at vertexes.now at) }
{
    let four = &vertexes[at..at + 4];
    let number = i32::from_le_bytes([four[0], four[1], four[2], four[3]]);
    number.unsigned_abs() > FARTHEST
}

/// Whether a vertex is too far away.
fn is_far_vertex(vertexes: &[u8], k: usize) -> bool
    requires { k < length vertexes.now / 8 }
    ensures { result ≡ is_vertex_too_far vertexes.now k }
{
    let at = VERTEX_LEN * k;
    is_far(vertexes, at) || is_far(vertexes, at + 4)
}

/// The first vertex that is too far away.
fn first_far(vertexes: &[u8]) -> Option<usize>
    ensures { result ≡ the_first_far vertexes.now 0 (length vertexes.now / 8) }
{
    for k in 0..vertexes.len() / VERTEX_LEN {
        if is_far_vertex(vertexes, k) {
            return Some(k);
        }
    }
    None
}

/// .. of a map in this format: numbers of 16 bits aren't too far.
fn far_vertex(format: MapFormat, vertexes: &[u8]) -> Option<usize>
    ensures { result ≡ the_far_vertex format vertexes.now }
{
    match format {
        MapFormat::Doom | MapFormat::Hexen => None,
        MapFormat::Text => first_far(vertexes),
    }
}

/// The map that four lumps spell, or the first check that fails. No vertex is taken for another one.
pub fn plan_given(
    alloc: Global,
    reading: Reading,
    linedefs: &[u8],
    sidedefs: &[u8],
    vertexes: &[u8],
    sectors: &[u8],
) -> Result<Plan, Status>
    ensures refusals { IfErr result IsOfBytes }
    ensures map { MakesAnswer map_of result (of_lumps_given reading linedefs.now sidedefs.now vertexes.now sectors.now) }
{
    let far = far_vertex(reading.format, vertexes);
    match plan_of(alloc, reading, linedefs, sidedefs, vertexes, sectors) {
        Ok(plan) => match far {
            None => Ok(plan),
            Some(vertex) => Err(Status::BadText(TextFault::OffGrid { vertex })),
        },
        Err(status) => Err(status),
    }
}

/// No vertex that a text spells is too far away.
pub fn texts_are_near()
    ensures { TextsAreNear }
{}

/// Each vertex of a map that was read stands where its record says.
pub fn vertices_are_as_spelled()
    ensures { VerticesAreAsSpelled }
{}
