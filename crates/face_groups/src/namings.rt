//! What the sides of lines say of faces: the sectors that they name there, as one list in order.

ghost use Rattle.std.specs.Prelude.{◌≡◌, IfOk, All, filter_map, length, map};
ghost use Rattle.std.specs.List.Sorted.{IsNonDecreasingBy};
ghost use Rattle.sight_names.specs.Map.{map_of};
ghost use Rattle.sight_names.specs.Order.{Ascends};
ghost use Rattle.face_groups.specs.TriSectors.Classes.{IsBelow};
ghost use Rattle.face_groups.specs.declared.namings.Naming.{Naming};
ghost use Rattle.face_groups.specs.Namings.{said_by, NamingBefore, AreNamingsInOrder, AreNamings, AreSectorsOn, IsRunOf, IsNamingStart};

use crate::short_list::FewNumbers;
use crate::tri_sectors::sides::{FacedSide, faced_sides};
use mesh_shape::Mesh;
use sight_names::{Memory, Plan};
use std::alloc::Global;

/// A side of the face names the sector. A face is told by the number of its least triangle.
#[derive(Clone, Copy, PartialEq, Eq, PartialOrd, Ord)]
pub struct Naming {
    pub face: u16,
    pub sector: u16,
}

/// What the side says of its face, if it names a sector.
fn naming_of(side: FacedSide) -> Option<Naming>
    ensures { result ≡ said_by side }
{
    let sector = side.sector?;
    Some(Naming {
        face: side.face,
        sector,
    })
}

/// What all sides say, in their order.
fn all_namings(alloc: Global, sides: &[FacedSide]) -> Result<Vec<Naming>, Memory>
    ensures { IfOk result (λ v. v.items ≡ filter_map said_by sides.now) }
{
    let namings = sides
        .iter()
        .filter_map(|side| naming_of(*side))
        .collect(alloc)?;
    Ok(namings)
}

/// The namings in order, each once.
fn in_order(all: Vec<Naming>) -> Vec<Naming>
    ensures { AreNamingsInOrder all.items result.items }
{
    let mut namings = all;
    namings.sort_unstable();
    namings.dedup();
    namings
}

/// What the sides that have triangles say of the faces of these: in order, each once.
pub fn namings_of(
    alloc: Global,
    plan: &Plan,
    mesh: &Mesh,
    faces: &[u16],
) -> Result<Vec<Naming>, Memory>
    requires len { length faces.now ≡ length mesh.now.triangles }
    requires range { All (IsBelow (length mesh.now.triangles)) faces.now }
    ensures { IfOk result (λ v. AreNamings (map_of plan.now) mesh.now.triangles faces.now v.items) }
{
    let sides = faced_sides(alloc, plan, mesh, faces)?;
    let all = all_namings(alloc, sides.as_slice())?;
    Ok(in_order(all))
}

/// The place of the first naming of this face or of a later one.
fn start_of(namings: &[Naming], face: u32) -> usize
    requires { IsNonDecreasingBy (λ (n : Naming). n.face) namings.now }
    ensures { IsNamingStart namings.now face result }
{
    namings.partition_point(|naming| (naming.face as u32) < face)
}

/// The namings of one face.
fn run_of(namings: &[Naming], face: u16) -> &[Naming]
    requires { Ascends NamingBefore namings.now }
    ensures { IsRunOf namings.now face result.now }
{
    let start = start_of(namings, face as u32);
    let end = start_of(namings, face as u32 + 1);
    &namings[start..end]
}

/// The sectors of namings, in their order.
fn sectors_of(alloc: Global, namings: &[Naming]) -> Result<FewNumbers, Memory>
    ensures { IfOk result (λ v. v.items ≡ map (λ n. n.sector) namings.now) }
{
    let sectors = namings.iter().map(|naming| naming.sector).collect(alloc)?;
    Ok(sectors)
}

/// The sectors that sides of this face name, ascending.
pub fn sectors_on(alloc: Global, namings: &[Naming], face: u16) -> Result<FewNumbers, Memory>
    requires { Ascends NamingBefore namings.now }
    ensures { IfOk result (λ v. AreSectorsOn namings.now face v.items) }
{
    sectors_of(alloc, run_of(namings, face))
}
