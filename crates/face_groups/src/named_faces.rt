//! The faces of which some side names a sector, in the order of their lists.

ghost use Rattle.std.specs.Prelude.{◌≤◌, IfOk, OnOk, length};
ghost use Rattle.std.specs.List.Sorted.{IsPermutation};
ghost use Rattle.sight_names.specs.Order.{Ascends};
ghost use Rattle.face_groups.specs.Namings.{NamingBefore};
ghost use Rattle.face_groups.specs.NamedFaces.{IsFaceAdded, AreNamedFaces, RiseAsLists};

use crate::namings::{Naming, sectors_on};
use crate::short_list::FewNumbers;
use sight_names::Memory;
use std::alloc::Global;

/// A face, told by its least triangle, with the sectors that its sides name, ascending. They are put in order by their
/// lists, a front of a list before it.
#[derive(PartialEq, Eq, PartialOrd, Ord, Drop)]
pub struct NamedFace {
    pub sectors: FewNumbers,
    pub face: u16,
}

/// Adds the face, if its sides name a sector.
fn add_face(named: &mut Vec<NamedFace>, face: NamedFace) -> Result<(), Memory>
    ensures { OnOk result (IsFaceAdded face named.old.items named.new.items) }
{
    if face.sectors.is_empty() {
        return Ok(());
    }
    named.push(face)?;
    Ok(())
}

/// Those of the first so many faces of which some side names a sector.
fn all_faces(alloc: Global, namings: &[Naming], count: u16) -> Result<Vec<NamedFace>, Memory>
    requires { Ascends NamingBefore namings.now }
    ensures few { IfOk result (λ v. length v.items ≤ count) }
    ensures faces { IfOk result (λ v. AreNamedFaces namings.now count v.items) }
{
    let mut named = Vec::new(alloc);
    for face in 0..count {
        let sectors = sectors_on(alloc, namings, face)?;
        add_face(&mut named, NamedFace { sectors, face })?;
    }
    Ok(named)
}

/// The faces in the order of their lists.
fn in_order(found: Vec<NamedFace>) -> Vec<NamedFace>
    ensures same { IsPermutation found.items result.items }
    ensures order { RiseAsLists result.items }
{
    let mut named = found;
    named.sort_unstable();
    named
}

/// The same faces, in the order of their lists.
pub fn named_faces(alloc: Global, namings: &[Naming], count: u16) -> Result<Vec<NamedFace>, Memory>
    requires { Ascends NamingBefore namings.now }
    ensures few { IfOk result (λ v. length v.items ≤ count) }
    ensures faces { IfOk result (λ v. AreNamedFaces namings.now count v.items) }
    ensures order { IfOk result (λ v. RiseAsLists v.items) }
{
    let found = all_faces(alloc, namings, count)?;
    Ok(in_order(found))
}
