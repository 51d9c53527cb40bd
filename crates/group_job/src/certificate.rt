//! The certificate of what the walks found.

ghost use Rattle.std.specs.Prelude.{◌≡◌, ◌≤◌, ◌++◌, length, map, IfOk, OnOk};
ghost use Rattle.sight_names.specs.Mesh.{AreTriangles};
ghost use Rattle.cert_format.specs.declared.cert.Labelled.{Labelled as AtSector};
ghost use Rattle.cert_format.specs.Grammar.{IsOneInOrder};
ghost use Rattle.cert_format.specs.Sizes.{sizes_of_plan};
ghost use Rattle.sight_names.specs.Plan.{IsPlan};
ghost use Rattle.group_job.specs.Labelled.{labelled_of, labelled_if_any};

use block_evidence::sight_tree::Tree;
use cert_format::{Cert, Labelled, Sizes};
use mesh_shape::{Labels, Mesh};
use sight_names::{Items, Memory, Pair, PairRay, Plan, Triangle};
use std::alloc::Global;

/// Puts the triangle with its sector at the end, where it has one.
fn put(found: &mut Vec<Labelled>, triangle: Triangle, label: Option<u16>) -> Result<(), Memory>
    ensures { OnOk result (found.new.items ≡ found.old.items ++ labelled_if_any triangle label) }
{
    if let Some(sector) = label {
        found.push(Labelled { triangle, sector })?;
    }
    Ok(())
}

/// The triangles that have a sector, with it, in their order.
#[tactic(auto, using(crate::proofs::LabelledLaws::one_more_at))]
pub fn labelled(alloc: Global, mesh: &Mesh, labels: &Labels) -> Result<Vec<Labelled>, Memory>
    requires { length labels.now ≡ length mesh.now.triangles }
    ensures list { IfOk result (λ v. v.items ≡ labelled_of mesh.now.triangles labels.now) }
    ensures few { IfOk result (λ v. length v.items ≤ length mesh.now.triangles) }
    ensures ascend { IfOk result (λ v. AreTriangles mesh.now.points (map (λ (l : AtSector). l.triangle) v.items)) }
{
    let (triangles, labels) = (mesh.triangles(), labels.as_slice());
    let mut found = Vec::new(alloc);
    for number in 0..triangles.len() {
        put(&mut found, triangles[number], labels[number])?;
    }
    Ok(found)
}

/// The sizes of the map of a plan.
pub(crate) fn map_sizes(plan: &Plan) -> Sizes
    ensures sizes { result ≡ sizes_of_plan plan.now }
    ensures plan { IsPlan plan.now }
{
    Sizes {
        sectors: plan.sectors,
        points: plan.points().len() as u16,
        lines: plan.lines().len() as u16,
    }
}

/// The certificate of these parts, which are in range and order.
pub(crate) fn cert_of(
    sizes: Sizes,
    triangles: Vec<Labelled>,
    rays: Vec<PairRay>,
    listed: Vec<Pair>,
    trees: Vec<Tree>,
) -> Cert
    requires { IsOneInOrder (record { sizes = sizes; triangles = triangles.items; rays = rays.items; listed = listed.items; trees = trees.items }) }
    ensures in_order { IsOneInOrder result }
    ensures parts { result ≡ record { sizes = sizes; triangles = triangles.items; rays = rays.items; listed = listed.items; trees = trees.items } }
{
    Cert {
        sizes,
        triangles: Items::of(triangles),
        rays: Items::of(rays),
        listed: Items::of(listed),
        trees: Items::of(trees),
    }
}
