//! The table and the certificate that the walks of all sources of a map come to.

ghost use Rattle.std.specs.Prelude.{◌≡◌, IfOk, length};
ghost use Rattle.sight_names.specs.Enough.{IsBudgetOf};
ghost use Rattle.sight_names.specs.Map.{map_of};
ghost use Rattle.sight_names.specs.Mesh.{IsMeshOf};
ghost use Rattle.face_groups.specs.TriSectors.Components.{AreComponents};
ghost use Rattle.group_job.specs.Faces.{AreFacesOf, faces_of_job};
ghost use Rattle.group_job.specs.Results.{AreResultsOf, IsBuiltOver};

use crate::certificate::{cert_of, labelled, map_sizes};
use cert_format::Cert;
use mesh_shape::Mesh;
use pair_budget::{SourceResult, decide};
use portal_walk::enough_budget::enough;
use reject_bits::Table;
use sight_names::{Ask, Budget, Items, Memory, Pair, Plan};
use sight_workers::Job;
use std::alloc::Global;

/// A map's table, the pairs whose budgets ran out, and a certificate of the others, which lists no pair.
#[derive(Drop)]
pub struct Built {
    pub table: Table,
    pub listed: Items<Pair>,
    pub cert: Cert,
}

/// The budget that is asked for.
pub(crate) fn budget_for(ask: Ask, plan: &Plan, mesh: &Mesh) -> Budget
    requires { IsMeshOf (map_of plan.now) mesh.now.triangles }
    ensures { IsBudgetOf (map_of plan.now) ask result }
{
    match ask {
        Ask::Of(n) => Budget::Of(n),
        Ask::Full => Budget::Full,
        Ask::Enough => Budget::Of(enough(plan, mesh)),
    }
}

/// What the results of all sources of a job come to, over the faces of a sound map.
pub(crate) fn built_of(
    alloc: Global,
    job: Job<'_>,
    results: Vec<SourceResult>,
) -> Result<Built, Memory>
    requires faces { AreFacesOf job.plan.now (faces_of_job job) }
    requires components { AreComponents (map_of job.plan.now) job.components.now }
    requires len { length job.components.now ≡ job.plan.now.sectors }
    requires results { AreResultsOf job results.items }
    ensures { IfOk result (IsBuiltOver job.entry.plan.now (faces_of_job job.entry) job.entry.budget) }
{
    let verdicts = decide(alloc, job.plan, job.components, results)?;
    let triangles = labelled(alloc, job.mesh, job.labels)?;
    let cert = cert_of(
        map_sizes(job.plan),
        triangles,
        verdicts.rays.into_vec(),
        Vec::new(alloc),
        verdicts.trees.into_vec(),
    );
    Ok(Built {
        table: verdicts.table,
        listed: verdicts.listed,
        cert,
    })
}
