//! What comes of one map of a WAD.

ghost use Rattle.std.specs.Prelude.{◌≡◌, ◌+◌, ◌≤◌, length, All, IfOk, IsTrue, Ok};
ghost use Rattle.sight_names.specs.Map.{map_of};
ghost use Rattle.wad_dir.specs.Map.{entry_names};
ghost use Rattle.wad_dir.specs.Wad.{file_of, names_of_lumps};
ghost use Rattle.wad_dir.specs.AllMaps.Maps.{is_map_name};
ghost use Rattle.whole_wad.specs.Outcomes.{ComesOf, stop_of_all};
ghost use Rattle.whole_wad.specs.Rejects.{fate_of};
ghost use Rattle.whole_wad.specs.Tables.{Gets};

use crate::fate::{Fate, fate_built, fate_kept, fate_refused, reject_named};
use crate::hooks::Hooks;
use crate::tables::{MapTable, table_of};
use map_answers::plan_named;
use map_answers::sight_status::Status;
use refused_maps::Refused;
use sight_names::{Memory, Method, Plan};
use sight_workers::Gate;
use std::alloc::Global;
use std::thread::Threads;
use wad_dir::Wad;
use wad_dir::all_maps::text_of;

/// What comes of one map of a WAD: its table, or why it gets none, and what becomes of its REJECT. The name is in upper case,
/// padded with NUL.
#[derive(Drop)]
pub struct MapOutcome {
    pub name: [u8; 8],
    pub made: Result<MapTable, Status>,
    pub fate: Fate,
}

/// What comes of a map that was read, whose REJECT has these bytes.
fn planned_outcome<R: Threads + Sync, G: Gate + Sync>(
    rt: &R,
    alloc: Global,
    plan: &Plan,
    old: &[u8],
    name: [u8; 8],
    workers: u16,
    method: Method,
    refused: Refused,
    hooks: &Hooks<'_, G>,
) -> Result<MapOutcome, Memory>
    requires workers { (1 ≤ workers) × (workers ≤ 64) }
    ensures name { IfOk result (λ outcome. outcome.name ≡ name) }
    ensures gets { IfOk result (λ outcome. Gets (Ok (map_of plan.now)) method outcome.made) }
    ensures fate { IfOk result (λ outcome. outcome.fate ≡ fate_of refused (Ok (map_of plan.now)) old.now outcome.made) }
{
    match table_of(rt, alloc, plan, workers, method, hooks) {
        Ok(made) => {
            let fate = fate_built(old, &made.table);
            Ok(MapOutcome {
                name,
                made: Ok(made),
                fate,
            })
        }
        Err(Status::Memory(ref memory)) => Err(*memory),
        Err(refusal) => Ok(MapOutcome {
            name,
            made: Err(refusal),
            fate: fate_refused(alloc, refused, plan, old)?,
        }),
    }
}

/// What comes of the map of that name, which is told to whoever watches.
pub fn outcome_of<R: Threads + Sync, G: Gate + Sync>(
    rt: &R,
    alloc: Global,
    bytes: &[u8],
    wad: &Wad,
    large: bool,
    name: &[u8; 8],
    workers: u16,
    method: Method,
    refused: Refused,
    hooks: &Hooks<'_, G>,
) -> Result<MapOutcome, Memory>
    requires inside { All (λ entry. entry.at + entry.size ≤ length bytes.now) wad.now.entries }
    requires names { names_of_lumps (file_of bytes.now wad.now) ≡ entry_names wad.now.entries }
    requires named { IsTrue (is_map_name name.now) }
    requires workers { (1 ≤ workers) × (workers ≤ 64) }
    ensures name { IfOk result (λ outcome. outcome.name ≡ name.now) }
    ensures comes { IfOk result (ComesOf (file_of bytes.now wad.now) large method refused) }
    ensures named { IfOk result (λ outcome. IsTrue (is_map_name outcome.name)) }
{
    let name = *name;
    let text = text_of(&name);
    hooks.begin(text);
    let old = reject_named(bytes, wad, text);
    match plan_named(alloc, bytes, wad, large, text) {
        Ok(plan) => planned_outcome(rt, alloc, &plan, old, name, workers, method, refused, hooks),
        Err(Status::Memory(ref memory)) => Err(*memory),
        Err(refusal) => Ok(MapOutcome {
            name,
            made: Err(refusal),
            fate: fate_kept(old),
        }),
    }
}

/// The refusal of a map, where it stops all.
pub fn stop_of(refused: Refused, made: &Result<MapTable, Status>) -> Option<Status>
    ensures { result ≡ stop_of_all refused made.now }
{
    match (refused, made) {
        (Refused::Stop, Err(refusal)) => Some(*refusal),
        _ => None,
    }
}
