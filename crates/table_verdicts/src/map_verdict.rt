//! What is said of the REJECT of the map of a name.

ghost use Rattle.std.specs.Prelude.{◌≡◌, ◌+◌, ◌≤◌, length, All, IfOk, IsTrue};
ghost use Rattle.wad_dir.specs.Map.{entry_names};
ghost use Rattle.wad_dir.specs.Wad.{file_of, names_of_lumps};
ghost use Rattle.wad_dir.specs.AllMaps.Maps.{is_map_name};
ghost use Rattle.map_answers.specs.Input.{map_named};
ghost use Rattle.whole_wad.specs.Rejects.{reject_named};
ghost use Rattle.table_verdicts.specs.Verdict.{IsVerdictOrMemory};
ghost use Rattle.table_verdicts.specs.Verdicts.{SaysOf};

use crate::judging::verdict_of;
use crate::verdict::{MapVerdict, Verdict};
use map_answers::plan_named;
use map_answers::sight_status::Status;
use sight_names::Memory;
use sight_workers::Gate;
use std::alloc::Global;
use std::thread::Threads;
use wad_dir::Wad;
use wad_dir::all_maps::text_of;
use whole_wad::{Hooks, reject_named};

/// What is said of the REJECT of the map of that name, or the first check that fails.
fn verdict_named<R: Threads + Sync, G: Gate + Sync>(
    rt: &R,
    alloc: Global,
    bytes: &[u8],
    wad: &Wad,
    large: bool,
    name: &str,
    workers: u16,
    hooks: &Hooks<'_, G>,
) -> Result<Verdict, Status>
    requires inside { All (λ entry. entry.at + entry.size ≤ length bytes.now) wad.now.entries }
    requires names { names_of_lumps (file_of bytes.now wad.now) ≡ entry_names wad.now.entries }
    requires workers { (1 ≤ workers) × (workers ≤ 64) }
    ensures { IsVerdictOrMemory (map_named large (file_of bytes.now wad.now) name.now) (reject_named (file_of bytes.now wad.now) name.now) result }
{
    let plan = plan_named(alloc, bytes, wad, large, name)?;
    verdict_of(
        rt,
        alloc,
        &plan,
        reject_named(bytes, wad, name),
        workers,
        hooks,
    )
}

/// What is said of the map of that name, which is told to whoever watches.
pub fn verdict_on<R: Threads + Sync, G: Gate + Sync>(
    rt: &R,
    alloc: Global,
    bytes: &[u8],
    wad: &Wad,
    large: bool,
    name: &[u8; 8],
    workers: u16,
    hooks: &Hooks<'_, G>,
) -> Result<MapVerdict, Memory>
    requires inside { All (λ entry. entry.at + entry.size ≤ length bytes.now) wad.now.entries }
    requires names { names_of_lumps (file_of bytes.now wad.now) ≡ entry_names wad.now.entries }
    requires named { IsTrue (is_map_name name.now) }
    requires workers { (1 ≤ workers) × (workers ≤ 64) }
    ensures name { IfOk result (λ v. v.name ≡ name.now) }
    ensures says { IfOk result (SaysOf (file_of bytes.now wad.now) large) }
    ensures named { IfOk result (λ v. IsTrue (is_map_name v.name)) }
{
    let name = *name;
    let text = text_of(&name);
    hooks.begin(text);
    match verdict_named(rt, alloc, bytes, wad, large, text, workers, hooks) {
        Ok(verdict) => Ok(MapVerdict {
            name,
            said: Ok(verdict),
        }),
        Err(Status::Memory(ref memory)) => Err(*memory),
        Err(refusal) => Ok(MapVerdict {
            name,
            said: Err(refusal),
        }),
    }
}
