//! How many pairs of sectors hear each other.

ghost use Rattle.std.specs.Prelude.{◌≡◌, ◌+◌, ◌*◌, ◌<◌, IfOk, length};
ghost use Rattle.sight_names.specs.Map.{map_of};
ghost use Rattle.sight_names.specs.Noise.{AreHeardCounts};
ghost use Rattle.sound_reach.specs.Counts.{AreFilled, AreRows, is_heard_near};

use crate::doors::Doors;
use crate::search::distances_to;
use crate::state::{State, place};
use sight_names::{Memory, Plan};
use std::alloc::Global;

/// How many pairs (a, b) of sectors with a <= b there are between which a noise passes, and between which none does.
#[derive(Clone, Copy)]
pub struct Heard {
    pub pairs: u32,
    pub silent: u32,
}

/// Whether a distance is known from this sector, with or without a line to spare.
fn is_near_at(distances: &[Option<u32>], sector: u16, spare: bool) -> bool
    requires { sector * 2 + 1 < length distances.now }
    ensures { result ≡ is_heard_near distances.now spare sector }
{
    distances[place(State { sector, spare })].is_some()
}

/// Counts for each sector that is near without a line to spare the sectors from it on that are near with one.
fn fill(sectors: u16, distances: &[Option<u32>], rows: &mut [Option<u32>])
    requires distances { length distances.now ≡ sectors * 2 }
    requires rows { length rows.old ≡ sectors }
    ensures { AreFilled sectors distances.now rows.old rows.new }
{
    let mut count = 0;
    for done in 0..sectors {
        let sector = sectors - 1 - done;
        if is_near_at(distances, sector, true) {
            count += 1;
        }
        if is_near_at(distances, sector, false) {
            rows[sector as usize] = Some(count);
        }
    }
}

/// For each sector how many of the sectors from it on hear it. Sectors that lines connect that don't block sound hear and are heard
/// alike, so one search serves them all.
fn rows_of(alloc: Global, plan: &Plan, dampers: &[bool]) -> Result<Vec<Option<u32>>, Memory>
    requires { length dampers.now ≡ length plan.now.lines }
    ensures { IfOk result (λ rows. AreRows (map_of plan.now) dampers.now plan.now.sectors rows.items) }
{
    let doors = Doors::of(alloc, plan, dampers)?;
    let mut rows = vec![in alloc; None; plan.sectors as usize]?;
    for sector in 0..plan.sectors {
        if rows[sector as usize].is_none() {
            let distances = distances_to(alloc, &doors, sector)?;
            fill(plan.sectors, &distances, &mut rows);
        }
    }
    Ok(rows)
}

/// Counts the pairs of sectors with and without a noise path.
pub fn count_heard(alloc: Global, plan: &Plan, dampers: &[bool]) -> Result<Heard, Memory>
    requires { length dampers.now ≡ length plan.now.lines }
    ensures { IfOk result (λ heard. AreHeardCounts (map_of plan.now) dampers.now heard.pairs heard.silent) }
{
    let sectors = plan.sectors;
    let rows = rows_of(alloc, plan, dampers)?;
    let mut heard = Heard {
        pairs: 0,
        silent: 0,
    };
    for (sector, row) in rows.iter().enumerate() {
        if let Some(count) = row {
            heard.pairs += *count;
            heard.silent += sectors as u32 - sector as u32 - *count;
        }
    }
    Ok(heard)
}
