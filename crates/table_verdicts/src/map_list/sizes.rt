//! How great a map is, and what its REJECT holds.

ghost use Rattle.std.specs.Prelude.{◌≡◌, IfOk, length};
ghost use Rattle.sight_names.specs.Map.{map_of};
ghost use Rattle.sight_names.specs.Points.{points_of};
ghost use Rattle.table_compare.specs.Counts.{IsCountOf};
ghost use Rattle.reject_bits.specs.Parts.{Rejects};
ghost use Rattle.whole_wad.specs.Rejects.{table_len};
ghost use Rattle.table_verdicts.specs.MapList.Entry.{set_bits, listed_sizes_of};

use crate::map_list::entry::{ListedFormat, MapSizes};
use crate::own::{OwnTable, own_table};
use map_answers::count_lines;
use reject_bits::Table;
use sight_names::{Memory, Plan};
use std::alloc::Global;
use table_compare::compare;

/// How many points the map has.
fn count_points(plan: &Plan) -> u64
    ensures { result ≡ length (points_of (map_of plan.now)) }
{
    plan.points().len() as u64
}

/// How many pairs a table has set: those that the table has alone in which none is.
fn count_set(alloc: Global, table: &Table) -> Result<u64, Memory>
    ensures { IfOk result (λ set. IsCountOf table.now.n (Rejects table.now) set) }
{
    let clear = Table::clear(alloc, table.sectors())?;
    Ok(compare(table, &clear).wrong)
}

/// The bytes of a table of so many sectors.
fn table_len(n: u16) -> u64
    ensures { result ≡ table_len n }
{
    (u64::from(n) * u64::from(n)).div_ceil(8)
}

/// How many pairs of so many sectors have their bit set in a REJECT; none are counted where it is too short for a table.
fn set_bits(alloc: Global, n: u16, reject: &[u8]) -> Result<Option<u64>, Memory>
    ensures { IfOk result (λ set. set ≡ set_bits n reject.now) }
{
    match own_table(alloc, n, reject)? {
        OwnTable::Whole(table) => Ok(Some(count_set(alloc, &table)?)),
        OwnTable::Short { .. } => Ok(None),
    }
}

/// How great a map of this format is, and what a REJECT of these bytes holds of it.
pub fn sizes_of(
    alloc: Global,
    plan: &Plan,
    format: ListedFormat,
    reject: &[u8],
) -> Result<MapSizes, Memory>
    ensures { IfOk result (λ sizes. sizes ≡ listed_sizes_of (map_of plan.now) format reject.now) }
{
    let set = set_bits(alloc, plan.sectors, reject)?;
    Ok(MapSizes {
        format,
        lines: count_lines(plan),
        points: count_points(plan),
        sectors: u64::from(plan.sectors),
        found: reject.len() as u64,
        expected: table_len(plan.sectors),
        set,
    })
}
