//! How the faces of a group are painted.

ghost use Rattle.std.specs.Prelude.{◌≡◌, ◌<◌, ◌*◌, ◌+◌, ◌==◌, All, IfOk, map};
ghost use Rattle.std.specs.List.{list_all};
ghost use Rattle.sight_names.specs.Table.{table_bit};
ghost use Rattle.map_picture.specs.Picture.{heat_tints as the_heat_tints, most_of as the_most_of, pair_tint as the_pair_tint, row_tint as the_row_tint};
ghost use Rattle.map_picture.specs.declared.tint.Tint.TheVariants as tint;

use reject_bits::Table;
use sight_names::{Items, Memory};
use std::alloc::Global;

/// What a picture of a row or of a pair tells of a group of sectors.
#[derive(Clone, Copy)]
pub enum Tint {
    /// It names the sector whose row it is, or the first of a pair.
    Source,
    /// The table has a clear bit for one of its sectors.
    Clear,
    /// The table has a set bit for each of its sectors.
    Set,
    /// It names the second sector of a pair, and not the first, which is the source.
    Target,
    /// It names none of a pair, or nothing is told of it.
    Other,
    /// A count of it, and the greatest count of all groups.
    Heat { count: u16, most: u16 },
}

/// Whether the bit of the pair is set.
fn is_set(table: &Table, a: u16, b: u16) -> bool
    requires row { a < table.now.n }
    requires name { b < table.now.n }
    ensures { result ≡ (table_bit table.now.bytes (a * table.now.n + b) == 1) }
{
    table.rejects(a, b)
}

/// Whether the bit of each of these sectors is set in the row.
fn are_set(table: &Table, a: u16, names: &[u16]) -> bool
    requires row { a < table.now.n }
    requires names { All (λ b. b < table.now.n) names.now }
    ensures { result ≡ list_all (λ b. table_bit table.now.bytes (a * table.now.n + b) == 1) names.now }
{
    for b in names {
        if !is_set(table, a, *b) {
            return false;
        }
    }
    true
}

/// What the row of sector `a` says of a group.
fn row_tint(table: &Table, a: u16, names: &[u16]) -> Tint
    requires row { a < table.now.n }
    requires names { All (λ b. b < table.now.n) names.now }
    ensures { result ≡ the_row_tint table.now a names.now }
{
    if names.contains(&a) {
        Tint::Source
    } else if are_set(table, a, names) {
        Tint::Set
    } else {
        Tint::Clear
    }
}

/// What the row of sector `a` says of each group.
pub fn row_tints(
    alloc: Global,
    groups: &[Items<u16>],
    table: &Table,
    a: u16,
) -> Result<Vec<Tint>, Memory>
    requires row { a < table.now.n }
    requires names { All (All (λ b. b < table.now.n)) groups.now }
    ensures { IfOk result (λ v. v.items ≡ map (the_row_tint table.now a) groups.now) }
{
    let mut tints = Vec::with_capacity(alloc, groups.len())?;
    for group in groups {
        tints.push(row_tint(table, a, group.as_slice()))?;
    }
    Ok(tints)
}

/// What a pair says of a group.
fn pair_tint(a: u16, b: u16, names: &[u16]) -> Tint
    ensures { result ≡ the_pair_tint a b names.now }
{
    if names.contains(&a) {
        Tint::Source
    } else if names.contains(&b) {
        Tint::Target
    } else {
        Tint::Other
    }
}

/// What a pair says of each group.
pub fn pair_tints(alloc: Global, groups: &[Items<u16>], a: u16, b: u16) -> Result<Vec<Tint>, Memory>
    ensures { IfOk result (λ v. v.items ≡ map (the_pair_tint a b) groups.now) }
{
    let mut tints = Vec::with_capacity(alloc, groups.len())?;
    for group in groups {
        tints.push(pair_tint(a, b, group.as_slice()))?;
    }
    Ok(tints)
}

/// What a plan says of each group.
pub fn plan_tints(alloc: Global, groups: &[Items<u16>]) -> Result<Vec<Tint>, Memory>
    ensures { IfOk result (λ v. v.items ≡ map (λ names. tint.Other) groups.now) }
{
    let mut tints = Vec::with_capacity(alloc, groups.len())?;
    for _group in groups {
        tints.push(Tint::Other)?;
    }
    Ok(tints)
}

/// The greatest of the counts.
pub fn most_of(counts: &[u16]) -> u16
    ensures { result ≡ the_most_of counts.now }
{
    let mut most = 0;
    for count in counts {
        most = most.max(*count);
    }
    most
}

/// What counts say of their groups, if this is the greatest one.
pub fn heat_tints(alloc: Global, counts: &[u16], most: u16) -> Result<Vec<Tint>, Memory>
    ensures { IfOk result (λ v. v.items ≡ the_heat_tints counts.now most) }
{
    let mut tints = Vec::with_capacity(alloc, counts.len())?;
    for count in counts {
        tints.push(Tint::Heat {
            count: *count,
            most,
        })?;
    }
    Ok(tints)
}
