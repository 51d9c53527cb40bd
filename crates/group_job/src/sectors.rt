//! The table of sectors and their listed pairs, from those of groups.

ghost use Rattle.std.specs.Prelude.{◌≡◌, ℕ, ◌+◌, ◌<◌, Contains, IfOk, OnOk, length};
ghost use Rattle.sight_names.specs.Groups.{IsInGroup};
ghost use Rattle.reject_bits.specs.Parts.{Rejects};
ghost use Rattle.group_job.specs.Marks.{SetsMore};
ghost use Rattle.group_job.specs.Sectors.{AreClear, AreListed, AreListedByGroups, AreOfSectors, ArePairsBelow, HasClearPairs, ListsBetween, FollowGroups};
ghost use Rattle.group_job.specs.Rows.{ListedBefore};

use cert_format::cert_groups::Group;
use reject_bits::Table;
use sight_names::{Items, Memory, Pair};
use std::alloc::Global;

/// The table of a map's sectors, and their listed pairs.
#[derive(Drop)]
pub struct SectorTable {
    pub table: Table,
    pub listed: Items<Pair>,
}

/// Sets the bits of one sector with each of these.
fn set_row(table: &mut Table, a: u16, sectors: &[u16])
    requires row { a < table.old.n }
    requires below { (s : ℕ) → Contains sectors.now s → s < table.old.n }
    ensures { SetsMore (λ c d. (c ≡ a) × Contains sectors.now d) table.old table.new }
{
    for i in 0..sectors.len() {
        table.set(a, sectors[i]);
    }
}

/// Sets the bits of each of these sectors with each of those.
fn set_block(table: &mut Table, from: &[u16], to: &[u16])
    requires from { (s : ℕ) → Contains from.now s → s < table.old.n }
    requires to { (s : ℕ) → Contains to.now s → s < table.old.n }
    ensures { SetsMore (λ c d. Contains from.now c × Contains to.now d) table.old table.new }
{
    for i in 0..from.len() {
        set_row(table, from[i], to);
    }
}

/// Sets the bits of each sector of one group with each sector of a group whose bit with it is clear.
fn set_clear_row(marks: &mut Table, groups: &[Group], table: &Table, f: u16)
    requires groups { table.now.n ≡ length groups.now }
    requires row { f < table.now.n }
    requires below { AreOfSectors marks.old.n groups.now }
    ensures { SetsMore (λ c d. (k : ℕ) × IsInGroup groups.now c f × IsInGroup groups.now d k × (¬ Rejects table.now f k)) marks.old marks.new }
{
    let end = table.sectors();
    let mut k = table.next_clear(f, 0);
    while k < end {
        set_block(
            marks,
            groups[f as usize].as_slice(),
            groups[k as usize].as_slice(),
        );
        k = table.next_clear(f, k + 1);
    }
}

/// The table of so many sectors in which the bits of those are set that are in groups whose bit is clear.
fn clear_pairs(
    alloc: Global,
    sectors: u16,
    groups: &[Group],
    table: &Table,
) -> Result<Table, Memory>
    requires groups { table.now.n ≡ length groups.now }
    requires below { AreOfSectors sectors groups.now }
    ensures { IfOk result (HasClearPairs table.now groups.now sectors) }
{
    let mut marks = Table::clear(alloc, sectors)?;
    for f in 0..table.sectors() {
        set_clear_row(&mut marks, groups, table, f);
    }
    Ok(marks)
}

/// Sets both bits of each of these pairs.
fn set_pairs(table: &mut Table, pairs: &[Pair])
    requires { ArePairsBelow table.old.n pairs.now }
    ensures { SetsMore (AreListed pairs.now) table.old table.new }
{
    for i in 0..pairs.len() {
        table.set(pairs[i].a, pairs[i].b);
        table.set(pairs[i].b, pairs[i].a);
    }
}

/// Sets the bits of each sector of one group with each sector of the other, both ways, for each of these pairs of groups.
fn set_listed(marks: &mut Table, groups: &[Group], pairs: &[Pair])
    requires below { AreOfSectors marks.old.n groups.now }
    requires pairs { ArePairsBelow (length groups.now) pairs.now }
    ensures { SetsMore (AreListedByGroups pairs.now groups.now) marks.old marks.new }
{
    for i in 0..pairs.len() {
        let from = groups[pairs[i].a as usize].as_slice();
        let to = groups[pairs[i].b as usize].as_slice();
        set_block(marks, from, to);
        set_block(marks, to, from);
    }
}

/// Puts the pairs of one smaller sector at the end that have their bit in the one table and not in the other.
fn list_row(listed: &mut Vec<Pair>, these: &Table, others: &Table, a: u16) -> Result<(), Memory>
    requires sectors { others.now.n ≡ these.now.n }
    requires row { a < these.now.n }
    requires before { ListedBefore these.now others.now a 0 listed.old.items }
    ensures { OnOk result (ListedBefore these.now others.now (a + 1) 0 listed.new.items) }
{
    let end = these.sectors();
    let mut b = these.next_set(a, a + 1);
    while b < end {
        if !others.rejects(a, b) {
            listed.push(Pair { a, b })?;
        }
        b = these.next_set(a, b + 1);
    }
    Ok(())
}

/// The pairs that have their bit in the one table and not in the other, the smaller sector first, in order.
fn listed_between(alloc: Global, these: &Table, others: &Table) -> Result<Vec<Pair>, Memory>
    requires { others.now.n ≡ these.now.n }
    ensures { IfOk result (λ v. ListsBetween these.now others.now v.items) }
{
    let mut listed = Vec::new(alloc);
    for a in 0..these.sectors() {
        list_row(&mut listed, these, others, a)?;
    }
    Ok(listed)
}

/// The table of the map's sectors and their listed pairs, by the table of their groups and its listed pairs.
pub fn sector_table(
    alloc: Global,
    sectors: u16,
    groups: &Items<Group>,
    table: Table,
    pairs: &Items<Pair>,
) -> Result<SectorTable, Memory>
    requires groups { table.n ≡ length groups.now }
    requires below { AreOfSectors sectors groups.now }
    requires pairs { ArePairsBelow table.n pairs.now }
    requires clear { AreClear table pairs.now }
    ensures { IfOk result (λ s. FollowGroups table pairs.now groups.now sectors s.table s.listed) }
{
    let (groups, pairs) = (groups.as_slice(), pairs.as_slice());
    let mut unseen = table;
    set_pairs(&mut unseen, pairs);
    let mut seen = clear_pairs(alloc, sectors, groups, &unseen)?;
    let mut marks = Table::clear(alloc, sectors)?;
    set_listed(&mut marks, groups, pairs);
    let listed = listed_between(alloc, &marks, &seen)?;
    // the bits of listed groups are clear, so these are all clear pairs then
    set_listed(&mut seen, groups, pairs);
    let table = seen.others();
    Ok(SectorTable {
        table,
        listed: Items::of(listed),
    })
}

/// The same pairs.
pub fn copied(alloc: Global, pairs: &Items<Pair>) -> Result<Items<Pair>, Memory>
    ensures { IfOk result (λ v. v ≡ pairs.now) }
{
    let copy = Vec::from_slice(alloc, pairs.as_slice())?;
    Ok(Items::of(copy))
}
