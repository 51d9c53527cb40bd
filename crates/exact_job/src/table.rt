//! The table of sectors, by the rays between their groups.

ghost use Rattle.std.specs.Prelude.{◌≡◌, ◌<◌, ℕ, Contains, IfOk, length, map};
ghost use Rattle.certificates.specs.declared.cert_exact.cert.ExactParts.{ExactParts as PartsOf};
ghost use Rattle.certificates.specs.CertExact.Grammar.{as_two};
ghost use Rattle.group_job.specs.Marks.{SetsMore};
ghost use Rattle.group_job.specs.Sectors.{AreListedByGroups, AreOfSectors, ArePairsBelow};
ghost use Rattle.found_rays.specs.Lines.{pair_of_ray};
ghost use Rattle.exact_job.specs.Table.{AreInOneGroup, IsTableOfGroups};

use face_groups::Group;
use reject_bits::Table;
use sight_names::{Memory, PairRay};
use std::alloc::Global;

/// Sets the bits of one sector with each of these.
fn set_row(table: &mut Table, a: u16, sectors: &[u16])
    requires row { a < table.old.n }
    requires below { (s : ℕ) → Contains sectors.now s → s < table.old.n }
    ensures { SetsMore (λ c d. (c ≡ a) × Contains sectors.now d) table.old table.new }
{
    for i in 0..sectors.len() {
        table.set(a, sectors[i]);
    }
}

/// Sets the bits of each of these sectors with each of those.
fn set_block(table: &mut Table, from: &[u16], to: &[u16])
    requires from { (s : ℕ) → Contains from.now s → s < table.old.n }
    requires to { (s : ℕ) → Contains to.now s → s < table.old.n }
    ensures { SetsMore (λ c d. Contains from.now c × Contains to.now d) table.old table.new }
{
    for i in 0..from.len() {
        set_row(table, from[i], to);
    }
}

/// Sets the bits of the sectors of each group with each other.
fn set_own(marks: &mut Table, groups: &[Group])
    requires { AreOfSectors marks.old.n groups.now }
    ensures { SetsMore (AreInOneGroup groups.now) marks.old marks.new }
{
    for i in 0..groups.len() {
        let own = groups[i].as_slice();
        set_block(marks, own, own);
    }
}

/// Sets the bits of each sector of the one group of a ray with each sector of the other, both ways, for each of these rays.
fn set_joined(marks: &mut Table, groups: &[Group], rays: &[PairRay])
    requires below { AreOfSectors marks.old.n groups.now }
    requires pairs { ArePairsBelow (length groups.now) (map pair_of_ray rays.now) }
    ensures { SetsMore (AreListedByGroups (map pair_of_ray rays.now) groups.now) marks.old marks.new }
{
    for i in 0..rays.len() {
        let from = groups[rays[i].pair.a as usize].as_slice();
        let to = groups[rays[i].pair.b as usize].as_slice();
        set_block(marks, from, to);
        set_block(marks, to, from);
    }
}

/// The table of so many sectors: a bit is set exactly where no groups of the two are joined by these rays.
pub fn table_of(
    alloc: Global,
    sectors: u16,
    groups: &[Group],
    rays: &[PairRay],
) -> Result<Table, Memory>
    requires below { AreOfSectors sectors groups.now }
    requires pairs { ArePairsBelow (length groups.now) (map pair_of_ray rays.now) }
    ensures sectors { IfOk result (λ t. t.n ≡ sectors) }
    ensures pairs { (c : PartsOf) → c.groups ≡ groups.now → c.rays ≡ rays.now → IfOk result (IsTableOfGroups (as_two c)) }
{
    let mut seen = Table::clear(alloc, sectors)?;
    set_own(&mut seen, groups);
    set_joined(&mut seen, groups, rays);
    let table = seen.others();
    Ok(table)
}
