//! The table of groups.

ghost use Rattle.std.specs.Prelude.{◌≡◌, None};
ghost use Rattle.cert_format.specs.Reading.{GivesCert};
ghost use Rattle.cert_format.specs.CertGroups.Reading.{group_after, last_of, sectors_at, group_at, groups_at};

use crate::cert_groups::cert::Group;
use crate::cert_groups::fields::{sector_of, size_of_group};
use crate::fields::place;
use sight_names::{CertFault, Items};
use std::alloc::Global;

/// So many sectors of a group, ascending.
fn sectors_of(
    alloc: Global,
    sectors: u16,
    total: usize,
    count: u16,
    bytes: &[u8],
) -> Result<(Vec<u16>, &[u8]), CertFault>
    ensures { GivesCert (λ x. (x.0.items, x.1.now)) result (sectors_at sectors total None count bytes.now) }
{
    let mut group = Vec::new(alloc);
    let mut last = None;
    let mut rest = bytes;
    for _ in 0..count {
        let (one, after) = sector_of(sectors, total, last, rest)?;
        group.push(one)?;
        last = Some(one);
        rest = after;
    }
    Ok((group, rest))
}

/// Whether the group comes after the last of these.
fn is_group_behind(groups: &[Group], group: &[u16]) -> bool
    ensures { result ≡ group_after (last_of groups.now) group.now }
{
    match groups.last() {
        None => true,
        Some(last) => last.as_slice().cmp(&group).is_lt(),
    }
}

/// The group that comes first, behind these. It is out of order only once each of its sectors was read.
#[tactic(auto, unfolding(crate::specs::CertGroups::Reading::group_at))]
fn group_of<'a>(
    alloc: Global,
    sectors: u16,
    total: usize,
    groups: &[Group],
    bytes: &'a [u8],
) -> Result<(Group, &'a [u8]), CertFault>
    ensures { GivesCert (λ x. (x.0, x.1.now)) result (group_at sectors total (last_of groups.now) bytes.now) }
{
    let (count, rest) = size_of_group(total, bytes)?;
    let (group, rest) = sectors_of(alloc, sectors, total, count, rest)?;
    if is_group_behind(groups, group.as_slice()) {
        Ok((Items::of(group), rest))
    } else {
        Err(CertFault::NotSorted {
            at: place(total, bytes),
        })
    }
}

/// So many groups of sectors below this number, in order.
pub fn groups_of(
    alloc: Global,
    sectors: u16,
    total: usize,
    count: u16,
    bytes: &[u8],
) -> Result<(Vec<Group>, &[u8]), CertFault>
    ensures { GivesCert (λ x. (x.0.items, x.1.now)) result (groups_at sectors total None count bytes.now) }
{
    let mut groups = Vec::new(alloc);
    let mut rest = bytes;
    for _ in 0..count {
        let (one, after) = group_of(alloc, sectors, total, groups.as_slice(), rest)?;
        groups.push(one)?;
        rest = after;
    }
    Ok((groups, rest))
}
