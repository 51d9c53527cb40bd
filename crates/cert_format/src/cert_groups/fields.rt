//! The fields that version 2 adds: the version itself, how many groups there are, how many sectors a group has, and a
//! sector of a group.

ghost use Rattle.cert_format.specs.Reading.{GivesExactly};
ghost use Rattle.cert_format.specs.CertGroups.Reading.{version_at, group_count_at, size_at, sector_at};

use crate::fields::{place, u16_at, u16_below, u32_at};
use crate::most_triangles;
use crate::reading::MAGIC;
use sight_names::CertFault;

/// The version behind the magic: 1 or 2.
#[tactic(auto, unfolding(crate::specs::CertGroups::Reading::version_at, crate::specs::Reading::magic_at))]
pub fn version_of(total: usize, bytes: &[u8]) -> Result<(u16, &[u8]), CertFault>
    ensures { GivesExactly (λ x. (x.0, x.1.now)) result (version_at total bytes.now) }
{
    let (magic, rest) = u32_at(total, bytes)?;
    if magic != MAGIC {
        return Err(CertFault::BadMagic);
    }
    let (version, rest) = u16_at(total, rest)?;
    if version == 1 || version == 2 {
        Ok((version, rest))
    } else {
        Err(CertFault::BadVersion)
    }
}

/// How many groups there are, at most as many as triangles between so many points.
#[tactic(auto, unfolding(crate::specs::CertGroups::Reading::group_count_at))]
pub fn group_count(points: u16, total: usize, bytes: &[u8]) -> Result<(u16, &[u8]), CertFault>
    ensures { GivesExactly (λ x. (x.0, x.1.now)) result (group_count_at points total bytes.now) }
{
    let (number, rest) = u16_at(total, bytes)?;
    if number as usize <= most_triangles(points) {
        Ok((number, rest))
    } else {
        Err(CertFault::OutOfRange {
            at: place(total, bytes),
        })
    }
}

/// How many sectors a group has, at least one.
#[tactic(auto, unfolding(crate::specs::CertGroups::Reading::size_at))]
pub fn size_of_group(total: usize, bytes: &[u8]) -> Result<(u16, &[u8]), CertFault>
    ensures { GivesExactly (λ x. (x.0, x.1.now)) result (size_at total bytes.now) }
{
    let (number, rest) = u16_at(total, bytes)?;
    if number == 0 {
        Err(CertFault::OutOfRange {
            at: place(total, bytes),
        })
    } else {
        Ok((number, rest))
    }
}

/// A sector of a group, above the one before it.
#[tactic(auto, unfolding(crate::specs::CertGroups::Reading::sector_at))]
pub fn sector_of(
    sectors: u16,
    total: usize,
    before: Option<u16>,
    bytes: &[u8],
) -> Result<(u16, &[u8]), CertFault>
    ensures { GivesExactly (λ x. (x.0, x.1.now)) result (sector_at sectors total before bytes.now) }
{
    let (number, rest) = u16_below(sectors, total, bytes)?;
    let ascends = match before {
        None => true,
        Some(last) => last < number,
    };
    if ascends {
        Ok((number, rest))
    } else {
        Err(CertFault::NotSorted {
            at: place(total, bytes),
        })
    }
}
