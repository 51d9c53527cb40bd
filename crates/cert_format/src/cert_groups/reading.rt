//! What comes before the parts of a certificate of version 2.

ghost use Rattle.cert_format.specs.Grammar.{AreSmall};
ghost use Rattle.cert_format.specs.Reading.{GivesCert, GivesExactly};
ghost use Rattle.cert_format.specs.CertGroups.Reading.{sizes_at, front_two_at};

use crate::Sizes;
use crate::cert_groups::cert::FrontTwo;
use crate::cert_groups::fields::group_count;
use crate::cert_groups::groups::groups_of;
use crate::fields::u16_known;
use crate::reading::counts_of;
use sight_names::{CertFault, Items};
use std::alloc::Global;

/// The bytes behind the three sizes.
#[tactic(auto, unfolding(crate::specs::CertGroups::Reading::sizes_at))]
pub fn behind_sizes(sizes: Sizes, total: usize, bytes: &[u8]) -> Result<&[u8], CertFault>
    ensures { GivesExactly (λ x. x.now) result (sizes_at sizes total bytes.now) }
{
    let rest = u16_known(sizes.sectors, total, bytes)?;
    let rest = u16_known(sizes.points, total, rest)?;
    u16_known(sizes.lines, total, rest)
}

/// What the bytes behind the version spell before the parts, and the bytes behind it.
#[tactic(auto, unfolding(crate::specs::CertGroups::Reading::front_two_at))]
pub fn front_two_of(
    alloc: Global,
    sizes: Sizes,
    total: usize,
    bytes: &[u8],
) -> Result<(FrontTwo, &[u8]), CertFault>
    ensures small { AreSmall sizes }
    ensures exact { GivesCert (λ x. (x.0, x.1.now)) result (front_two_at sizes total bytes.now) }
{
    let rest = behind_sizes(sizes, total, bytes)?;
    let (count, rest) = group_count(sizes.points, total, rest)?;
    let (counts, rest) = counts_of(sizes.points, total, rest)?;
    let (groups, rest) = groups_of(alloc, sizes.sectors, total, count, rest)?;
    let grouped = Sizes {
        sectors: count,
        points: sizes.points,
        lines: sizes.lines,
    };
    let front = FrontTwo {
        sizes: grouped,
        groups: Items::of(groups),
        counts,
    };
    Ok((front, rest))
}
