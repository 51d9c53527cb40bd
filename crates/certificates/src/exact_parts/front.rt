//! What comes before the parts: the header and the groups.

ghost use Rattle.cert_format.specs.Grammar.{AreSmall};
ghost use Rattle.cert_format.specs.Reading.{GivesCert};
ghost use Rattle.certificates.specs.ExactParts.Front.{front_at};

use crate::cert_exact::CountsThree;
use crate::cert_exact::fields::{behind_version, counts_of};
use cert_format::Sizes;
use cert_format::cert_groups::{Group, behind_sizes, groups_of};
use sight_names::{CertFault, Items};
use std::alloc::Global;

/// The sizes, with the groups as sectors, the groups, and how many records there are of each kind.
#[derive(Drop)]
pub struct FrontThree {
    pub sizes: Sizes,
    pub groups: Items<Group>,
    pub counts: CountsThree,
}

/// What the bytes of a certificate for a map of these sizes spell before the parts, and the bytes behind it.
#[tactic(auto, unfolding(crate::specs::ExactParts::Front::front_at))]
pub fn front_of(
    alloc: Global,
    sizes: Sizes,
    total: usize,
    bytes: &[u8],
) -> Result<(FrontThree, &[u8]), CertFault>
    ensures small { AreSmall sizes }
    ensures exact { GivesCert (λ x. (x.0, x.1.now)) result (front_at sizes total bytes.now) }
{
    let rest = behind_version(total, bytes)?;
    let rest = behind_sizes(sizes, total, rest)?;
    let (counts, rest) = counts_of(sizes.points, total, rest)?;
    let (groups, rest) = groups_of(alloc, sizes.sectors, total, counts.groups, rest)?;
    let grouped = Sizes {
        sectors: counts.groups,
        points: sizes.points,
        lines: sizes.lines,
    };
    let front = FrontThree {
        sizes: grouped,
        groups: Items::of(groups),
        counts,
    };
    Ok((front, rest))
}
