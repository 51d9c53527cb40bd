//! The fields of the header that other versions don't have: version 3, and the counts of its records.

ghost use Rattle.cert_format.specs.Reading.{GivesExactly};
ghost use Rattle.certificates.specs.CertExact.Reading.{version_at, counts_at};

use crate::cert_exact::cert::CountsThree;
use cert_format::cert_groups::group_count;
use cert_format::fields::{u16_at, u32_at};
use cert_format::reading::{MAGIC, triangle_count};
use sight_names::CertFault;

/// The bytes behind the magic and the version, which is 3.
#[tactic(auto, unfolding(crate::specs::CertExact::Reading::version_at, cert_format::specs::Reading::magic_at))]
pub fn behind_version(total: usize, bytes: &[u8]) -> Result<&[u8], CertFault>
    ensures { GivesExactly (λ x. x.now) result (version_at total bytes.now) }
{
    let (magic, rest) = u32_at(total, bytes)?;
    if magic != MAGIC {
        return Err(CertFault::BadMagic);
    }
    let (version, rest) = u16_at(total, rest)?;
    if version != 3 {
        return Err(CertFault::BadVersion);
    }
    Ok(rest)
}

/// How many records there are of each kind, for a map of so many points.
#[tactic(auto, unfolding(crate::specs::CertExact::Reading::counts_at))]
pub fn counts_of(points: u16, total: usize, bytes: &[u8]) -> Result<(CountsThree, &[u8]), CertFault>
    ensures { GivesExactly (λ x. (x.0, x.1.now)) result (counts_at points total bytes.now) }
{
    let (groups, rest) = group_count(points, total, bytes)?;
    let (triangles, rest) = triangle_count(points, total, rest)?;
    let (rays, rest) = u32_at(total, rest)?;
    let counts = CountsThree {
        groups,
        triangles,
        rays,
    };
    Ok((counts, rest))
}
