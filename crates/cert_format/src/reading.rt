//! The header: what comes before the records.

ghost use Rattle.cert_format.specs.Reading.{GivesExactly, triangle_count_at, front_at, counts_at};

use crate::cert::{Counts, Sizes};
use crate::fields::{place, u16_at, u16_known, u32_at};
use crate::limit::most_triangles;
use sight_names::CertFault;

/// The number that the letters `DSCT` spell.
pub const MAGIC: u32 = 0x5443_5344;

/// The bytes behind magic, version and sizes.
#[tactic(auto, unfolding(crate::specs::Reading::front_at, crate::specs::Reading::magic_at, crate::specs::Reading::version_at))]
pub fn front_of(sizes: Sizes, total: usize, bytes: &[u8]) -> Result<&[u8], CertFault>
    ensures { GivesExactly (λ x. x.now) result (front_at sizes total bytes.now) }
{
    let (magic, rest) = u32_at(total, bytes)?;
    if magic != MAGIC {
        return Err(CertFault::BadMagic);
    }
    let (version, rest) = u16_at(total, rest)?;
    if version != 1 {
        return Err(CertFault::BadVersion);
    }
    let rest = u16_known(sizes.sectors, total, rest)?;
    let rest = u16_known(sizes.points, total, rest)?;
    u16_known(sizes.lines, total, rest)
}

/// How many triangles there are, at most as many as a map of so many points may have.
#[tactic(auto, unfolding(crate::specs::Reading::triangle_count_at))]
pub fn triangle_count(points: u16, total: usize, bytes: &[u8]) -> Result<(u32, &[u8]), CertFault>
    ensures { GivesExactly (λ x. (x.0, x.1.now)) result (triangle_count_at points total bytes.now) }
{
    let (number, rest) = u32_at(total, bytes)?;
    if number as usize <= most_triangles(points) {
        Ok((number, rest))
    } else {
        Err(CertFault::OutOfRange {
            at: place(total, bytes),
        })
    }
}

/// How many records there are of each kind, for a map of so many points.
#[tactic(auto, unfolding(crate::specs::Reading::counts_at))]
pub fn counts_of(points: u16, total: usize, bytes: &[u8]) -> Result<(Counts, &[u8]), CertFault>
    ensures { GivesExactly (λ x. (record { triangles = x.0.triangles; rays = x.0.rays; listed = x.0.listed; trees = x.0.trees }, x.1.now)) result (counts_at points total bytes.now) }
{
    let (triangles, rest) = triangle_count(points, total, bytes)?;
    let (rays, rest) = u32_at(total, rest)?;
    let (listed, rest) = u32_at(total, rest)?;
    let (trees, rest) = u32_at(total, rest)?;
    let counts = Counts {
        triangles,
        rays,
        listed,
        trees,
    };
    Ok((counts, rest))
}
