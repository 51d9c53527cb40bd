//! One record of a certificate: a triangle, a ray, a listed pair. Records are told out of order once their own fields have
//! passed their ranges.

ghost use Rattle.std.specs.Prelude.{◌≡◌};
ghost use Rattle.cert_format.specs.Reading.{GivesExactly, pair_after, pair_if_any, triangle_after, triangle_at, sight_line_at, ray_at, pair_at};

use crate::cert::{Labelled, Sizes};
use crate::fields::{i32_at, i64_at, place, point_at, side_of, u16_below};
use sight_names::{CertFault, Pair, PairRay, Ray, Triangle};

fn is_triangle_behind(last: Option<Labelled>, t: Triangle) -> bool
    ensures { result ≡ triangle_after last t }
{
    match last {
        None => true,
        Some(labelled) => {
            let o = labelled.triangle;
            o.p < t.p || o.p == t.p && (o.q < t.q || o.q == t.q && o.r < t.r)
        }
    }
}

fn is_pair_behind(last: Option<Pair>, p: Pair) -> bool
    ensures { result ≡ pair_after last p }
{
    match last {
        None => true,
        Some(o) => o.a < p.a || o.a == p.a && o.b < p.b,
    }
}

fn pair_before(last: Option<PairRay>) -> Option<Pair>
    ensures { result ≡ pair_if_any last }
{
    match last {
        None => None,
        Some(ray) => Some(ray.pair),
    }
}

/// The triangle that comes first, behind the last one.
#[tactic(auto, unfolding(crate::specs::Reading::triangle_at))]
pub fn triangle_of(
    sizes: Sizes,
    total: usize,
    last: Option<Labelled>,
    bytes: &[u8],
) -> Result<(Labelled, &[u8]), CertFault>
    ensures { GivesExactly (λ x. (x.0, x.1.now)) result (triangle_at sizes total last bytes.now) }
{
    let (p, rest) = u16_below(sizes.points, total, bytes)?;
    let (q, rest) = point_at(sizes.points, p, p, total, rest)?;
    let (r, rest) = point_at(sizes.points, p, q, total, rest)?;
    let (sector, rest) = u16_below(sizes.sectors, total, rest)?;
    let triangle = Triangle { p, q, r };
    let behind = is_triangle_behind(last, triangle);
    if p < q && p < r && behind {
        Ok((Labelled { triangle, sector }, rest))
    } else {
        Err(CertFault::NotSorted {
            at: place(total, bytes),
        })
    }
}

#[tactic(auto, unfolding(crate::specs::Reading::sight_line_at))]
fn sight_line_of(lines: u16, total: usize, bytes: &[u8]) -> Result<(Ray, &[u8]), CertFault>
    ensures { GivesExactly (λ x. (x.0, x.1.now)) result (sight_line_at lines total bytes.now) }
{
    let (first, rest) = side_of(lines, total, bytes)?;
    let (last, rest) = side_of(lines, total, rest)?;
    let (a, rest) = i32_at(total, rest)?;
    let (b, rest) = i32_at(total, rest)?;
    let (c, rest) = i64_at(total, rest)?;
    let ray = Ray {
        first,
        last,
        a,
        b,
        c,
    };
    Ok((ray, rest))
}

/// The ray that comes first, behind the one before it.
#[tactic(auto, unfolding(crate::specs::Reading::ray_at))]
pub fn ray_of(
    sizes: Sizes,
    total: usize,
    before: Option<PairRay>,
    bytes: &[u8],
) -> Result<(PairRay, &[u8]), CertFault>
    ensures { GivesExactly (λ x. (x.0, x.1.now)) result (ray_at sizes total before bytes.now) }
{
    let (from, rest) = u16_below(sizes.sectors, total, bytes)?;
    let (to, rest) = u16_below(sizes.sectors, total, rest)?;
    let (ray, rest) = sight_line_of(sizes.lines, total, rest)?;
    let pair = Pair { a: from, b: to };
    let behind = is_pair_behind(pair_before(before), pair);
    if from < to && behind {
        Ok((PairRay { pair, ray }, rest))
    } else {
        Err(CertFault::NotSorted {
            at: place(total, bytes),
        })
    }
}

/// The listed pair that comes first, behind the one before it.
#[tactic(auto, unfolding(crate::specs::Reading::pair_at))]
pub fn listed_of(
    sizes: Sizes,
    total: usize,
    before: Option<Pair>,
    bytes: &[u8],
) -> Result<(Pair, &[u8]), CertFault>
    ensures { GivesExactly (λ x. (x.0, x.1.now)) result (pair_at sizes total before bytes.now) }
{
    let (a, rest) = u16_below(sizes.sectors, total, bytes)?;
    let (b, rest) = u16_below(sizes.sectors, total, rest)?;
    let pair = Pair { a, b };
    let behind = is_pair_behind(before, pair);
    if a < b && behind {
        Ok((pair, rest))
    } else {
        Err(CertFault::NotSorted {
            at: place(total, bytes),
        })
    }
}
