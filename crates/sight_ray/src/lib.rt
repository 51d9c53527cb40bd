//! The exact test of a given ray: whether it is a sight ray, and if not, the first condition that fails.
#![tactic(auto)]

ghost use Rattle.std.specs.Prelude.{◌≡◌, ℕ, neg_ℤ, MatchResult};
ghost use Rattle.sight_names.specs.Map.{Map, map_of, Names};
ghost use Rattle.sight_names.specs.Ray.{IsInRange, IsSightRay};
ghost use Rattle.sight_ray.specs.CrossedLine.{IsCrossedLineOf};
ghost use Rattle.sight_ray.specs.RayFault.{IsRayFault, HasNames, Leaves, Arrives};

mod crossed_line;
pub mod ray_trace;

use crossed_line::{CrossedLine, crossed_line_of, first_hit, is_backwards};
use geom_exact::in_range;
use sight_names::{Plan, Ray, RayFault, Side};

/// A ray with these fields. It goes in direction (b, -a), from the line of `first` to that of `last`.
pub fn ray_of(first: Side, last: Side, a: i32, b: i32, c: i64) -> Ray
    ensures { result ≡ record { first = first; last = last; a = a; b = b; c = c } }
{
    Ray {
        first,
        last,
        a,
        b,
        c,
    }
}

/// The same ray the other way: sides exchanged and a, b, c negated. A sight ray becomes one from its last sector to its
/// first.
pub fn turn_round(ray: &Ray) -> Ray
    requires { IsInRange ray.now }
    ensures sight { (m : Map) (a b : ℕ) → IsSightRay m ray.now a b → IsSightRay m result b a }
    ensures fields { result ≡ record { first = ray.now.last; last = ray.now.first; a = neg_ℤ ray.now.a; b = neg_ℤ ray.now.b; c = neg_ℤ ray.now.c } }
{
    reversed(ray)
}

fn reversed(ray: &Ray) -> Ray
    requires { IsInRange ray.now }
    ensures { result ≡ record { first = ray.now.last; last = ray.now.first; a = neg_ℤ ray.now.a; b = neg_ℤ ray.now.b; c = neg_ℤ ray.now.c } }
{
    Ray {
        first: ray.last,
        last: ray.first,
        a: -ray.a,
        b: -ray.b,
        c: -ray.c,
    }
}

/// The sectors of `first` and `last`, if the ray is a sight ray. Else the first condition that fails: the range, a
/// sector on each side, a strict split of both lines, the ways in which they are crossed, the order of the
/// crossings, and no solid line with a point between them; first's before last's, and of the solid lines the least.
pub fn check_ray(plan: &Plan, ray: &Ray) -> Result<(u16, u16), RayFault>
    ensures answer { MatchResult result (λ p. IsSightRay (map_of plan.now) ray.now p.0 p.1) (λ f. IsRayFault (map_of plan.now) ray.now f) }
    ensures sight { (a b : ℕ) → IsSightRay (map_of plan.now) ray.now a b → result ≡ Ok (a, b) }
    ensures fault { (f : RayFault) → IsRayFault (map_of plan.now) ray.now f → result ≡ Err f }
{
    judge(plan, ray)
}

fn judge(plan: &Plan, ray: &Ray) -> Result<(u16, u16), RayFault>
    ensures { MatchResult result (λ p. IsSightRay (map_of plan.now) ray.now p.0 p.1) (λ f. IsRayFault (map_of plan.now) ray.now f) }
{
    if !in_range(ray) {
        return Err(RayFault::Range);
    }
    let sectors = sectors_of(plan, ray)?;
    let (start, stop) = crossed_lines_of(plan, ray)?;
    if is_backwards(ray, start, stop) {
        return Err(RayFault::Backwards);
    }
    match first_hit(plan, ray, start, stop) {
        Some(line) => Err(RayFault::Blocked { line }),
        None => Ok(sectors),
    }
}

/// The sectors that the two sides name.
fn sectors_of(plan: &Plan, ray: &Ray) -> Result<(u16, u16), RayFault>
    requires { IsInRange ray.now }
    ensures { MatchResult result (λ p. Names (map_of plan.now) ray.now.first p.0 × Names (map_of plan.now) ray.now.last p.1) (λ f. IsRayFault (map_of plan.now) ray.now f) }
{
    let Some(from) = plan.sector_at(ray.first) else {
        return Err(RayFault::BadSide { side: ray.first });
    };
    let Some(to) = plan.sector_at(ray.last) else {
        return Err(RayFault::BadSide { side: ray.last });
    };
    Ok((from, to))
}

/// The lines of the two sides, which the ray splits and crosses in the right way.
fn crossed_lines_of(plan: &Plan, ray: &Ray) -> Result<(CrossedLine, CrossedLine), RayFault>
    requires { HasNames (map_of plan.now) ray.now }
    ensures { MatchResult result (λ g. IsCrossedLineOf (map_of plan.now) ray.now ray.now.first g.0 × IsCrossedLineOf (map_of plan.now) ray.now ray.now.last g.1 × Leaves (map_of plan.now) ray.now × Arrives (map_of plan.now) ray.now) (λ f. IsRayFault (map_of plan.now) ray.now f) }
{
    let Some(start) = crossed_line_of(plan, ray, ray.first) else {
        return Err(RayFault::NotSplit {
            line: ray.first.line,
        });
    };
    let Some(stop) = crossed_line_of(plan, ray, ray.last) else {
        return Err(RayFault::NotSplit {
            line: ray.last.line,
        });
    };
    if start.first_left == ray.first.left {
        return Err(RayFault::WrongWay {
            line: ray.first.line,
        });
    }
    if stop.first_left != ray.last.left {
        return Err(RayFault::WrongWay {
            line: ray.last.line,
        });
    }
    Ok((start, stop))
}
