//! The points of a made map.

ghost use Rattle.std.specs.Prelude.{◌≡◌, [], IfOk};
ghost use Rattle.map_maker.specs.Lumps.{points_after, spot_place};

use crate::lines::{Line, Spot};
use indexmap::IndexSet;
use std::alloc::{AllocError, Global};

/// The ends of the lines, in the order of their first use. Each is looked up by its hash.
pub fn points(alloc: Global, lines: &[Line]) -> Result<IndexSet<Spot>, AllocError>
    ensures { IfOk result (λ v. v.keys ≡ points_after [] lines.now) }
{
    let mut points = IndexSet::new(alloc);
    for line in lines {
        points.insert(line.from)?;
        points.insert(line.to)?;
    }
    Ok(points)
}

/// The place of a point, or their number where it isn't among them.
pub fn place(points: &IndexSet<Spot>, p: Spot) -> usize
    ensures { result ≡ spot_place p points.now.keys }
{
    match points.get_index_of(&p) {
        Some(place) => place,
        None => points.len(),
    }
}
