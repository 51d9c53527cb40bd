//! What sight, sequences of portals and the walk along a ray say of each other.

ghost use Rattle.sight_ray.specs.RayTrace.First.{TracedIsClear, WallComesFirst, PointComesFirst, WalkGoesOn, TraceCovers};

/// Every sight lifts to a sequence of portals, and every such sequence that a line splits is a sight.
pub use sight_lift::laws::{sight_connects, sight_is_lifted, split_is_ray};

/// A ray that is traced to its end is a sight ray, and no point of the map is on its stretch.
pub fn traced_is_clear()
    ensures { TracedIsClear }
{}

/// The wall that a traced ray meets is the first thing in its way.
pub fn wall_comes_first()
    ensures { WallComesFirst }
{}

/// So is the point of the map that it meets.
pub fn point_comes_first()
    ensures { PointComesFirst }
{}

/// A traced ray enters no triangle twice, and behind a portal that is no solid line there is always a triangle.
pub fn walk_goes_on()
    ensures { WalkGoesOn }
{}

/// Each point of the stretch is in one of the triangles that a trace names, or on an edge of it.
pub fn trace_covers()
    ensures { TraceCovers }
{}
