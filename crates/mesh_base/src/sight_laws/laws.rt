//! Laws of the definitions, whatever the map.

ghost use Rattle.mesh_base.specs.SightLaws.Laws.{PlanIsMap, SightIsSymmetric, NamedSeesItself, SideIsTouched, OpenRayJoinsSides, OpenRaySees, SightRayJoinsSides, SightRaySees, OneGreedyList, OneMesh};

/// What a plan stands for is a map.
pub fn plan_is_map()
    ensures { PlanIsMap }
{}

/// If a sector sees another, that one sees it.
pub fn sight_is_symmetric()
    ensures { SightIsSymmetric }
{}

/// Where lines meet at ends, a sector sees itself exactly where a side of a line names it.
pub fn named_sector_sees_itself()
    ensures { NamedSeesItself }
{}

/// Where lines meet at ends, each side of a line is touched by some point.
pub fn side_is_touched()
    ensures { SideIsTouched }
{}

/// Where lines meet at ends, a ray with nothing solid on its stretch joins a point at its first side with one at its
/// last, however large its numbers are.
pub fn open_ray_joins_sides()
    ensures { OpenRayJoinsSides }
{}

/// So the sectors that its sides name see each other.
pub fn open_ray_sees()
    ensures { OpenRaySees }
{}

/// Where lines meet at ends, a sight ray joins a point at its first side with one at its last.
pub fn sight_ray_joins_sides()
    ensures { SightRayJoinsSides }
{}

/// Where lines meet at ends, a sight ray from a sector to another means that they see each other.
pub fn sight_ray_sees()
    ensures { SightRaySees }
{}

/// A map has at most one greedy list of segments.
pub fn one_greedy_list()
    ensures { OneGreedyList }
{}

/// A map has at most one mesh.
pub fn one_mesh()
    ensures { OneMesh }
{}
