//! What pictures show, by their definition. The calls do nothing: their clauses are laws.

ghost use Rattle.map_picture.specs.Laws.{ArrowsAreShown, BlindFacesAreShown, BlindIdsAreOnce, EnteredIsShown, FaultsAreShown, HeatIdsAreOnce, HeatIsShown, LinesAreShown, MarkedIdsAreOnce, MarksAreShown, PairFacesAreShown, PairIdsAreOnce, PlanFacesAreShown, PlanIdsAreOnce, PointsAreReadBack, RayIsDrawn, RingsAreInside, RowIdsAreOnce, RowIsShown, ScaleIsTold, SightFacesAreShown, SightIdsAreOnce, StopsAreShown};

/// Every picture of a map has its lines, each once, and no other line.
pub fn lines_are_shown()
    ensures { LinesAreShown }
{}

/// A row's picture has one face for each group, with the triangles that the group labels, and its tint tells the table's row.
pub fn row_is_shown()
    ensures { RowIsShown }
{}

/// A plan has one face for each group, with the triangles that the group labels, and tells nothing of it but its names.
pub fn plan_is_shown()
    ensures { PlanFacesAreShown }
{}

/// A picture by counts has one face for each group, and its tint is that of the group's count.
pub fn heat_is_shown()
    ensures { HeatIsShown }
{}

/// A ring is in a triangle of a group that names its sector.
pub fn rings_are_inside()
    ensures { RingsAreInside }
{}

/// No two elements of a picture have one id.
pub fn ids_are_once()
    ensures plan { PlanIdsAreOnce }
    ensures marked { MarkedIdsAreOnce }
    ensures row { RowIdsAreOnce }
    ensures heat { HeatIdsAreOnce }
    ensures pair { PairIdsAreOnce }
    ensures sight { SightIdsAreOnce }
    ensures blind { BlindIdsAreOnce }
{}

/// A pair's picture has one face for each group, with the triangles that the group labels, and its tint tells which of the two
/// sectors the group names.
pub fn pair_is_shown()
    ensures pair { PairFacesAreShown }
    ensures sight { SightFacesAreShown }
    ensures blind { BlindFacesAreShown }
{}

/// The picture of two sectors that see each other has the ray once. Of each of its two spots, in thousandths of the map's own unit, the
/// distances from the left edge and from the upper one are those of the exact crossing, cut down: a spot is never to the right of
/// the crossing or below it, and less than a thousandth from it each way.
pub fn ray_is_drawn()
    ensures { RayIsDrawn }
{}

/// The picture of two sectors that don't see each other shows as entered exactly the triangles that it was given, each once, and
/// the stops that it was given.
pub fn entered_is_shown()
    ensures triangles { EnteredIsShown }
    ensures stops { StopsAreShown }
{}

/// A picture with marks has them over the lines that it was given, and over no other.
pub fn marks_are_shown()
    ensures { MarksAreShown }
{}

/// .. and a ring round each point at fault that it was given, and round no other.
pub fn faults_are_shown()
    ensures { FaultsAreShown }
{}

/// .. and just the arrows that it was given.
pub fn arrows_are_shown()
    ensures { ArrowsAreShown }
{}

/// The number beside a picture's scale is the length of the bar in map units.
pub fn scale_is_told()
    ensures { ScaleIsTold }
{}

/// The coordinates of each point of a map can be read back from a picture.
pub fn points_are_read_back()
    ensures { PointsAreReadBack }
{}
