//! Worked maps: what the definitions say on maps small enough for a reader to draw.

ghost use Rattle.mesh_base.specs.SightLaws.Worked.{SquareKeepsADiagonal, PairSees, PairHasASightRay, PairRayGoesTheWrongWay, PairRayDoesntSplit, OpenSquareIsOpen, IslandNamesDisagree, UPoints, UPortals, UFourAreSplit, UFiveAreStuck, UTableBits};

/// A square room: the greedy list keeps the lines and one diagonal.
pub fn square_keeps_a_diagonal()
    ensures { SquareKeepsADiagonal }
{}

/// Two rooms with an open line between them see each other.
pub fn pair_sees()
    ensures { PairSees }
{}

/// A sight ray between them.
pub fn pair_has_a_sight_ray()
    ensures { PairHasASightRay }
{}

/// The same line with its sides exchanged is none.
pub fn pair_ray_goes_the_wrong_way()
    ensures { PairRayGoesTheWrongWay }
{}

/// A line through an end of the open line is none.
pub fn pair_ray_doesnt_split()
    ensures { PairRayDoesntSplit }
{}

/// A room with a missing wall isn't closed.
pub fn open_square_is_open()
    ensures { OpenSquareIsOpen }
{}

/// A room whose walls face one another with two names.
pub fn island_names_disagree()
    ensures { IslandNamesDisagree }
{}

/// The points of the corridor round a corner, by number.
pub fn u_points()
    ensures { UPoints }
{}

/// Its root from sector 0, and the portals into sector 1.
pub fn u_portals()
    ensures { UPortals }
{}

/// A line through those portals exists.
pub fn u_four_are_split()
    ensures { UFourAreSplit }
{}

/// No line goes through one portal more, into sector 2.
pub fn u_five_are_stuck()
    ensures { UFiveAreStuck }
{}

/// The bits of its table.
pub fn u_table_bits()
    ensures { UTableBits }
{}
