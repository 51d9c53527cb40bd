//! Laws of what is drawn.

ghost use Rattle.draw_answers.specs.Laws.{BlindIsClosed, FaultsAreMarked, HeatTellsTables, PairsAreOfBuilds, PlansShowLines, RowsTellTables, UnseenIsNotShown};

/// A plan's picture shows the lines of the map, and no other.
pub fn plans_show_lines()
    ensures { PlansShowLines }
{}

/// A picture of a map's faults marks the lines and the points that the fault calls for that is told first, and no other; where the
/// map has none, nothing is marked.
pub fn faults_are_marked()
    ensures { FaultsAreMarked }
{}

/// A row's picture shows the lines of the map and the faces of its groups, and each face tells what the table has.
pub fn rows_tell_tables()
    ensures { RowsTellTables }
{}

/// A picture by counts shows the lines of the map and the faces of its groups, and each face has the shade of the most that one of
/// its sectors may see by the table.
pub fn heat_tells_tables()
    ensures { HeatTellsTables }
{}

/// A pair's picture is of an answer that is what a build with the same budget says of the pair, and that tells whether the two
/// sectors see each other.
pub fn pairs_are_of_builds()
    ensures { PairsAreOfBuilds }
{}

/// Whatever one sees from a point of the sector whose groups were walked, past no solid line, lies in a closed triangle of the
/// sector or in one that is shown as entered.
pub fn blind_is_closed()
    ensures { BlindIsClosed }
{}

/// No triangle that is shown as entered is of a sector that isn't seen.
pub fn unseen_is_not_shown()
    ensures { UnseenIsNotShown }
{}
