//! Laws of groups, on every map with closed faces and over its mesh.

ghost use Rattle.triangulate.specs.GroupLaws.Laws.{SidesHaveSectors, SectorsAreNamed, GroupsExist, GroupsAreSound, PointsAreInGroups, SightByGroups, BitsByGroups, TablesShowGroups};

/// Each side of a line has its list of sectors.
pub fn sides_have_sectors()
    ensures { SidesHaveSectors }
{}

/// It is the list of the sectors that are named by sides whose triangles are linked with the side's triangle across
/// edges that are no lines.
pub fn sectors_are_named()
    ensures { SectorsAreNamed }
{}

/// The map has its groups, its map of groups, and the labels of that, with which the mesh is good.
pub fn groups_exist()
    ensures { GroupsExist }
{}

/// The map of groups is a map, and sound, with the same mesh.
pub fn groups_are_sound()
    ensures { GroupsAreSound }
{}

/// A point is in a sector exactly where it is in a group that contains it.
pub fn points_are_in_groups()
    ensures { PointsAreInGroups }
{}

/// Two sectors see each other exactly where groups that contain them do.
pub fn sight_by_groups()
    ensures { SightByGroups }
{}

/// Where the bits of groups are set exactly where these neither see each other nor are listed, and what is found is
/// seen: the bits of all groups that contain two sectors are set exactly where these neither see each other nor are listed.
pub fn bits_by_groups()
    ensures { BitsByGroups }
{}

/// What a certificate's triangles and labels show, whoever made them, where they keep the rules of a table: the map is
/// closed, the table is its list of groups, and the mesh is good for its map of groups.
pub fn tables_show_groups()
    ensures { TablesShowGroups }
{}
