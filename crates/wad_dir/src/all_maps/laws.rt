//! That no change is lost, and no name.

ghost use Rattle.wad_dir.specs.AllMaps.All.{EachChangeIsMade, EachTableIsThere};
ghost use Rattle.wad_dir.specs.AllMaps.Asked.{EachAskedIsThere};

/// Where the names of changes are some of a WAD's maps, in order, each change is made at the map that its name finds in
/// what the changes before it left.
pub fn each_change_is_made()
    ensures { EachChangeIsMade }
{}

/// And in what comes of it each of these names finds a map that has the table of its change as its REJECT.
pub fn each_table_is_there()
    ensures { EachTableIsThere }
{}

/// Each name by which a map is asked for is that of one of the maps that are given for these names.
pub fn each_asked_is_there()
    ensures { EachAskedIsThere }
{}
