//! What holds of the orders together, and of what they write.

ghost use Rattle.sight_run.specs.Build.{BuildsSayOneThing};
ghost use Rattle.run_laws.specs.Laws.{AllIsAsBuild, AllIsDone, AllKeepsLumps, BuildIsDone, BuildKeepsLumps, BuildWithRoomIsDone, BuiltIsChecked, BuiltRunIsChecked, DrawLeavesPicture, DrawnPairIsDone, WhyIsDone, ZeroKeepsLumps};

/// Where `build` is answered, the one answer that `check` of OUT and FILE calls for is yes, with the same counts.
pub fn built_is_checked()
    ensures { BuiltIsChecked }
{}

/// Where a run of `build` ends with Done, a run of `check` on what then stands in OUT and FILE ends with Done, but for
/// want of memory and faults of reading or of the text.
pub fn built_run_is_checked()
    ensures { BuiltRunIsChecked }
{}

/// All that `build` answers of a map by a method says one line and writes one WAD, by how many workers ever.
pub fn builds_say_one_thing()
    ensures { BuildsSayOneThing }
{}

/// Where `zero` is answered, OUT is read as the WAD with a clear REJECT for the map. The map's name finds it there with
/// the same four lumps, and every other lump has its name and its bytes, in order.
pub fn zero_keeps_lumps()
    ensures { ZeroKeepsLumps }
{}

/// Where `build` is answered, OUT is read as the WAD with a table of the map's sectors as its REJECT. The map's name
/// finds it there with the same four lumps, and every other lump has its name and its bytes, in order.
pub fn build_keeps_lumps()
    ensures { BuildKeepsLumps }
{}

/// Where `draw` is answered, OUT holds the picture that it asks for of the map that was found: the plan, the plan with its
/// faults marked, the faces by the row of a sector in the map's own REJECT, or what an answer for two sectors calls for. Each
/// other file holds what it held.
pub fn draw_leaves_picture()
    ensures { DrawLeavesPicture }
{}

/// Where `all` is answered, OUT is read as the WAD in which each map that got a table, or a clear one, has it as its REJECT, found
/// there by the map's name, with as many bytes as the map's sectors ask. Every other lump has its name and its bytes, in order.
pub fn all_keeps_lumps()
    ensures { AllKeepsLumps }
{}

/// What `all` makes of a map of a WAD is what `build` makes of it by the same method: the same table, byte for byte,
/// and the same listed pairs, or the same flaw.
pub fn all_is_as_build()
    ensures { AllIsAsBuild }
{}

/// Where no count of faults rises, a build of a map that the audit accepts ends with Done or for want of memory, or the WAD
/// with its table is above the limit that is told.
pub fn build_is_done()
    ensures { BuildIsDone }
{}

/// And where the WAD with a clear REJECT for the map is within the limits, it ends with Done or for want of memory.
pub fn build_with_room_is_done()
    ensures { BuildWithRoomIsDone }
{}

/// Where no count of faults rises, `all` of a WAD that is read ends with Done or for want of memory, or with the first refusal
/// where that stops all, or the WAD with all tables is above the limit that is told.
pub fn all_is_done()
    ensures { AllIsDone }
{}

/// Where no count of faults rises, a `why` of a map that the audit accepts ends with Done or for want of memory, or one of the two
/// is no sector of the map.
pub fn why_is_done()
    ensures { WhyIsDone }
{}

/// So does a `draw` of two sectors.
pub fn drawn_pair_is_done()
    ensures { DrawnPairIsDone }
{}
