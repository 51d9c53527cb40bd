//! The headline: what the REJECT that `check` accepts, and those that `build` and `all` write, tell of sight.

ghost use Rattle.run_laws.specs.Headline.{AllIsExact, AllIsRight, BuildLeavesLumps, BuildsLeaveOneWad, BuiltIsRight, CheckedIsRight, ExactIsRight};
ghost use Rattle.run_laws.specs.Verified.{VerifiedIsRight};

/// Where a `check` ended with Done, two sectors whose bit is set in the map's REJECT don't see each other, and two whose bit
/// is clear do, unless the certificate in FILE lists their pair.
pub fn checked_is_right()
    ensures { CheckedIsRight }
{}

/// Where a `build` ended with Done, the map's name finds the same map in the WAD under OUT. Two sectors whose bit is
/// set in its REJECT there don't see each other, and two whose bit is clear do, unless both budgets ran out.
pub fn built_is_right()
    ensures { BuiltIsRight }
{}

/// Where a `build` that decides every pair ended with Done, a bit is set in the REJECT under OUT exactly where the two sectors
/// don't see each other, and its line counts no listed pair.
pub fn exact_is_right()
    ensures { ExactIsRight }
{}

/// And every other lump of the WAD under OUT has its name and its bytes, in order.
pub fn build_leaves_lumps()
    ensures { BuildLeavesLumps }
{}

/// Where two builds of one map by one method ended with Done, by how many workers ever, they left the same bytes under
/// OUT and put the same line.
pub fn builds_leave_one_wad()
    ensures { BuildsLeaveOneWad }
{}

/// Where `all` ended with Done, each map whose faces are closed was built, and no other. The name of each finds the same map in
/// the WAD under OUT, and there its REJECT is as a `build` by the same method leaves it. Where clear tables are chosen for refused
/// maps, each of them that was read has one there; where a refusal stops all, no map was refused.
pub fn all_is_right()
    ensures { AllIsRight }
{}

/// And where it decides every pair, a bit of each such REJECT is set exactly where the two sectors don't see each other.
pub fn all_is_exact()
    ensures { AllIsExact }
{}

/// Where a `verify` did what it is asked, it tells of each map how many bits of its own REJECT are wrong and how many are missing, the
/// first wrong pair with a line of sight, or that the REJECT is short, or why the map is refused. With Done no two sectors see each other
/// whose bit is set in the REJECT of a map that isn't refused.
pub fn verified_is_right()
    ensures { VerifiedIsRight }
{}
