//! That a map is the same in both formats.

ghost use Rattle.map_lumps.specs.HexenLumps.Laws.{IsReadTheSame, SpellsTheSame};

/// Whole records of LINEDEFS, turned to Hexen's format, spell the same map with the same other lumps, and the first check
/// of the four that fails is the same, by the same limits.
pub fn spells_the_same()
    ensures { SpellsTheSame }
{}

/// Where `read_lumps` takes four lumps in Doom's format, it takes them in Hexen's with the first one turned by `to_hexen`, by
/// the same limits, and gives the same plan, unless memory runs out.
pub fn is_read_the_same()
    ensures { IsReadTheSame }
{}
