//! Laws of the definitions, whatever the text.

ghost use Rattle.udmf_map.specs.Exact.{CoordinatesAreExact};
ghost use Rattle.udmf_map.specs.Spelled.{ReadsBlocks};
ghost use Rattle.udmf_map.specs.Standing.{RecordsStand};

/// A coordinate is the number that its word spells, and has no decimal place that it could do without.
pub fn coordinates_are_exact()
    ensures { CoordinatesAreExact }
{}

/// The records of a text are those of its blocks, by the grammar: each block is the next record of its kind.
pub fn reads_blocks()
    ensures { ReadsBlocks }
{}

/// The lumps of records have as many records, and each has the numbers of the one that it spells.
pub fn records_stand()
    ensures { RecordsStand }
{}
