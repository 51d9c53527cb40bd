//! What floods over gates show, whatever the map.

ghost use Rattle.gate_floods.specs.Laws.{LaterMayFollow, ExactTells, VersionThreeTells, RowsGoOn, RowsAreBits, JoinedRowsTell, OwnedRowsTell, FloodsAreRows, MasksAreRows, TreesAreReadOnce};
ghost use Rattle.gate_floods.specs.Reaching.{SequencesTurn};

/// A sector that is reached by a sequence reaches back by one that is no longer.
pub fn sequences_turn()
    ensures { SequencesTurn }
{}

/// Where a line splits the portals of a sequence, an end of each later one is in front of each earlier one, which has an
/// end in the back of the later one.
pub fn later_may_follow()
    ensures { LaterMayFollow }
{}

/// A certificate whose trees keep by rows from whatever has no ray shows that its table tells all of sight.
pub fn exact_tells()
    ensures { ExactTells }
{}

/// So does a certificate of version 3.
pub fn version_three_tells()
    ensures { VersionThreeTells }
{}

/// What is in the row at a node of a tree is told by the row at the node before and by the mask of the gate between.
pub fn rows_go_on()
    ensures { RowsGoOn }
{}

/// So it is told by rows of bits, and where a way is asked by whether a bit is left.
pub fn rows_are_bits()
    ensures { RowsAreBits }
{}

/// The row of a group by the rays of a certificate has the bits of what is joined with it.
pub fn joined_rows_tell()
    ensures { JoinedRowsTell }
{}

/// The row with which a walk begins has the bits of what its group owns.
pub fn owned_rows_tell()
    ensures { OwnedRowsTell }
{}

/// A closed row of bits is that of what lies beyond a gate.
pub fn floods_are_rows()
    ensures { FloodsAreRows }
{}

/// A gate's mask has those bits of its flood that are joined with its far sector.
pub fn masks_are_rows()
    ensures { MasksAreRows }
{}

/// Nodes are read in one pass: at most one beginning of a list of them is such a tree.
pub fn trees_are_read_once()
    ensures { TreesAreReadOnce }
{}
