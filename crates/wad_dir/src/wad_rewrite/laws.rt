//! That what is written is read again.

ghost use Rattle.wad_dir.specs.WadRewrite.Again.{RewrittenIsRead};

/// A WAD that was read and is written with a REJECT for a map is read as what was written. The map's name finds it
/// there, with the same LINEDEFS, SIDEDEFS, VERTEXES and SECTORS and this REJECT, and every other lump stands in its
/// order with its name and its bytes. The map isn't called REJECT itself.
pub fn rewritten_is_read()
    ensures { RewrittenIsRead }
{}
