//! Laws of evidence.

ghost use Rattle.std.specs.Prelude.{List};
ghost use Rattle.sight_names.specs.Splitting.{EndPoints, IsSplittable};
ghost use Rattle.sight_names.specs.Map.{Map};
ghost use Rattle.sight_names.specs.Sequence.{Portal, IsStabbable};
ghost use Rattle.block_evidence.specs.declared.Evidence.{Evidence as Witness};
ghost use Rattle.block_evidence.specs.Stuck.{BlocksEnds, BlocksSequence};

/// Stuck ends of portals show that no line splits the portals.
pub fn stuck_ends_show_no_line()
    ensures portals { (es : List EndPoints) (e : Witness) → BlocksEnds es e → ¬ IsSplittable es }
    ensures sequence { (m : Map) (ps : List Portal) (e : Witness) → BlocksSequence m ps e → ¬ IsStabbable m ps }
{}
