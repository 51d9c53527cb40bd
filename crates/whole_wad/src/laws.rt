//! What holds of all that is built.

ghost use Rattle.whole_wad.specs.Built.{BuildsHaveOneTable};
ghost use Rattle.whole_wad.specs.Outcomes.{OutcomesAreOne};

/// All builds of a map by one method have one table, byte for byte, and one list, whatever walks they came of.
pub fn builds_have_one_table()
    ensures { BuildsHaveOneTable }
{}

/// What comes of some maps of a WAD by one method is one: of each map its table and its list, or its first flaw.
pub fn outcomes_are_one()
    ensures { OutcomesAreOne }
{}
