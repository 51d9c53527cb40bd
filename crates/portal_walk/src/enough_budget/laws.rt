//! How many sequences of portals a line can pass.

ghost use Rattle.portal_walk.specs.EnoughBudget.Laws.{FewAtRoot, FewRoots, FewOfSource, EnoughListsNone};

/// At most as many stabbable sequences start at one root as there are pairs of points, times the triangles; a source has at
/// most as many roots as there are passable lines. So a source has few of them, and with a budget that is enough nothing
/// is listed. The call does nothing: its clauses are laws.
pub fn enough_laws()
    ensures at_root { FewAtRoot }
    ensures roots { FewRoots }
    ensures at_source { FewOfSource }
    ensures none_listed { EnoughListsNone }
{}
