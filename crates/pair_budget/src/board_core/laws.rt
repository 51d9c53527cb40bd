//! What holds over every run.
ghost use Rattle.pair_budget.specs.BoardCore.Runs.{HandsOutOnce, MarksTruly, LooksGrow, LooksTruly};

/// The numbers handed out are the numbers below the next one, each to one worker, once; a worker's claims are what it was
/// handed.
pub fn hands_out_once()
    ensures { HandsOutOnce }
{}

/// Each marked pair is findable and stands in some worker's marks.
pub fn marks_truly()
    ensures { MarksTruly }
{}

/// Each look gives every pair of its word that the worker has marked, or that a look gave before.
pub fn looks_grow()
    ensures { LooksGrow }
{}

/// Each bit that a look gives is that of a marked pair of its word.
pub fn looks_truly()
    ensures { LooksTruly }
{}
