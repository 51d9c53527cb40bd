//! How many maps there are of each kind, and the line that tells it.

ghost use Rattle.std.specs.Prelude.{◌≡◌, ◌++◌, IfOk, IsTrue, string_bytes, cond};
ghost use Rattle.table_verdicts.specs.Tallies.{all_right, is_refused, is_right, is_short, is_wrong, tally_line, tally_of};

use crate::verdict::{MapVerdict, Verdict};
use map_answers::sight_status::{Status, push_count, push_count_line};
use std::alloc::{AllocError, Global};

/// How many maps were looked at. Of each just one other number tells.
#[derive(Clone, Copy)]
pub struct Tally {
    pub maps: u64,
    /// No bit of their REJECT is wrong; some may be missing.
    pub right: u64,
    /// Some bit is wrong.
    pub wrong: u64,
    /// Their REJECT has too few bytes.
    pub short: u64,
    /// They aren't judged.
    pub refused: u64,
}

/// One where it is so, else none.
pub fn one_if(so: bool) -> u64
    ensures { result ≡ cond so 1 0 }
{
    if so { 1 } else { 0 }
}

fn is_right(said: &Result<Verdict, Status>) -> bool
    ensures { result ≡ is_right said.now }
{
    match said {
        Ok(Verdict::Judged(findings)) => findings.wrong == 0,
        _ => false,
    }
}

fn is_wrong(said: &Result<Verdict, Status>) -> bool
    ensures { result ≡ is_wrong said.now }
{
    match said {
        Ok(Verdict::Judged(findings)) => findings.wrong != 0,
        _ => false,
    }
}

fn is_short(said: &Result<Verdict, Status>) -> bool
    ensures { result ≡ is_short said.now }
{
    match said {
        Ok(Verdict::Short { .. }) => true,
        _ => false,
    }
}

fn is_refused(said: &Result<Verdict, Status>) -> bool
    ensures { result ≡ is_refused said.now }
{
    said.is_err()
}

/// How many maps there are of each kind.
pub fn tally_up(verdicts: &[MapVerdict]) -> Tally
    ensures { result ≡ tally_of verdicts.now }
{
    let mut right = 0;
    let mut wrong = 0;
    let mut short = 0;
    let mut refused = 0;
    for verdict in verdicts {
        right += one_if(is_right(&verdict.said));
        wrong += one_if(is_wrong(&verdict.said));
        short += one_if(is_short(&verdict.said));
        refused += one_if(is_refused(&verdict.said));
    }
    Tally {
        maps: verdicts.len() as u64,
        right,
        wrong,
        short,
        refused,
    }
}

/// Whether no table of those that were judged is wrong, and none is short.
pub fn all_right(tally: Tally) -> bool
    ensures { result ≡ all_right tally }
{
    tally.wrong == 0 && tally.short == 0
}

/// The line of the totals.
pub fn line_of(alloc: Global, tally: Tally) -> Result<String, AllocError>
    ensures { IfOk result (λ line. string_bytes line ≡ tally_line tally) }
{
    let mut line = String::new(alloc);
    push_count(alloc, &mut line, "verify maps ", tally.maps)?;
    push_count(alloc, &mut line, " right ", tally.right)?;
    push_count(alloc, &mut line, " wrong ", tally.wrong)?;
    push_count(alloc, &mut line, " short ", tally.short)?;
    push_count_line(alloc, &mut line, " refused ", tally.refused)?;
    Ok(line)
}
