//! How many maps there are of each kind, and the line that tells it.

ghost use Rattle.std.specs.Prelude.{◌≡◌, IfOk, string_bytes, cond};
ghost use Rattle.table_verdicts.specs.MapList.Totals.{is_entry_refused, is_entry_short, is_whole, list_line, list_tally_of};

use crate::map_list::entry::{MapEntry, Said};
use crate::tally::one_if;
use map_answers::sight_status::{push_count, push_count_line};
use std::alloc::{AllocError, Global};

/// How many maps are listed. Of each just one other number tells.
#[derive(Clone, Copy)]
pub struct ListTally {
    pub maps: u64,
    /// Their REJECT has all bytes of a table.
    pub whole: u64,
    /// It has fewer, or there is none.
    pub short: u64,
    /// They can't be read.
    pub refused: u64,
}

fn is_whole(said: &Said) -> bool
    ensures { result ≡ is_whole said.now }
{
    match said {
        Said::Read(sizes) => sizes.set.is_some(),
        _ => false,
    }
}

fn is_short(said: &Said) -> bool
    ensures { result ≡ is_entry_short said.now }
{
    match said {
        Said::Read(sizes) => sizes.set.is_none(),
        _ => false,
    }
}

fn is_refused(said: &Said) -> bool
    ensures { result ≡ is_entry_refused said.now }
{
    match said {
        Said::Refused(_) => true,
        _ => false,
    }
}

/// How many maps there are of each kind.
pub fn tally_up(entries: &[MapEntry]) -> ListTally
    ensures { result ≡ list_tally_of entries.now }
{
    let mut whole = 0;
    let mut short = 0;
    let mut refused = 0;
    for entry in entries {
        whole += one_if(is_whole(&entry.said));
        short += one_if(is_short(&entry.said));
        refused += one_if(is_refused(&entry.said));
    }
    ListTally {
        maps: entries.len() as u64,
        whole,
        short,
        refused,
    }
}

/// The line of the totals.
pub fn tally_line(alloc: Global, tally: ListTally) -> Result<String, AllocError>
    ensures { IfOk result (λ line. string_bytes line ≡ list_line tally) }
{
    let mut line = String::new(alloc);
    push_count(alloc, &mut line, "maps ", tally.maps)?;
    push_count(alloc, &mut line, " whole ", tally.whole)?;
    push_count(alloc, &mut line, " short ", tally.short)?;
    push_count_line(alloc, &mut line, " refused ", tally.refused)?;
    Ok(line)
}
