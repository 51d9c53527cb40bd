//! How many pairs of a table are set, clear or listed.

ghost use Rattle.std.specs.Prelude.{◌≡◌, ◌≤◌, ◌<◌, ◌*◌, ◌++◌, OnOk, string_bytes};
ghost use Rattle.map_answers.specs.Counts.{counts_with, counts_words, pair_count, set_from, set_pairs};

use crate::sight_status::push_number;
use reject_bits::Table;
use std::alloc::{AllocError, Global};

/// How many sectors a table has, and how many pairs (a, b) with a <= b are set, clear or listed.
#[derive(Clone, Copy)]
pub struct Counts {
    pub sectors: u16,
    pub set: u64,
    pub clear: u64,
    pub listed: u64,
}

/// How many pairs (a, b) with a <= b are set, for one a.
fn count_from(table: &Table, a: u16) -> u64
    requires { a < table.now.n }
    ensures count { result ≡ set_from table.now a }
    ensures few { result ≤ table.now.n }
{
    let mut count = 0;
    for b in a..table.sectors() {
        if table.rejects(a, b) {
            count += 1;
        }
    }
    count
}

/// How many pairs (a, b) with a <= b are set.
fn count_set(table: &Table) -> u64
    ensures { result ≡ set_pairs table.now }
{
    let mut count = 0;
    for a in 0..table.sectors() {
        count += count_from(table, a);
    }
    count
}

/// How many pairs (a, b) with a <= b so many sectors have.
fn count_pairs(sectors: u16) -> u64
    ensures { result ≡ pair_count sectors }
{
    let n = u64::from(sectors);
    n * (n + 1) / 2
}

/// The counts of a table of which so many pairs are listed, all of them clear ones.
pub fn counts_of(table: &Table, listed: usize) -> Counts
    ensures { result ≡ counts_with table.now listed }
{
    let set = count_set(table);
    let listed = listed as u64;
    Counts {
        sectors: table.sectors(),
        set,
        clear: count_pairs(table.sectors())
            .saturating_sub(set)
            .saturating_sub(listed),
        listed,
    }
}

/// Adds the words of the counts to a line.
#[tactic(auto, unfolding(crate::specs::Counts::counts_words))]
pub fn push_counts(alloc: Global, line: &mut String, counts: Counts) -> Result<(), AllocError>
    ensures { OnOk result (string_bytes line.new ≡ string_bytes line.old ++ counts_words counts) }
{
    line.push_str(" sectors ")?;
    push_number(alloc, line, u64::from(counts.sectors))?;
    line.push_str(" set ")?;
    push_number(alloc, line, counts.set)?;
    line.push_str(" clear ")?;
    push_number(alloc, line, counts.clear)?;
    line.push_str(" listed ")?;
    push_number(alloc, line, counts.listed)
}
