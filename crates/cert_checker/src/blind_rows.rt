//! Rows of sectors that are known to see none, each judged as a whole: without a look at a column of the table, which
//! lies far apart in memory.

ghost use Rattle.std.specs.Prelude.{◌≡◌, ◌+◌, ◌-◌, ◌<◌, ◌≤◌, ◌^◌, ◌↔◌, ℕ, IsTrue};
ghost use Rattle.sight_names.specs.Order.{Ascends, PairBefore};
ghost use Rattle.reject_bits.specs.Parts.{Rejects};
ghost use Rattle.cert_checker.specs.BlindRows.{AreColumnsSet, IsNoneListed, IsRowPlain};
ghost use Rattle.cert_checker.specs.Pairs.{total_of, CanJudgeEach, IsListBelow, IsPlaceOfPair};

use crate::pairs::PairRules;
use crate::verdict::Totals;
use reject_bits::Table;
use sight_names::Pair;

/// The first of so many sectors that sees none, or their number.
fn first_blind<R: PairRules>(rules: &R, sectors: u16) -> u16
    ensures within { result ≤ sectors }
    ensures before { (a : ℕ) → a < result → ¬ R.is_blind rules.now a }
{
    for a in 0..sectors {
        if rules.sees_none(a) {
            return a;
        }
    }
    sectors
}

/// The first sector from the one number on and below the other that sees none and whose bit is clear in the row, if it is
/// below the row's own sector; else the greater number.
fn first_clear<R: PairRules>(rules: &R, table: &Table, row: u16, from: u16, before: u16) -> u16
    requires row { row < table.now.n }
    requires from { from ≤ table.now.n }
    ensures within { result ≤ before }
    ensures set { (a : ℕ) → from ≤ a → a < result → a < row → R.is_blind rules.now a → Rejects table.now row a }
{
    let end = before.min(row);
    let mut at = table.next_clear(row, from);
    while at < end {
        if rules.sees_none(at) {
            return at;
        }
        at = table.next_clear(row, at + 1);
    }
    before
}

/// A sector before which each that sees none has its bit set in all rows of greater ones. It goes by rows, since what lies
/// in a column is far apart in memory.
pub fn columns_set<R: PairRules>(rules: &R, table: &Table) -> u16
    ensures { AreColumnsSet (R.is_blind rules.now) table.now result }
{
    let sectors = table.sectors();
    let first = first_blind(rules, sectors);
    let mut before = sectors;
    for row in first..sectors {
        before = first_clear(rules, table, row, first, before);
    }
    before
}

/// Whether the list has no pair of the sector with itself or a greater one, when so many of the list come before it.
fn is_none_listed(listed: &[Pair], passed: u32, a: u16) -> bool
    requires listed { Ascends PairBefore listed.now }
    requires place { IsPlaceOfPair listed.now a a passed }
    ensures { IsTrue result → IsNoneListed listed.now a }
{
    match listed.get(passed as usize) {
        Some(next) => next.a != a,
        None => true,
    }
}

/// Whether all pairs (a, b) with a <= b, for one a that sees none, are seen at once to be fine: no bit of them is clear,
/// and none is listed.
pub fn is_row_plain<R: PairRules>(
    rules: &R,
    table: &Table,
    listed: &[Pair],
    passed: u32,
    before: u16,
    a: u16,
) -> bool
    requires from { a < table.now.n }
    requires rules { CanJudgeEach (R.can_judge rules.now) table.now listed.now }
    requires listed { IsListBelow table.now.n listed.now }
    requires place { IsPlaceOfPair listed.now a a passed }
    requires columns { AreColumnsSet (R.is_blind rules.now) table.now before }
    ensures { IsTrue result → IsRowPlain (R.is_fine rules.now) table.now listed.now a passed }
{
    if a >= before || !rules.sees_none(a) {
        return false;
    }
    if !is_none_listed(listed, passed, a) {
        return false;
    }
    table.next_clear(a, a) == table.sectors()
}

/// The totals with so many set pairs more.
pub fn count_set(totals: &mut Totals, more: u16)
    requires { total_of totals.old + more < 2 ^ 32 }
    ensures set { totals.new.set ≡ totals.old.set + more }
    ensures listed { totals.new.listed ≡ totals.old.listed }
    ensures all { total_of totals.new ≡ total_of totals.old + more }
{
    totals.set += u32::from(more);
}
