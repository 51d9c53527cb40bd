//! What a table and its list of listed pairs tell of each pair of sectors, told to listeners.

ghost use Rattle.std.specs.Prelude.{◌≡◌, ◌+◌, ◌*◌, ◌<◌, ◌==◌, ◌++◌, [], drop, map, OnOk, OnErr};
ghost use Rattle.std.specs.List.{AllByRecursion};
ghost use Rattle.sight_names.specs.Order.{Ascends, PairBefore};
ghost use Rattle.sight_names.specs.Table.{table_bit};
ghost use Rattle.listeners.specs.Told.{AreFindingsTold, HeardFronts, StopsAmong, TellsAllFindings, texts};
ghost use Rattle.listeners.specs.PairFindings.Counted.{FindingsAreCounted};
ghost use Rattle.listeners.specs.PairFindings.Found.{FindingsTellPairs, IsPairBelow, findings_of, is_pair_listed, is_pair as is_the_pair, kind_by, row_from};
ghost use Rattle.listeners.specs.PairFindings.Place.{IsLeftAt};

use crate::{Finding, Kind, Listener, tell};
use reject_bits::Table;
use sight_names::{Memory, Pair};

/// Whether the pair is (a, b).
fn is_pair(pair: Pair, a: u16, b: u16) -> bool
    ensures { result ≡ is_the_pair a b pair }
{
    pair.a == a && pair.b == b
}

/// Whether the pair is listed. The place, which is that of the next pair of the list, goes on to the next pair.
fn pass(listed: &[Pair], place: &mut usize, a: u16, b: u16) -> bool
    requires { IsLeftAt listed.now (drop place.old listed.now) a b }
    ensures listed { result ≡ is_pair_listed listed.now a b }
    ensures place { IsLeftAt listed.now (drop place.new listed.now) a (b + 1) }
{
    let at = *place;
    if at >= listed.len() {
        return false;
    }
    if !is_pair(listed[at], a, b) {
        return false;
    }
    *place = at + 1;
    true
}

/// What is found of a pair that is listed, or isn't.
fn kind_at(table: &Table, a: u16, b: u16, found: bool) -> Kind
    requires from { a < table.now.n }
    requires to { b < table.now.n }
    ensures { result ≡ kind_by found (table_bit table.now.bytes (a * table.now.n + b) == 1) }
{
    if found {
        Kind::Listed
    } else if table.rejects(a, b) {
        Kind::Set
    } else {
        Kind::Clear
    }
}

/// Tells the pairs (a, b) with a <= b, for one a. The place goes behind the last of them.
fn tell_row(
    list: &mut Vec<Box<dyn Listener>>,
    table: &Table,
    listed: &[Pair],
    place: &mut usize,
    a: u16,
    ended: &mut Vec<Box<dyn Listener>>,
) -> Result<(), Memory>
    requires from { a < table.now.n }
    requires place { IsLeftAt listed.now (drop place.old listed.now) a a }
    ensures place { OnOk result (IsLeftAt listed.now (drop place.new listed.now) a table.now.n) }
    ensures told { OnOk result (TellsAllFindings (row_from table.now listed.now a a) (map (λ b. listener_state b) list.old.items) (map (λ b. listener_state b) list.new.items) (map (λ b. listener_state b) ended.old.items) (map (λ b. listener_state b) ended.new.items)) }
    ensures stops { OnErr result (StopsAmong (row_from table.now listed.now a a) (map (λ b. listener_state b) list.old.items) (map (λ b. listener_state b) list.new.items) (map (λ b. listener_state b) ended.old.items) (map (λ b. listener_state b) ended.new.items)) }
{
    for b in a..table.sectors() {
        let found = pass(listed, place, a, b);
        let kind = kind_at(table, a, b, found);
        tell(list, &Finding { a, b, kind }, ended)?;
    }
    Ok(())
}

/// Tells the listeners what the table and its list say of each pair (a, b) with a <= b, by a, then by b. Each hears up to the last set pair
/// of its quota, if it has one, and goes to the end of `ended` then; the others stay, in order. It takes no time for the pairs where
/// nobody is left. After `Memory` the listeners that are left have heard a front of the findings.
pub fn tell_all(
    list: &mut Vec<Box<dyn Listener>>,
    table: &Table,
    listed: &[Pair],
    ended: &mut Vec<Box<dyn Listener>>,
) -> Result<(), Memory>
    requires ascend { Ascends PairBefore listed.now }
    requires pairs { AllByRecursion (IsPairBelow table.now.n) listed.now }
    requires nobody { ended.old.items ≡ [] }
    ensures told { OnOk result (AreFindingsTold (findings_of table.now listed.now) (map (λ b. listener_state b) list.old.items) (map (λ b. listener_state b) list.new.items) (texts (map (λ b. listener_state b) ended.new.items) ++ texts (map (λ b. listener_state b) list.new.items))) }
    ensures in_turn { OnOk result (TellsAllFindings (findings_of table.now listed.now) (map (λ b. listener_state b) list.old.items) (map (λ b. listener_state b) list.new.items) (map (λ b. listener_state b) ended.old.items) (map (λ b. listener_state b) ended.new.items)) }
    ensures memory { OnErr result (HeardFronts (findings_of table.now listed.now) (map (λ b. listener_state b) list.old.items) (map (λ b. listener_state b) list.new.items)) }
    ensures stops { OnErr result (StopsAmong (findings_of table.now listed.now) (map (λ b. listener_state b) list.old.items) (map (λ b. listener_state b) list.new.items) (map (λ b. listener_state b) ended.old.items) (map (λ b. listener_state b) ended.new.items)) }
{
    let mut place = 0;
    for a in 0..table.sectors() {
        if list.is_empty() {
            return Ok(());
        }
        tell_row(list, table, listed, &mut place, a, ended)?;
    }
    Ok(())
}

/// The findings of a table and a list are one for each pair, in order: listed where the list contains the pair, else set or clear by its bit.
pub fn findings_tell_pairs()
    ensures { FindingsTellPairs }
{}

/// Of a list in order, of pairs whose bits are clear: as many findings are set as pairs have their bit set, as many are listed as the list
/// has pairs, and all others are clear.
pub fn findings_are_counted()
    ensures { FindingsAreCounted }
{}
