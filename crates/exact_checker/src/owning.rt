//! The claims that each group owns, as a row of bits.

ghost use Rattle.std.specs.Prelude.{◌≡◌, ◌+◌, ◌*◌, ◌<◌, ◌≤◌, ◌↔◌, ℕ, List, IfOk, IsTrue, length, slice_index};
ghost use Rattle.std.specs.Int.{bit_at};
ghost use Rattle.sight_names.specs.declared.names.PairRay.{PairRay as RayOf};
ghost use Rattle.gate_floods.specs.GateMasks.Words.{HasBit, AreBitsOf};
ghost use Rattle.exact_checker.specs.Owning.{owning_of, RanksBehind, IsOwnedBit, IsSized, KnowsOwning, RanksFrom};

use crate::joining::words_of;
use gate_floods::gate_masks::Row;
use sight_names::Memory;
use std::alloc::Global;

/// The component and the rank of each group, and the row of the groups that are joined with it.
#[derive(Clone, Copy)]
pub struct Owning<'a> {
    pub count: u16,
    pub components: &'a [u16],
    pub ranks: &'a [u16],
    pub joined: &'a [Row],
}

/// Whether the group is of this component and has at least this rank.
fn ranks_from(known: Owning<'_>, component: u16, least: u32, group: usize) -> bool
    requires group { group < known.count }
    requires sized { IsSized (owning_of known) }
    ensures { IsTrue result ↔ RanksFrom (owning_of known.entry) component least group }
{
    known.components[group] == component && u32::from(known.ranks[group]) >= least
}

/// Of the groups from the one number on to the other those that are of this component and have at least this rank. The
/// bit of each says how far it is from the first number of the word.
fn ranking_from(
    known: Owning<'_>,
    component: u16,
    least: u32,
    first: usize,
    from: usize,
    to: usize,
) -> u64
    requires first { first ≤ from }
    requires order { from ≤ to }
    requires word { to ≤ first + 64 }
    requires count { to ≤ known.count }
    requires sized { IsSized (owning_of known) }
    ensures { (i : ℕ) → (bit_at result i ≡ 1) ↔ ((from ≤ first + i) × (first + i < to) × RanksFrom (owning_of known.entry) component least (first + i)) }
{
    let mut bits: u64 = 0;
    for other in from..to {
        if ranks_from(known, component, least, other) {
            bits |= 1 << (other - first);
        }
    }
    bits
}

/// The word at this place of the row of the groups that rank behind the source in its component: of those with a smaller
/// number none that has its rank.
fn behind_word(known: Owning<'_>, source: u16, place: usize) -> u64
    requires source { source < known.count }
    requires place { 64 * place ≤ known.count }
    requires sized { IsSized (owning_of known) }
    ensures { (i : ℕ) → i < 64 → (bit_at result i ≡ 1) ↔ RanksBehind (owning_of known.entry) source (64 * place + i) }
{
    let first = 64 * place;
    let end = (first + 64).min(known.count as usize);
    let begin = (source as usize + 1).max(first);
    let middle = begin.min(end);
    let component = known.components[source as usize];
    let rank = u32::from(known.ranks[source as usize]);
    let smaller = ranking_from(known, component, rank + 1, first, first, middle);
    let greater = ranking_from(known, component, rank, first, middle, end);
    smaller | greater
}

/// The word at this place, none where there is none.
fn word_at(words: &[u64], place: usize) -> u64
    ensures { result ≡ slice_index words.now place }
{
    match words.get(place) {
        Some(word) => *word,
        None => 0,
    }
}

/// The word at this place of the row of what the source owns.
fn owned_word(known: Owning<'_>, source: u16, place: usize) -> u64
    requires source { source < known.count }
    requires place { 64 * place ≤ known.count }
    requires sized { IsSized (owning_of known) }
    ensures { (rays : List RayOf) → KnowsOwning rays (owning_of known.entry) → (i : ℕ) → i < 64 → (bit_at result i ≡ 1) ↔ IsOwnedBit rays known.entry.components.now known.entry.count source (64 * place + i) }
{
    let joined = word_at(words_of(known.joined, source), place);
    behind_word(known, source, place) & !joined
}

/// Puts into the row, which is empty, the groups whose claims the source owns.
fn put_owned(words: &mut [u64], known: Owning<'_>, source: u16)
    requires source { source < known.count }
    requires room { known.count ≤ 64 * length words.old }
    requires sized { IsSized (owning_of known) }
    requires none { (c : ℕ) → ¬ HasBit words.old c }
    ensures { (rays : List RayOf) → KnowsOwning rays (owning_of known.entry) → AreBitsOf words.new (IsOwnedBit rays known.entry.components.now known.entry.count source) }
{
    for place in 0..(known.count as usize).div_ceil(64) {
        words[place] = owned_word(known, source, place);
    }
}

/// The row of what the group owns, of so many words.
pub fn owned_row(
    alloc: Global,
    known: Owning<'_>,
    width: usize,
    source: u16,
) -> Result<Vec<u64>, Memory>
    requires source { source < known.count }
    requires room { known.count ≤ 64 * width }
    requires sized { IsSized (owning_of known) }
    ensures len { IfOk result (λ v. length v.items ≡ width) }
    ensures bits { (rays : List RayOf) → KnowsOwning rays (owning_of known.entry) → IfOk result (λ v. AreBitsOf v.items (IsOwnedBit rays known.entry.components.now known.entry.count source)) }
{
    let mut words = vec![in alloc; 0; width]?;
    put_owned(words.as_mut_slice(), known, source);
    Ok(words)
}
