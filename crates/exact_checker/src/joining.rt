//! The groups that the rays join with each group, as rows of bits.

ghost use Rattle.std.specs.Prelude.{◌≡◌, ◌*◌, ◌<◌, ◌↔◌, ℕ, Some, IfOk, IsTrue, length, slice_get};
ghost use Rattle.sight_names.specs.declared.names.PairRay.{PairRay as RayOf};
ghost use Rattle.cert_checker.specs.Pairs.{IsPairWithin};
ghost use Rattle.gate_floods.specs.declared.gate_masks.masks.Row.{Row as RowOf};
ghost use Rattle.gate_floods.specs.GateMasks.Words.{HasBit};
ghost use Rattle.gate_floods.specs.GateMasks.Masks.{IsInRowOf};
ghost use Rattle.exact_checker.specs.Rows.{AddsAt, AddsBit, AreJoinedRows, AreOwnRows, IsRowOfOne};

use gate_floods::gate_masks::Row;
use gate_floods::gate_masks::words::{has_bit, no_bits, set_bit};
use sight_names::{Memory, PairRay};
use std::alloc::Global;

/// A row with room for so many groups, which has this one alone.
fn own_row(alloc: Global, count: u16, group: u16) -> Result<Row, Memory>
    requires { group < count }
    ensures { IfOk result (IsRowOfOne count group) }
{
    let mut words = no_bits(alloc, count)?;
    set_bit(words.as_mut_slice(), group);
    Ok(Row { words })
}

/// A row for each of so many groups, which has that group alone.
fn own_rows(alloc: Global, count: u16) -> Result<Vec<Row>, Memory>
    ensures { IfOk result (λ v. AreOwnRows count count v.items) }
{
    let mut rows = Vec::new(alloc);
    for group in 0..count {
        let row = own_row(alloc, count, group)?;
        rows.push(row)?;
    }
    Ok(rows)
}

/// Adds the number to the row.
fn add(row: &mut Row, number: u16)
    requires { number < 64 * length row.old.words.items }
    ensures { AddsBit number row.old row.new }
{
    set_bit(row.words.as_mut_slice(), number);
}

/// Adds the number to the row at this place.
fn add_at(rows: &mut [Row], place: u16, number: u16)
    requires place { place < length rows.old }
    requires room { (r : RowOf) → slice_get rows.old place ≡ Some r → number < 64 * length r.words.items }
    ensures { AddsAt place number rows.old rows.new }
{
    add(&mut rows[place as usize], number);
}

/// Adds to the row of each group those that the rays join with it, where each row has that group alone.
fn join_all(rows: &mut [Row], rays: &[PairRay])
    requires own { AreOwnRows (length rows.old) (length rows.old) rows.old }
    requires within { (i : ℕ) (r : RayOf) → slice_get rays.now i ≡ Some r → IsPairWithin (length rows.old) r.pair }
    ensures { AreJoinedRows (length rows.old) rays.now rows.new }
{
    for one in rays {
        add_at(rows, one.pair.a, one.pair.b);
        add_at(rows, one.pair.b, one.pair.a);
    }
}

/// For each of so many groups the row of those that the rays join with it.
pub fn joined_rows(alloc: Global, count: u16, rays: &[PairRay]) -> Result<Vec<Row>, Memory>
    requires { (i : ℕ) (r : RayOf) → slice_get rays.now i ≡ Some r → IsPairWithin count r.pair }
    ensures { IfOk result (λ v. AreJoinedRows count rays.now v.items) }
{
    let mut rows = own_rows(alloc, count)?;
    join_all(rows.as_mut_slice(), rays);
    Ok(rows)
}

/// The words of the group's row, none where there is none.
pub fn words_of(joined: &[Row], group: u16) -> &[u64]
    ensures { (c : ℕ) → HasBit result.now c ↔ IsInRowOf joined.now group c }
{
    match joined.get(group as usize) {
        Some(row) => row.words.as_slice(),
        None => &[],
    }
}

/// Whether the other group is in the row of the one.
pub fn is_in(joined: &[Row], one: u16, other: u16) -> bool
    ensures { IsTrue result ↔ IsInRowOf joined.now one other }
{
    has_bit(words_of(joined, one), other)
}
