//! The masks of all gates of a map, as rows of bits.

ghost use Rattle.std.specs.Prelude.{◌≡◌, ◌*◌, ◌<◌, ◌⊎◌, ◌↔◌, ℕ, None, length, Contains, IfOk, MatchOption};
ghost use Rattle.sight_names.specs.Map.{map_of};
ghost use Rattle.gate_floods.specs.Gates.{other_side as other_side_of};
ghost use Rattle.gate_floods.specs.GateMasks.Behind.{mask_behind};
ghost use Rattle.gate_floods.specs.GateMasks.Words.{HasBit, AreBitsOf};
ghost use Rattle.gate_floods.specs.GateMasks.Gates.{AreGates, AreGatesIndexed};
ghost use Rattle.gate_floods.specs.GateMasks.Masks.{AreSideMasks, HasWords, IsInRowOf, IsLeftOut, IsMaskAt, IsGateMask, mask_of_side, side_place};

use crate::gate_masks::flood::beyond;
use crate::gate_masks::gate::{Gate, gate_at};
use crate::gate_masks::gates::Gates;
use crate::gate_masks::words::{has_bit, no_bits, set_bit};
use mesh_shape::half_edges::HalfEdge;
use sight_names::{Memory, Plan, Side};
use std::alloc::Global;
use std::marker::Model;

/// A set of sectors as bits in words, the least bit of each word first.
#[derive(Drop)]
pub struct Row {
    pub words: Vec<u64>,
}

/// The masks of a map's gates: for each line the one at its right side and the one at its left side, if there are such
/// gates.
#[derive(Drop)]
pub struct Masks {
    masks: Vec<Option<Row>>,
}

impl Model for Masks {
    ghost use Rattle.std.specs.Prelude.{List, Option};
    ghost use Rattle.gate_floods.specs.declared.gate_masks.masks.Row.{Row};

    ghost Value = { List (Option Row) };

    ghost view = { λ m. m.masks.items };
}

/// The words of the row with this number, none where there is none.
fn words_of(rows: &[Row], number: u16) -> &[u64]
    ensures { (c : ℕ) → HasBit result.now c ↔ IsInRowOf rows.now number c }
{
    match rows.get(number as usize) {
        Some(row) => row.words.as_slice(),
        None => &[],
    }
}

/// The place of a side in a list with two entries for each line.
fn place_of(side: Side) -> usize
    ensures { result ≡ side_place side }
{
    let left = if side.left { 1 } else { 0 };
    side.line as usize * 2 + left
}

/// The other side of the line.
fn other_side(side: Side) -> Side
    ensures { result ≡ other_side_of side }
{
    Side {
        line: side.line,
        left: !side.left,
    }
}

/// The words of the row, if there is one.
fn words_in(entry: &Option<Row>) -> Option<&[u64]>
    ensures { MatchOption result (entry.now ≡ None) (λ words. HasWords entry.now words.now) }
{
    match entry {
        Some(row) => Some(row.words.as_slice()),
        None => None,
    }
}

/// Puts the number into the set, if it is in the other one.
fn keep(words: &mut [u64], number: u16, other: &[u64])
    requires { number < 64 * length words.old }
    ensures { (c : ℕ) → HasBit words.new c ↔ (HasBit words.old c ⊎ ((c ≡ number) × HasBit other.now c)) }
{
    if !has_bit(other, number) {
        return;
    }
    set_bit(words, number);
}

/// Puts those of the numbers into the set that are in the other one.
fn keep_all(words: &mut [u64], numbers: &[u16], other: &[u64])
    requires room { (c : ℕ) → Contains numbers.now c → c < 64 * length words.old }
    requires none { (c : ℕ) → ¬ HasBit words.old c }
    ensures { AreBitsOf words.new (λ c. Contains numbers.now c × HasBit other.now c) }
{
    for number in numbers {
        keep(words, *number, other);
    }
}

/// Of these numbers, all below a count, those that are in the other set.
fn kept(alloc: Global, count: u16, numbers: &[u16], other: &[u64]) -> Result<Row, Memory>
    requires { (c : ℕ) → Contains numbers.now c → c < count }
    ensures { IfOk result (λ row. AreBitsOf row.words.items (λ c. Contains numbers.now c × HasBit other.now c)) }
{
    let mut words = no_bits(alloc, count)?;
    keep_all(words.as_mut_slice(), numbers, other);
    Ok(Row { words })
}

/// The mask of a gate.
fn mask_of(alloc: Global, gates: &Gates, joined: &[Row], gate: Gate) -> Result<Row, Memory>
    requires indexed { AreGatesIndexed gates.now }
    requires far { gate.far < gates.now.sectors }
    ensures { IfOk result (λ row. IsGateMask gates.now.gates.items joined.now gate row.words.items) }
{
    let seen = words_of(joined, gate.near);
    let numbers = beyond(alloc, gates, gate, seen)?;
    let other = words_of(joined, gate.far);
    let row = kept(alloc, gates.sectors, numbers.as_slice(), other)?;
    Ok(row)
}

/// The mask of the gate at a side, if there is one.
fn mask_at_side(
    alloc: Global,
    plan: &Plan,
    gates: &Gates,
    joined: &[Row],
    side: Side,
) -> Result<Option<Row>, Memory>
    requires indexed { AreGatesIndexed gates.now }
    requires sectors { gates.now.sectors ≡ plan.now.sectors }
    requires gates { AreGates (map_of plan.now) gates.now.gates.items }
    ensures { IfOk result (IsMaskAt (map_of plan.now) (IsLeftOut joined.now) side) }
{
    match gate_at(plan, side) {
        Some(gate) => {
            let row = mask_of(alloc, gates, joined, gate)?;
            Ok(Some(row))
        }
        None => Ok(None),
    }
}

/// The masks at both sides of all lines.
fn masks_of(
    alloc: Global,
    plan: &Plan,
    gates: &Gates,
    joined: &[Row],
) -> Result<Vec<Option<Row>>, Memory>
    requires indexed { AreGatesIndexed gates.now }
    requires sectors { gates.now.sectors ≡ plan.now.sectors }
    requires gates { AreGates (map_of plan.now) gates.now.gates.items }
    ensures { IfOk result (λ v. AreSideMasks (map_of plan.now) (IsLeftOut joined.now) v.items) }
{
    let mut masks = Vec::new(alloc);
    for k in 0..plan.lines().len() {
        let line = k as u16;
        let right = mask_at_side(alloc, plan, gates, joined, Side { line, left: false })?;
        masks.push(right)?;
        let left = mask_at_side(alloc, plan, gates, joined, Side { line, left: true })?;
        masks.push(left)?;
    }
    Ok(masks)
}

impl Masks {
    /// The masks of all gates of the plan, where a sector is claimed not to see another exactly if that one has no bit
    /// in its row.
    pub fn of(alloc: Global, plan: &Plan, joined: &[Row]) -> Result<Masks, Memory>
        ensures { IfOk result (AreSideMasks (map_of plan.now) (IsLeftOut joined.now)) }
    {
        let gates = Gates::of(alloc, plan)?;
        let masks = masks_of(alloc, plan, &gates, joined)?;
        Ok(Masks { masks })
    }

    /// The words of the mask of the gate at this side, None where no gate is there.
    pub fn at(&self, side: Side) -> Option<&[u64]>
        ensures { MatchOption result (mask_of_side self.now side ≡ None) (λ words. HasWords (mask_of_side self.now side) words.now) }
    {
        let place = place_of(side);
        match self.masks.get(place) {
            Some(entry) => words_in(entry),
            None => None,
        }
    }

    /// The words of the mask of the gate by which one enters the half-edge, None where one enters by no gate.
    pub fn behind(&self, edge: &HalfEdge) -> Option<&[u64]>
        ensures { MatchOption result (mask_behind self.now edge.now ≡ None) (λ words. HasWords (mask_behind self.now edge.now) words.now) }
    {
        match edge.entered {
            Some(arrival) => self.at(other_side(arrival)),
            None => None,
        }
    }
}
