//! What searches share.

use crate::cells::Cells;
use gate_floods::gate_masks::gates::Gates;
use gate_floods::row_judge::words::part;

/// The number of the first gate out of this group or a later one.
pub fn first_of(gates: &Gates, group: u32) -> usize {
    match gates.starts.get(group as usize) {
        Some(start) => *start,
        None => gates.gates.len(),
    }
}

/// The half-edges, the gates, and for each gate the row of what may be seen behind it, so many words each, what that got last,
/// and a bit that says whether that is anything.
#[derive(Clone, Copy)]
pub struct Scene<'a> {
    pub cells: &'a Cells,
    pub gates: &'a Gates,
    pub masks: &'a [u64],
    pub more: &'a [u64],
    pub changed: &'a [u64],
    pub width: usize,
}

impl<'a> Scene<'a> {
    /// What may be seen behind the gate with this number.
    #[inline(always)]
    pub fn mask(&self, gate: u32) -> &[u64] {
        part(
            self.masks,
            (gate as usize).wrapping_mul(self.width),
            self.width,
        )
    }

    /// What the row of the gate with this number got last.
    pub fn more_of(&self, gate: usize) -> &[u64] {
        part(self.more, gate.wrapping_mul(self.width), self.width)
    }
}
