//! Eight columns of a table beside each other, a byte for each row. The bits of one column lie a row apart in memory, so that
//! in a great table each look at one waits for memory.

ghost use Rattle.std.specs.Prelude.{◌≡◌, ◌+◌, ◌*◌, ◌<◌, ◌≤◌, ◌↔◌, ℕ, IfOk, IsTrue, length, slice_index};
ghost use Rattle.std.specs.Int.{bit_at};
ghost use Rattle.sight_names.specs.Table.{table_bit};
ghost use Rattle.reject_bits.specs.Parts.{Rejects, TableParts as Rows};
ghost use Rattle.cert_checker.specs.Columns.{AreColumns, AreColumnsFrom, HasColumn};

use reject_bits::Table;
use sight_names::Memory;
use std::alloc::Global;

/// The columns of eight sectors from the first one on, in the rows from there on: bit `i` of the byte of a row is that of
/// sector `first + i`.
#[derive(Drop)]
pub struct Columns {
    pub first: u16,
    pub bytes: Vec<u8>,
}

/// The byte at this place, zero where there is none.
fn byte_at(bytes: &[u8], place: usize) -> u8
    ensures { result ≡ slice_index bytes.now place }
{
    match bytes.get(place) {
        Some(byte) => *byte,
        None => 0,
    }
}

/// The eight bits from this one on.
fn eight_bits(bytes: &[u8], bit: usize) -> u8
    ensures { (i : ℕ) → i < 8 → bit_at result i ≡ table_bit bytes.now (bit + i) }
{
    let low = u16::from(byte_at(bytes, bit / 8));
    let high = u16::from(byte_at(bytes, bit / 8 + 1));
    (((high * 256 + low) >> (bit % 8)) & 255) as u8
}

/// The bits of the row from this column on.
fn in_row(table: &Table, row: u16, first: u16) -> u8
    requires row { row < table.now.n }
    requires first { first < table.now.n }
    ensures { (i : ℕ) → i < 8 → (bit_at result i ≡ 1) ↔ Rejects table.now row (first + i) }
{
    let bit = row as usize * table.sectors() as usize + first as usize;
    eight_bits(table.as_bytes(), bit)
}

/// Puts the bits of the columns from the first one on into the bytes, in the rows from there on.
fn put_columns(bytes: &mut [u8], table: &Table, first: u16)
    requires { length bytes.old ≡ table.now.n }
    ensures { AreColumnsFrom table.now first bytes.new }
{
    for row in first..table.sectors() {
        bytes[row as usize] = in_row(table, row, first);
    }
}

impl Columns {
    /// The first columns.
    pub fn of(alloc: Global, table: &Table) -> Result<Columns, Memory>
        ensures { IfOk result (AreColumns table.now) }
    {
        let mut bytes = vec![in alloc; 0; table.sectors() as usize]?;
        put_columns(bytes.as_mut_slice(), table, 0);
        Ok(Columns { first: 0, bytes })
    }

    /// Sees to it that this column is among them.
    pub fn hold(&mut self, table: &Table, column: u16)
        requires columns { AreColumns table.now self.old }
        requires column { column < table.now.n }
        ensures columns { AreColumns table.now self.new }
        ensures held { HasColumn self.new column }
    {
        if column >= self.first && column - self.first < 8 {
            return;
        }
        put_columns(self.bytes.as_mut_slice(), table, column);
        self.first = column;
    }

    /// Whether the bit of this row is set in this column, which is among them.
    pub fn rejects(&self, row: u16, column: u16) -> bool
        requires row { row < length self.now.bytes.items }
        requires column { HasColumn self.now column }
        ensures { (t : Rows) → AreColumns t self.now → column ≤ row → IsTrue result ↔ Rejects t row column }
    {
        (self.bytes[row as usize] >> (column - self.first)) & 1 == 1
    }
}
