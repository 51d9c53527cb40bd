//! The REJECT table of a map as bits: a sector by a sector, the least bit of each byte first, as the Unofficial
//! Doom Specs describe the lump and linuxdoom's `P_CheckSight` reads it.
#![tactic(auto)]

ghost use Rattle.std.specs.Prelude.{◌≡◌, ◌≢◌, ℕ, length, ◌+◌, ◌-◌, ◌*◌, ◌<◌, ◌≤◌, ◌↔◌, IfOk, IsTrue, replicate};
ghost use Rattle.std.specs.Int.{bit_at, div_ceil};
ghost use Rattle.sight_names.specs.Table.{table_bit, IsTable, HasNoSpareBit};
ghost use Rattle.reject_bits.specs.Parts.{HasSameBits};

use sight_names::{Memory, TableFault};
use std::alloc::Global;
use std::marker::Model;

/// A table of `n` sectors. Pair (a, b) is bit `(a * n + b) % 8` of byte `(a * n + b) / 8`, bit 0 being the least;
/// what is left of the last byte is zero.
#[derive(Drop)]
pub struct Table {
    pub n: u16,
    pub bytes: Vec<u8>,
}

impl Model for Table {
    ghost use Rattle.reject_bits.specs.Parts.{TableParts, IsTableWhole};

    ghost Value = { TableParts };

    ghost view = { λ t. record { n = t.n; bytes = t.bytes.items } };

    ghost invariant = { λ t. IsTableWhole (record { n = t.n; bytes = t.bytes.items }) };
}

impl Table {
    ghost use Rattle.reject_bits.specs.Parts.{HasOtherBits, Rejects, TakesBytes, SetsPair, KeepsOtherPairs, IsTableWhole};

    /// The table in which no bit is set.
    pub fn clear(alloc: Global, n: u16) -> Result<Table, Memory>
        ensures sectors { IfOk result (λ t. t.n ≡ n) }
        ensures zero { IfOk result (λ t. t.bytes ≡ replicate (div_ceil (n * n) 8) 0) }
        ensures whole { IfOk result IsTableWhole }
    {
        let bytes = vec![in alloc; 0; byte_len(n)]?;
        Ok(Table { n, bytes })
    }

    /// The table that the bytes spell; spare bits are not looked at and become zero.
    ///
    /// # Errors
    ///
    /// `WrongLength` where the bytes are more or fewer than a table of `n` sectors has.
    pub fn of_bytes(alloc: Global, n: u16, bytes: &[u8]) -> Result<Table, TableFault>
        ensures takes { TakesBytes n bytes.now result }
        ensures whole { IfOk result IsTableWhole }
    {
        let expected = byte_len(n);
        if bytes.len() != expected {
            return Err(TableFault::WrongLength {
                found: bytes.len() as u64,
                expected: expected as u64,
            });
        }
        let mut kept = Vec::from_slice(alloc, bytes)?;
        clear_spare(n, kept.as_mut_slice());
        Ok(Table { n, bytes: kept })
    }

    /// The number of sectors.
    pub fn sectors(&self) -> u16
        ensures { result ≡ self.now.n }
    {
        self.n
    }

    /// The bytes of the lump, its spare bits zero.
    pub fn as_bytes(&self) -> &[u8]
        ensures bytes { result.now ≡ self.now.bytes }
        ensures whole { IsTableWhole self.now }
    {
        self.bytes.as_slice()
    }

    /// Sets the bit of the pair (a, b), and no other.
    pub fn set(&mut self, a: u16, b: u16)
        requires from { a < self.old.n }
        requires to { b < self.old.n }
        ensures bit { SetsPair self.old self.new a b }
        ensures pairs { KeepsOtherPairs self.old self.new a b }
        ensures whole { IsTableWhole self.new }
    {
        let bit = place(self.n, a, b);
        set_bit(self.bytes.as_mut_slice(), bit);
    }

    /// The table with the bits that this one hasn't, byte by byte.
    pub fn others(self) -> Table
        ensures bits { HasOtherBits self result }
        ensures whole { IsTableWhole result }
    {
        let Table { n, bytes: old } = self;
        let mut bytes = old;
        let slice = bytes.as_mut_slice();
        turn_bits(slice);
        clear_spare(n, slice);
        Table { n, bytes }
    }

    /// The first sector from `from` on whose bit with `a` is set, or the number of sectors where there is none.
    pub fn next_set(&self, a: u16, from: u16) -> u16
        requires row { a < self.now.n }
        requires from { from ≤ self.now.n }
        ensures range { (from ≤ result) × (result ≤ self.now.n) }
        ensures set { result < self.now.n → Rejects self.now a result }
        ensures clear { (b : ℕ) → from ≤ b → b < result → ¬ Rejects self.now a b }
    {
        next_bit(self.bytes.as_slice(), self.n, a, from, 1)
    }

    /// The first sector from `from` on whose bit with `a` is clear, or the number of sectors where there is none.
    pub fn next_clear(&self, a: u16, from: u16) -> u16
        requires row { a < self.now.n }
        requires from { from ≤ self.now.n }
        ensures range { (from ≤ result) × (result ≤ self.now.n) }
        ensures clear { result < self.now.n → ¬ Rejects self.now a result }
        ensures set { (b : ℕ) → from ≤ b → b < result → Rejects self.now a b }
    {
        next_bit(self.bytes.as_slice(), self.n, a, from, 0)
    }

    /// Whether the bit of the pair (a, b) is set: no monster in sector a sees a player in sector b.
    pub fn rejects(&self, a: u16, b: u16) -> bool
        requires from { a < self.now.n }
        requires to { b < self.now.n }
        ensures { IsTrue result ↔ Rejects self.now a b }
    {
        let bit = place(self.n, a, b);
        (self.bytes[bit / 8] >> (bit % 8)) & 1 == 1
    }
}

/// How many bits of the byte, from the one at `from` on, are passed because they are other than asked: none where that one is
/// as asked, all that are left where none of the byte is, which is so of most bytes of a table.
fn passed(byte: u8, from: usize, bit: u8) -> usize
    requires from { from < 8 }
    requires bit { bit < 2 }
    ensures within { from + result ≤ 8 }
    ensures here { result ≡ 0 → bit_at byte from ≡ bit }
    ensures others { (k : ℕ) → from ≤ k → k < from + result → bit_at byte k ≡ 1 - bit }
{
    if byte == 255 * (1 - bit) {
        return 8 - from;
    }
    if (byte >> from) & 1 == bit { 0 } else { 1 }
}

/// The first place of the row, from this one on, whose bit is as asked, or the row's end.
fn next_bit(bytes: &[u8], n: u16, a: u16, from: u16, bit: u8) -> u16
    requires table { IsTable n bytes.now }
    requires row { a < n }
    requires from { from ≤ n }
    requires bit { bit < 2 }
    ensures range { (from ≤ result) × (result ≤ n) }
    ensures here { result < n → table_bit bytes.now (a * n + result) ≡ bit }
    ensures others { (b : ℕ) → from ≤ b → b < result → table_bit bytes.now (a * n + b) ≡ 1 - bit }
{
    let mut b = from as usize;
    while b < n as usize {
        let at = place(n, a, b as u16);
        let more = passed(bytes[at / 8], at % 8, bit);
        if more == 0 {
            return b as u16;
        }
        b += more;
    }
    n
}

/// The byte in which each bit is turned round.
fn turned(byte: u8) -> u8
    ensures { (i : ℕ) → i < 8 → bit_at result i ≡ 1 - bit_at byte i }
{
    byte ^ 255
}

/// Turns each bit round.
fn turn_bits(bytes: &mut [u8])
    ensures len { length bytes.new ≡ length bytes.old }
    ensures bits { (k : ℕ) → k < 8 * length bytes.old → table_bit bytes.new k ≡ 1 - table_bit bytes.old k }
{
    for i in 0..bytes.len() {
        bytes[i] = turned(bytes[i]);
    }
}

/// How many bytes a table of `n` sectors has.
fn byte_len(n: u16) -> usize
    ensures { result ≡ div_ceil (n * n) 8 }
{
    (n as usize * n as usize).div_ceil(8)
}

/// The bit of a pair.
fn place(n: u16, a: u16, b: u16) -> usize
    requires from { a < n }
    requires to { b < n }
    ensures bit { result ≡ a * n + b }
    ensures within { result < n * n }
{
    a as usize * n as usize + b as usize
}

/// Sets one bit of the bytes.
fn set_bit(bytes: &mut [u8], bit: usize)
    requires { bit < 8 * length bytes.old }
    ensures set { table_bit bytes.new bit ≡ 1 }
    ensures others { (k : ℕ) → k ≢ bit → table_bit bytes.new k ≡ table_bit bytes.old k }
{
    bytes[bit / 8] |= 1 << (bit % 8);
}

/// Makes the bits behind the last pair's zero.
fn clear_spare(n: u16, bytes: &mut [u8])
    requires { IsTable n bytes.old }
    ensures kept { HasSameBits n bytes.old bytes.new }
    ensures zero { HasNoSpareBit n bytes.new }
{
    let used = n as usize * n as usize % 8;
    if used == 0 {
        return;
    }
    let last = bytes.len() - 1;
    bytes[last] &= (1 << used) - 1;
}
