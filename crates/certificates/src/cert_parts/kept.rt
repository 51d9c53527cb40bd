//! The bytes of a record that is cut.

ghost use Rattle.std.specs.Prelude.{◌≡◌, ◌+◌, ◌≤◌, [], ◌++◌, length};

use std::marker::Model;

/// Bytes of a record, 28 at most: no record is longer than the header. A contract sees the list of them.
#[derive(Drop)]
pub struct Kept {
    bytes: [u8; 28],
    count: usize,
}

impl Model for Kept {
    ghost use Rattle.std.specs.Prelude.{ℕ, ◌≤◌, List, take};

    ghost Value = { List ℕ };

    ghost view = { λ k. take k.count k.bytes };

    ghost invariant = { λ k. k.count ≤ 28 };
}

impl Kept {
    /// None.
    pub fn new() -> Kept
        ensures { result ≡ [] }
    {
        Kept {
            bytes: [0; 28],
            count: 0,
        }
    }

    pub fn len(&self) -> usize
        ensures { result ≡ length self.now }
    {
        self.count
    }

    pub fn as_slice(&self) -> &[u8]
        ensures { result.now ≡ self.now }
    {
        &self.bytes[..self.count]
    }

    /// These bytes, and more behind them.
    pub fn with(&self, more: &[u8]) -> Kept
        requires { length self.now + length more.now ≤ 28 }
        ensures { result ≡ self.now ++ more.now }
    {
        let mut bytes = self.bytes;
        let count = self.count + more.len();
        bytes[self.count..count].copy_from_slice(more);
        Kept { bytes, count }
    }
}
