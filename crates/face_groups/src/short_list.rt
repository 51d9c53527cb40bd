//! Lists that nearly always have one number, and then take no memory of their own.

ghost use Rattle.std.specs.Prelude.{◌≡◌};

use smallvec::SmallVec;
use std::marker::Model;

/// Numbers of which up to eight stand in the value itself. A value with room for eight is as large as one with room for one, since it
/// has room for the three words of a vector too.
pub type FewNumbers = SmallVec<u16, 8>;

/// Numbers of sectors, or of groups, in order; a contract sees the list of them. Up to eight take no memory.
#[derive(Drop)]
pub struct ShortList {
    numbers: FewNumbers,
}

impl Model for ShortList {
    ghost use Rattle.std.specs.Prelude.{ℕ, List};

    ghost Value = { List ℕ };

    ghost view = { λ s. s.numbers.items };
}

impl ShortList {
    /// These numbers.
    pub fn of(numbers: FewNumbers) -> ShortList
        ensures { result ≡ numbers.items }
    {
        ShortList { numbers }
    }

    /// The numbers in order.
    pub fn as_slice(&self) -> &[u16]
        ensures { result.now ≡ self.now }
    {
        self.numbers.as_slice()
    }
}
