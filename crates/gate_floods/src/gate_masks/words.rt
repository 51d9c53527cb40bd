//! Sets of numbers as bits in words, the least bit of each word first.

ghost use Rattle.std.specs.Prelude.{◌≢◌, ◌*◌, ◌<◌, ◌≤◌, ◌↔◌, ℕ, IfOk, IsTrue, length};
ghost use Rattle.gate_floods.specs.GateMasks.Words.{HasBit};

use sight_names::Memory;
use std::alloc::Global;

/// No number, of so many.
pub fn no_bits(alloc: Global, count: u16) -> Result<Vec<u64>, Memory>
    ensures room { IfOk result (λ v. count ≤ 64 * length v.items) }
    ensures none { IfOk result (λ v. (c : ℕ) → ¬ HasBit v.items c) }
{
    let words = vec![in alloc; 0; (count as usize).div_ceil(64)]?;
    Ok(words)
}

/// Whether the number is in the set.
pub fn has_bit(words: &[u64], number: u16) -> bool
    ensures { IsTrue result ↔ HasBit words.now number }
{
    match words.get(number as usize / 64) {
        Some(word) => (*word >> (number % 64)) & 1 == 1,
        None => false,
    }
}

/// Puts the number into the set.
pub fn set_bit(words: &mut [u64], number: u16)
    requires { number < 64 * length words.old }
    ensures set { HasBit words.new number }
    ensures others { (c : ℕ) → c ≢ number → HasBit words.new c ↔ HasBit words.old c }
{
    words[number as usize / 64] |= 1 << (number % 64);
}
