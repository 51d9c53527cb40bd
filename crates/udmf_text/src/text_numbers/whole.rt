//! Whole numbers.

ghost use Rattle.std.specs.Prelude.{◌≡◌, ◌<◌, ◌≤◌, ◌^◌, IfSome, length, neg_ℤ, pos};
ghost use Rattle.udmf_text.specs.TextNumbers.Whole.{whole_of, unsigned_of, behind_zero};

use crate::text_numbers::digits::digits_in;

/// The number behind a zero.
fn after_zero(word: &[u8]) -> Option<u128>
    requires short { length word.now ≤ 30 }
    ensures value { result ≡ behind_zero word.now }
    ensures within { IfSome result (λ n. n < 16 ^ 30) }
{
    match word {
        [] => Some(0),
        [b'x' | b'X', digits @ ..] => digits_in(16, digits),
        _ => digits_in(8, word),
    }
}

/// The number that a word without a sign spells.
fn unsigned(word: &[u8]) -> Option<u128>
    requires short { length word.now ≤ 30 }
    ensures value { result ≡ unsigned_of word.now }
    ensures within { IfSome result (λ n. n < 16 ^ 30) }
{
    match word {
        [b'0', more @ ..] => after_zero(more),
        _ => digits_in(10, word),
    }
}

pub fn positive(n: u128) -> i128
    requires { n < 16 ^ 30 }
    ensures { result ≡ pos n }
{
    n as i128
}

pub fn negative(n: u128) -> i128
    requires { n < 16 ^ 30 }
    ensures { result ≡ neg_ℤ (pos n) }
{
    -(n as i128)
}

/// The whole number that a word spells, None where it spells none.
pub fn whole_number(word: &[u8]) -> Option<i128>
    ensures { result ≡ whole_of word.now }
{
    if word.len() > 30 {
        return None;
    }
    match word {
        [b'-', more @ ..] => Some(negative(unsigned(more)?)),
        [b'+', more @ ..] => Some(positive(unsigned(more)?)),
        _ => Some(positive(unsigned(word)?)),
    }
}
