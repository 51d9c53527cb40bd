//! The values that keys take.

ghost use Rattle.std.specs.Prelude.{◌≡◌, ◌≤◌, ◌*◌, ◌^◌, option_map};
ghost use Rattle.udmf_text.specs.Parts.{given_bytes};
ghost use Rattle.udmf_map.specs.Values.{is_word as is_word_lem, word_given, saturated as saturated_lem, whole_given, truth_given, of_whole as of_whole_lem, decimal_in_word, signed as signed_lem, lowered as lowered_lem, coordinate_of, coordinate_given};

use sight_names::FARTHEST;
use udmf_text::Given;
use udmf_text::text_numbers::{Decimal, decimal_number, whole_number};

/// The most decimal places of a coordinate.
pub const MOST_PLACES: u8 = 7;

/// A coordinate of a vertex.
#[derive(Clone, Copy)]
pub enum Coordinate {
    /// It isn't given.
    Missing,
    /// It has more than seven decimal places, or is farther from 0 than 2^25 units of its last one.
    OffGrid,
    /// So many units of its last decimal place, of which it has as few as it can.
    At { units: i32, places: u8 },
}

/// Whether the word is this one, in upper or in lower case.
pub fn is_word(word: &[u8], letters: &[u8]) -> bool
    ensures { result ≡ is_word_lem word.now letters.now }
{
    word.eq_ignore_ascii_case(letters)
}

fn word<'a>(given: &Given<'a>) -> Option<&'a [u8]>
    ensures { option_map (λ word. word.now) result ≡ word_given (given_bytes given.now) }
{
    if given.quoted {
        return None;
    }
    Some(given.value)
}

/// The number, or the nearest one of 32 bits.
fn saturated(n: i128) -> i32
    ensures { result ≡ saturated_lem n }
{
    if n < -0x8000_0000 {
        return i32::MIN;
    }
    if n > 0x7fff_ffff {
        return i32::MAX;
    }
    n as i32
}

/// The whole number that is given, or the nearest one of 32 bits.
pub fn whole(given: &Given<'_>) -> Option<i32>
    ensures { result ≡ whole_given (given_bytes given.now) }
{
    Some(saturated(whole_number(word(given)?)?))
}

/// Whether `true` or `false` is given.
pub fn truth(given: &Given<'_>) -> Option<bool>
    ensures { result ≡ truth_given (given_bytes given.now) }
{
    let word = word(given)?;
    if is_word(word, b"true") {
        return Some(true);
    }
    if is_word(word, b"false") {
        return Some(false);
    }
    None
}

fn of_whole(n: i128) -> Decimal
    ensures { result ≡ of_whole_lem n }
{
    Decimal {
        negative: n < 0,
        mantissa: n.unsigned_abs(),
        scale: 0,
    }
}

/// The number that a word spells.
fn number(word: &[u8]) -> Option<Decimal>
    ensures { result ≡ decimal_in_word word.now }
{
    match whole_number(word) {
        Some(n) => Some(of_whole(n)),
        None => decimal_number(word),
    }
}

/// The coordinate with this absolute value in the unit of so many decimal places, on one side of 0.
fn signed(negative: bool, n: u128, places: u128) -> Coordinate
    ensures { result ≡ signed_lem negative n places }
{
    if n > FARTHEST as u128 || places > MOST_PLACES as u128 {
        return Coordinate::OffGrid;
    }
    let units = n as i32;
    Coordinate::At {
        units: if negative { -units } else { units },
        places: places as u8,
    }
}

/// The coordinate of a number times a power of ten.
fn raised(negative: bool, mantissa: u128, power: u128) -> Coordinate
    requires { 1 ≤ mantissa }
    ensures { result ≡ signed_lem negative (mantissa * 10 ^ power) 0 }
{
    if mantissa > FARTHEST as u128 {
        return Coordinate::OffGrid;
    }
    if power > MOST_PLACES as u128 {
        return Coordinate::OffGrid;
    }
    signed(negative, mantissa * 10u128.pow(power as u32), 0)
}

/// The coordinate of a number divided by a power of ten.
fn lowered(negative: bool, mantissa: u128, power: u128) -> Coordinate
    ensures { result ≡ lowered_lem negative mantissa power }
{
    let mut left = mantissa;
    let mut places = power;
    while places > 0 && left % 10 == 0 {
        left /= 10;
        places -= 1;
    }
    signed(negative, left, places)
}

#[tactic(auto, using(crate::proofs::FarNumbers::zero_scaled, crate::proofs::FarNumbers::lowered_scaled, crate::proofs::FarNumbers::raised_scaled))]
fn coordinate_at(d: Decimal) -> Coordinate
    ensures { result ≡ coordinate_of d }
{
    // 0 has as many zeros at its end as one likes
    if d.mantissa == 0 {
        return Coordinate::At {
            units: 0,
            places: 0,
        };
    }
    let power = d.scale.unsigned_abs();
    if d.scale < 0 {
        return lowered(d.negative, d.mantissa, power);
    }
    raised(d.negative, d.mantissa, power)
}

/// The coordinate that is given.
pub fn place(given: &Given<'_>) -> Option<Coordinate>
    ensures { result ≡ coordinate_given (given_bytes given.now) }
{
    Some(coordinate_at(number(word(given)?)?))
}
