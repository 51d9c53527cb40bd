//! Numbers with a point or an exponent.

ghost use Rattle.std.specs.Prelude.{◌≡◌, ◌<◌, ◌≤◌, ◌^◌, ◌-◌, IfSome, length, neg_ℤ, pos, ◌≤ℤ◌, ◌<ℤ◌};
ghost use Rattle.udmf_text.specs.TextNumbers.Decimal.{negated_decimal as minus_of, run_value, run_rest, exponent_of, scaled_by_exponent, pointed_of, behind_digits, unsigned_decimal, decimal_of};

use crate::text_numbers::digits::{digit, digits_in};
use crate::text_numbers::whole::{negative, positive};

/// A whole number times a power of ten: that of `scale`, which may be below 0.
#[derive(Clone, Copy)]
pub struct Decimal {
    pub negative: bool,
    pub mantissa: u128,
    pub scale: i128,
}

/// Digits at the front: the number that they spell behind another, and what is left.
#[derive(Clone, Copy)]
struct Run<'a> {
    value: u128,
    rest: &'a [u8],
}

/// The decimal digits at the front, behind a number.
fn read_run(first: u128, text: &[u8]) -> Run<'_>
    requires short { length text.now ≤ 30 }
    requires small { first < 16 ^ (30 - length text.now) }
    ensures value { result.value ≡ run_value first text.now }
    ensures rest { result.rest.now ≡ run_rest text.now }
    ensures shorter { length result.rest.now ≤ length text.now }
    ensures within { result.value < 16 ^ (30 - length result.rest.now) }
{
    let mut value = first;
    let mut rest = text;
    while let [byte, more @ ..] = rest {
        let digit = u128::from(digit(*byte));
        if digit >= 10 {
            return Run { value, rest };
        }
        value = 10 * value + digit;
        rest = more;
    }
    Run { value, rest }
}

/// The exponent that these bytes spell.
fn exponent(word: &[u8]) -> Option<i128>
    requires short { length word.now ≤ 30 }
    ensures value { result ≡ exponent_of word.now }
    ensures low { IfSome result (λ e. neg_ℤ (pos (2 ^ 121)) ≤ℤ e) }
    ensures high { IfSome result (λ e. e <ℤ pos (2 ^ 121)) }
{
    match word {
        [b'-', digits @ ..] => Some(negative(digits_in(10, digits)?)),
        [b'+', digits @ ..] => Some(positive(digits_in(10, digits)?)),
        _ => Some(positive(digits_in(10, word)?)),
    }
}

/// A mantissa of which so many digits stand behind a point, with what stands behind it.
fn with_exponent(pointed: bool, mantissa: u128, behind: usize, rest: &[u8]) -> Option<Decimal>
    requires short { length rest.now ≤ 30 }
    requires few { behind ≤ 30 }
    ensures { result ≡ scaled_by_exponent pointed mantissa behind rest.now }
{
    match rest {
        [] => {
            if !pointed {
                return None;
            }
            Some(Decimal {
                negative: false,
                mantissa,
                scale: -(behind as i128),
            })
        }
        [b'e' | b'E', more @ ..] => Some(Decimal {
            negative: false,
            mantissa,
            scale: exponent(more)? - behind as i128,
        }),
        _ => None,
    }
}

/// The number behind a point, before which so many digits spell a mantissa.
fn behind_point(before: usize, mantissa: u128, text: &[u8]) -> Option<Decimal>
    requires short { length text.now ≤ 30 }
    requires few { before ≤ 30 }
    requires small { mantissa < 16 ^ (30 - length text.now) }
    ensures { result ≡ pointed_of before mantissa text.now }
{
    let run = read_run(mantissa, text);
    let behind = text.len() - run.rest.len();
    if before + behind == 0 {
        return None;
    }
    with_exponent(true, run.value, behind, run.rest)
}

/// What digits, so many, spell with what stands behind them.
fn behind_run(before: usize, mantissa: u128, rest: &[u8]) -> Option<Decimal>
    requires short { length rest.now ≤ 30 }
    requires few { before ≤ 30 }
    requires small { mantissa < 16 ^ (30 - length rest.now) }
    ensures { result ≡ behind_digits before mantissa rest.now }
{
    match rest {
        [] => None,
        [b'.', more @ ..] => behind_point(before, mantissa, more),
        _ => {
            if before == 0 {
                return None;
            }
            with_exponent(false, mantissa, 0, rest)
        }
    }
}

/// The number that a word without a sign spells.
fn unsigned(word: &[u8]) -> Option<Decimal>
    requires short { length word.now ≤ 30 }
    ensures { result ≡ unsigned_decimal word.now }
{
    let run = read_run(0, word);
    behind_run(word.len() - run.rest.len(), run.value, run.rest)
}

fn minus(d: Decimal) -> Decimal
    ensures { result ≡ minus_of d }
{
    Decimal {
        negative: true,
        ..d
    }
}

/// The number with a point or an exponent that a word spells, None where it spells none.
pub fn decimal_number(word: &[u8]) -> Option<Decimal>
    ensures { result ≡ decimal_of word.now }
{
    if word.len() > 30 {
        return None;
    }
    match word {
        [b'-', more @ ..] => Some(minus(unsigned(more)?)),
        [b'+', more @ ..] => unsigned(more),
        _ => unsigned(word),
    }
}
