//! Numbers in map units, where points are told in units of the last of so many decimal places.

ghost use Rattle.std.specs.Prelude.{◌≡◌, ◌++◌, OnOk, unsigned_abs};
ghost use Rattle.map_picture.specs.Bytes.{cut_off as the_cut_off, digits_text, parted_text, shortest as the_shortest, sign_text, short_text, units_of};

use crate::words::{push_number, push_text};
use std::alloc::AllocError;

/// So many of the last of some decimal places.
#[derive(Clone, Copy)]
pub struct Short {
    pub count: u64,
    pub places: u8,
}

/// The same number by as few places as tell it.
#[tactic(auto, unfolding(crate::specs::Bytes::shortest))]
fn shortest(places: u8, n: u64) -> Short
    ensures { result ≡ the_shortest places n }
{
    let mut count = n;
    let mut left = places;
    while left > 0 && count % 10 == 0 {
        count /= 10;
        left -= 1;
    }
    Short {
        count,
        places: left,
    }
}

/// The number without so many of its last digits.
#[tactic(auto, unfolding(crate::specs::Bytes::cut_off))]
fn cut_off(places: u8, n: u64) -> u64
    ensures { result ≡ the_cut_off places n }
{
    let mut count = n;
    let mut left = places;
    while left > 0 {
        count /= 10;
        left -= 1;
    }
    count
}

/// Its last digits, so many.
#[tactic(auto, unfolding(crate::specs::Bytes::digits_text))]
fn push_digits(out: &mut Vec<u8>, places: u8, n: u64) -> Result<(), AllocError>
    ensures { OnOk result (out.new.items ≡ out.old.items ++ digits_text places n) }
{
    let mut left = places;
    while left > 0 {
        left -= 1;
        push_number(out, cut_off(left, n) % 10)?;
    }
    Ok(())
}

#[tactic(auto, unfolding(crate::specs::Bytes::parted_text))]
fn push_parted(out: &mut Vec<u8>, places: u8, n: u64) -> Result<(), AllocError>
    ensures { OnOk result (out.new.items ≡ out.old.items ++ parted_text places n) }
{
    push_number(out, cut_off(places, n))?;
    push_text(out, ".")?;
    push_digits(out, places, n)
}

fn push_short(out: &mut Vec<u8>, short: Short) -> Result<(), AllocError>
    ensures { OnOk result (out.new.items ≡ out.old.items ++ short_text short) }
{
    if short.places == 0 {
        push_number(out, short.count)
    } else {
        push_parted(out, short.places, short.count)
    }
}

fn push_sign(out: &mut Vec<u8>, n: i32) -> Result<(), AllocError>
    ensures { OnOk result (out.new.items ≡ out.old.items ++ sign_text n) }
{
    if n < 0 { push_text(out, "-") } else { Ok(()) }
}

/// A number in map units, by as few decimal places as tell it.
#[tactic(auto, unfolding(crate::specs::Bytes::units_of))]
pub fn push_in_units(out: &mut Vec<u8>, places: u8, n: i32) -> Result<(), AllocError>
    ensures { OnOk result (out.new.items ≡ out.old.items ++ units_of places n) }
{
    push_sign(out, n)?;
    push_short(out, shortest(places, u64::from(n.unsigned_abs())))
}
