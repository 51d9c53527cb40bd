//! What the numbers of a call ask for.

ghost use Rattle.std.specs.Prelude.{◌≡◌, ◌≢◌, IfSome};
ghost use Rattle.doomsight_c.specs.Asked.{budget_fault as budget_wrong, call_fault as call_wrong, format_of as format_meant, method_of as method_meant, reading_fault as reading_wrong, reading_of as reading_meant};

use crate::fault::{DoomsightFault, wide};
use sight_names::{Ask, MapFormat, Method, Reading};

/// What stands in the place of a budget where every pair is to be decided: the greatest number but one.
const EXACT: u64 = u64::MAX - 1;

fn format_of(format: u32) -> MapFormat
    ensures { result ≡ format_meant format }
{
    match format {
        1 => MapFormat::Hexen,
        2 => MapFormat::Text,
        _ => MapFormat::Doom,
    }
}

/// How the lumps are read.
pub fn reading_of(format: u32, flags: u32) -> Reading
    ensures { result ≡ reading_meant format flags }
{
    Reading {
        format: format_of(format),
        large: flags == 1,
    }
}

/// The method of a number: 0 is a budget that is enough, the greatest number none, and the one before it decides every pair.
pub fn method_of(budget: u64) -> Method
    ensures { result ≡ method_meant budget }
{
    if budget == 0 {
        return Method::Within(Ask::Enough);
    }
    if budget == u64::MAX {
        return Method::Within(Ask::Full);
    }
    if budget == EXACT {
        return Method::Exact;
    }
    Method::Within(Ask::Of(budget))
}

/// The first number that doesn't tell how lumps are read.
pub fn reading_fault(format: u32, flags: u32) -> Option<DoomsightFault>
    ensures is { result ≡ reading_wrong format flags }
    ensures code { IfSome result (λ f. f.code ≢ 0) }
{
    if format > 2 {
        return Some(wide(2, 12, u64::from(format), 0));
    }
    if flags > 1 {
        return Some(wide(2, 13, u64::from(flags), 0));
    }
    None
}

fn budget_fault(budget: u64) -> Option<DoomsightFault>
    ensures is { result ≡ budget_wrong budget }
    ensures code { IfSome result (λ f. f.code ≢ 0) }
{
    if budget >= EXACT {
        return None;
    }
    if budget > 4_294_967_296 {
        return Some(wide(2, 14, budget, 0));
    }
    None
}

/// The first number that isn't in order.
pub fn call_fault(format: u32, flags: u32, budget: u64) -> Option<DoomsightFault>
    ensures is { result ≡ call_wrong format flags budget }
    ensures code { IfSome result (λ f. f.code ≢ 0) }
{
    if format > 2 {
        return Some(wide(2, 12, u64::from(format), 0));
    }
    if flags > 1 {
        return Some(wide(2, 13, u64::from(flags), 0));
    }
    budget_fault(budget)
}
