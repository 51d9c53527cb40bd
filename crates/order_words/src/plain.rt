//! Orders of words alone: verbs that take no option with a value.

ghost use Rattle.std.specs.Prelude.{◌≡◌, map, IfOk};
ghost use Rattle.order_words.specs.Words.{MakesOrder, check_of, need_of, ray_named, ray_order_of, sound_named, sound_of, sound_with, wad_source, trace_named, trace_of, zero_of};
ghost use Rattle.order_words.specs.Values.{upper};

use crate::order::{Order, Source, Text};
use crate::values::{may_name_file, may_name_map, pair, ray};
use row_spelling::Spelling;
use sight_names::OrderFault;
use std::alloc::{AllocError, Global};

/// This word.
pub fn text(alloc: Global, word: &str) -> Result<Text, AllocError>
    ensures { IfOk result (λ t. t ≡ word.now) }
{
    Ok(Text::of(String::from_str(alloc, word)?))
}

/// This word in upper case.
pub fn upper_text(alloc: Global, word: &str) -> Result<Text, AllocError>
    ensures { IfOk result (λ t. t ≡ upper word.now) }
{
    Ok(Text::of(word.to_ascii_uppercase(alloc)?))
}

/// The WAD of that name, read by the larger limits or by the usual ones.
pub fn source(alloc: Global, large: bool, wad: &str) -> Result<Source, AllocError>
    ensures { IfOk result (λ s. s ≡ wad_source large wad.now) }
{
    Ok(Source {
        file: text(alloc, wad)?,
        large,
    })
}

/// .. and a file.
pub fn wad_and_file(
    alloc: Global,
    large: bool,
    wad: &str,
    file: &str,
) -> Result<(Source, Text), AllocError>
    ensures wad { IfOk result (λ m. m.0 ≡ wad_source large wad.now) }
    ensures file { IfOk result (λ m. m.1 ≡ file.now) }
{
    let wad = source(alloc, large, wad)?;
    match text(alloc, file) {
        Ok(file) => Ok((wad, file)),
        Err(full) => Err(full),
    }
}

/// What an order names: a WAD, a map of it in upper case, and a file.
#[derive(Drop)]
pub struct Subject {
    pub wad: Source,
    pub map: Text,
    pub file: Text,
}

/// The WAD of that name, and that map of it.
pub fn map_in(
    alloc: Global,
    large: bool,
    wad: &str,
    name: &str,
) -> Result<(Source, Text), AllocError>
    ensures wad { IfOk result (λ m. m.0 ≡ wad_source large wad.now) }
    ensures map { IfOk result (λ m. m.1 ≡ upper name.now) }
{
    let wad = source(alloc, large, wad)?;
    match upper_text(alloc, name) {
        Ok(map) => Ok((wad, map)),
        Err(full) => Err(full),
    }
}

/// .. and a file. What an order names is made in one call, since each call that may fail is a way out of its function.
pub fn named(
    alloc: Global,
    large: bool,
    wad: &str,
    name: &str,
    file: &str,
) -> Result<Subject, AllocError>
    ensures wad { IfOk result (λ n. n.wad ≡ wad_source large wad.now) }
    ensures map { IfOk result (λ n. n.map ≡ upper name.now) }
    ensures file { IfOk result (λ n. n.file ≡ file.now) }
{
    let (wad, map) = map_in(alloc, large, wad, name)?;
    match text(alloc, file) {
        Ok(file) => Ok(Subject { wad, map, file }),
        Err(full) => Err(full),
    }
}

/// A table with every bit clear, of a map into a file.
pub fn zero(alloc: Global, large: bool, rest: &[&str]) -> Result<Order, OrderFault>
    ensures { MakesOrder (zero_of large (map (λ s. s.now) rest.now)) result }
{
    match rest {
        [wad, name, out] if may_name_file(wad) && may_name_map(name) && may_name_file(out) => {
            let named = named(alloc, large, wad, name, out)?;
            Ok(Order::Zero {
                wad: named.wad,
                map: named.map,
                out: named.file,
            })
        }
        _ => Err(OrderFault::Usage),
    }
}

fn sight_named(
    alloc: Global,
    large: bool,
    wad: &str,
    name: &str,
    word: &str,
) -> Result<Order, OrderFault>
    ensures { MakesOrder (ray_named large wad.now name.now word.now) result }
{
    match ray(word) {
        Some(ray) => {
            let (wad, map) = map_in(alloc, large, wad, name)?;
            Ok(Order::Ray { wad, map, ray })
        }
        None => Err(OrderFault::Usage),
    }
}

/// A ray of a map.
pub fn sight(alloc: Global, large: bool, rest: &[&str]) -> Result<Order, OrderFault>
    ensures { MakesOrder (ray_order_of large (map (λ s. s.now) rest.now)) result }
{
    match rest {
        [wad, name, word] if may_name_file(wad) && may_name_map(name) => {
            sight_named(alloc, large, wad, name, word)
        }
        _ => Err(OrderFault::Usage),
    }
}

fn trace_named(
    alloc: Global,
    large: bool,
    wad: &str,
    name: &str,
    word: &str,
) -> Result<Order, OrderFault>
    ensures { MakesOrder (trace_named large wad.now name.now word.now) result }
{
    match ray(word) {
        Some(ray) => {
            let (wad, map) = map_in(alloc, large, wad, name)?;
            Ok(Order::Trace { wad, map, ray })
        }
        None => Err(OrderFault::Usage),
    }
}

/// The way along a ray of a map.
pub fn trace(alloc: Global, large: bool, rest: &[&str]) -> Result<Order, OrderFault>
    ensures { MakesOrder (trace_of large (map (λ s. s.now) rest.now)) result }
{
    match rest {
        [wad, name, word] if may_name_file(wad) && may_name_map(name) => {
            trace_named(alloc, large, wad, name, word)
        }
        _ => Err(OrderFault::Usage),
    }
}

/// A map judged by a certificate, with a verdict in this spelling.
pub fn check(
    alloc: Global,
    large: bool,
    spelling: Spelling,
    rest: &[&str],
) -> Result<Order, OrderFault>
    ensures { MakesOrder (check_of large spelling (map (λ s. s.now) rest.now)) result }
{
    match rest {
        [wad, name, cert] if may_name_file(wad) && may_name_map(name) && may_name_file(cert) => {
            let named = named(alloc, large, wad, name, cert)?;
            Ok(Order::Check {
                wad: named.wad,
                map: named.map,
                cert: named.file,
                spelling,
            })
        }
        _ => Err(OrderFault::Usage),
    }
}

/// The budget that a map needs.
pub fn need(alloc: Global, large: bool, rest: &[&str]) -> Result<Order, OrderFault>
    ensures { MakesOrder (need_of large (map (λ s. s.now) rest.now)) result }
{
    match rest {
        [wad, name] if may_name_file(wad) && may_name_map(name) => {
            let (wad, map) = map_in(alloc, large, wad, name)?;
            Ok(Order::Need { wad, map })
        }
        _ => Err(OrderFault::Usage),
    }
}

fn sound_named(
    alloc: Global,
    large: bool,
    wad: &str,
    name: &str,
    first: &str,
    second: &str,
) -> Result<Order, OrderFault>
    ensures { MakesOrder (sound_named large wad.now name.now first.now second.now) result }
{
    match pair(first, second) {
        Some(pair) => {
            let (wad, map) = map_in(alloc, large, wad, name)?;
            Ok(Order::Sound {
                wad,
                map,
                pair: Some(pair),
            })
        }
        None => Err(OrderFault::Usage),
    }
}

/// With no sectors, or with two.
fn sound_with(
    alloc: Global,
    large: bool,
    wad: &str,
    name: &str,
    sectors: &[&str],
) -> Result<Order, OrderFault>
    ensures { MakesOrder (sound_with large wad.now name.now (map (λ s. s.now) sectors.now)) result }
{
    match sectors {
        [] => {
            let (wad, map) = map_in(alloc, large, wad, name)?;
            Ok(Order::Sound {
                wad,
                map,
                pair: None,
            })
        }
        [first, second] => sound_named(alloc, large, wad, name, first, second),
        _ => Err(OrderFault::Usage),
    }
}

/// The noise of a map, with no sectors or with two.
pub fn sound(alloc: Global, large: bool, rest: &[&str]) -> Result<Order, OrderFault>
    ensures { MakesOrder (sound_of large (map (λ s. s.now) rest.now)) result }
{
    match rest {
        [wad, name, sectors @ ..] if may_name_file(wad) && may_name_map(name) => {
            sound_with(alloc, large, wad, name, sectors)
        }
        _ => Err(OrderFault::Usage),
    }
}
