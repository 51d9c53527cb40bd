//! The place of a map in a directory.

ghost use Rattle.std.specs.Prelude.{◌≡◌, ◌+◌, ◌≤◌, ◌<◌, [], length, take, IfOk, IfSome, None, not, ◌&&◌, codes};
ghost use Rattle.wad_dir.specs.Map.{begins_with_name, belongs, ends_text_map, same_name, stands_once, last_from, run_from, is_run_name, has_name, place_in_run, needed_in, format_behind, spot_in, spot_behind, spot_of, lump_name, entry_names};

use crate::parts::{Entry, MapSpot, Wad};
use sight_names::{Lump, MOST_LUMPS, MapFault, MapFormat};

/// Whether two names are the same: up to their first NUL, in upper or in lower case.
pub fn is_same_name(a: &[u8], b: &[u8]) -> bool
    ensures { result ≡ same_name a.now b.now }
{
    let mut rest = b;
    for x in a {
        if *x == 0 {
            return ends(rest);
        }
        match rest {
            [y, more @ ..] if *y != 0 && y.to_ascii_uppercase() == x.to_ascii_uppercase() => {
                rest = more;
            }
            _ => return false,
        }
    }
    ends(rest)
}

fn ends(name: &[u8]) -> bool
    ensures { result ≡ same_name [] name.now }
{
    match name {
        [] => true,
        [c, ..] => *c == 0,
    }
}

fn last_named(entries: &[Entry], name: &[u8]) -> Option<usize>
    ensures place { result ≡ last_from (entry_names entries.now) name.now 0 None }
    ensures within { IfSome result (λ k. k < length entries.now) }
{
    let mut found = None;
    for (k, entry) in entries.iter().enumerate() {
        if is_same_name(&entry.name, name) {
            found = Some(k);
        }
    }
    found
}

/// Whether this is the name of one of a map's own lumps.
pub fn is_map_lump(name: &[u8]) -> bool
    ensures { result ≡ is_run_name name.now }
{
    is_same_name(name, b"THINGS")
        || is_same_name(name, b"LINEDEFS")
        || is_same_name(name, b"SIDEDEFS")
        || is_same_name(name, b"VERTEXES")
        || is_same_name(name, b"SEGS")
        || is_same_name(name, b"SSECTORS")
        || is_same_name(name, b"NODES")
        || is_same_name(name, b"SECTORS")
        || is_same_name(name, b"REJECT")
        || is_same_name(name, b"BLOCKMAP")
}

fn has_named(entries: &[Entry], name: &[u8]) -> bool
    ensures { result ≡ has_name name.now (entry_names entries.now) }
{
    for entry in entries {
        if is_same_name(&entry.name, name) {
            return true;
        }
    }
    false
}

/// Whether the lumps of a map of UDMF end before an entry of this name.
fn ends_text(name: &[u8]) -> bool
    ensures { result ≡ ends_text_map name.now }
{
    is_same_name(name, b"ENDMAP")
        || is_same_name(name, b"THINGS")
        || is_same_name(name, b"LINEDEFS")
        || is_same_name(name, b"SIDEDEFS")
        || is_same_name(name, b"VERTEXES")
        || is_same_name(name, b"SEGS")
        || is_same_name(name, b"SSECTORS")
        || is_same_name(name, b"NODES")
        || is_same_name(name, b"SECTORS")
}

fn stands_once(name: &[u8]) -> bool
    ensures { result ≡ stands_once name.now }
{
    is_same_name(name, b"TEXTMAP") || is_same_name(name, b"REJECT")
}

/// Whether an entry of this name behind those before it belongs to the run of a map, which is of UDMF or not.
fn belongs(text: bool, name: &[u8], before: &[Entry]) -> bool
    ensures { result ≡ belongs text name.now (entry_names before.now) }
{
    if text {
        return !ends_text(name) && !(stands_once(name) && has_named(before, name));
    }
    is_map_lump(name) && !has_named(before, name)
}

#[tactic(auto, using(crate::proofs::Names::names))]
fn run_at_front(text: bool, entries: &[Entry]) -> usize
    ensures run { entry_names (take result entries.now) ≡ run_from text [] (entry_names entries.now) }
    ensures len { result ≡ length (run_from text [] (entry_names entries.now)) }
    ensures within { result ≤ length entries.now }
{
    for (k, entry) in entries.iter().enumerate() {
        if !belongs(text, &entry.name, &entries[..k]) {
            return k;
        }
    }
    entries.len()
}

/// Whether the first of these entries has this name.
fn begins_with(name: &[u8], entries: &[Entry]) -> bool
    ensures { result ≡ begins_with_name name.now (entry_names entries.now) }
{
    match entries {
        [] => false,
        [entry, ..] => is_same_name(&entry.name, name),
    }
}

fn place_of(run: &[Entry], name: &[u8]) -> Option<usize>
    ensures place { result ≡ place_in_run name.now (entry_names run.now) }
    ensures within { IfSome result (λ k. k < length run.now) }
{
    for (k, entry) in run.iter().enumerate() {
        if is_same_name(&entry.name, name) {
            return Some(k);
        }
    }
    None
}

fn bytes_of_name(text: bool, lump: Lump) -> &'static [u8]
    ensures { result.now ≡ lump_name text lump }
{
    if text {
        return b"TEXTMAP";
    }
    match lump {
        Lump::Linedefs => b"LINEDEFS",
        Lump::Sidedefs => b"SIDEDEFS",
        Lump::Vertexes => b"VERTEXES",
        Lump::Sectors => b"SECTORS",
    }
}

fn needed(text: bool, run: &[Entry], lump: Lump) -> Result<usize, MapFault>
    ensures place { result ≡ needed_in text (entry_names run.now) lump }
    ensures within { IfOk result (λ k. k < length run.now) }
{
    match place_of(run, bytes_of_name(text, lump)) {
        Some(place) => Ok(place),
        None => Err(MapFault::Missing { lump }),
    }
}

/// The format of a map behind whose lumps these entries follow.
fn format_by(rest: &[Entry]) -> MapFormat
    ensures { result ≡ format_behind (entry_names rest.now) }
{
    match rest {
        [entry, ..] if is_same_name(&entry.name, b"BEHAVIOR") => MapFormat::Hexen,
        _ => MapFormat::Doom,
    }
}

#[tactic(auto, unfolding(crate::specs::Map::spot_in))]
fn spot(marker: usize, text: bool, format: MapFormat, run: &[Entry]) -> Result<MapSpot, MapFault>
    requires { marker + 1 + length run.now ≤ MOST_LUMPS }
    ensures spot { result ≡ spot_in marker text format (entry_names run.now) }
    ensures linedefs { IfOk result (λ spot. spot.linedefs ≤ marker + length run.now) }
    ensures sidedefs { IfOk result (λ spot. spot.sidedefs ≤ marker + length run.now) }
    ensures vertexes { IfOk result (λ spot. spot.vertexes ≤ marker + length run.now) }
    ensures sectors { IfOk result (λ spot. spot.sectors ≤ marker + length run.now) }
    ensures reject { IfOk result (λ spot. IfSome spot.reject (λ k. k ≤ marker + length run.now)) }
{
    let linedefs = needed(text, run, Lump::Linedefs)?;
    let sidedefs = needed(text, run, Lump::Sidedefs)?;
    let vertexes = needed(text, run, Lump::Vertexes)?;
    let sectors = needed(text, run, Lump::Sectors)?;
    let first = marker + 1;
    let reject = match place_of(run, b"REJECT") {
        Some(place) => Some((first + place) as u32),
        None => None,
    };
    Ok(MapSpot {
        marker: marker as u32,
        linedefs: (first + linedefs) as u32,
        sidedefs: (first + sidedefs) as u32,
        vertexes: (first + vertexes) as u32,
        sectors: (first + sectors) as u32,
        reject,
        format: if text { MapFormat::Text } else { format },
        text,
    })
}

/// Whether a map behind whose lumps these entries follow is of UDMF, and ENDMAP doesn't stand there.
fn lacks_end(text: bool, rest: &[Entry]) -> bool
    ensures { result ≡ (text && not (begins_with_name (codes "ENDMAP") (entry_names rest.now))) }
{
    text && !begins_with(b"ENDMAP", rest)
}

/// Where the lumps of a map stand behind whose marker these entries follow, or the first that is missing. A map of UDMF needs
/// ENDMAP right behind them.
pub fn spot_after(marker: usize, after: &[Entry]) -> Result<MapSpot, MapFault>
    requires { marker + 1 + length after.now ≤ MOST_LUMPS }
    ensures spot { result ≡ spot_behind marker (entry_names after.now) }
    ensures linedefs { IfOk result (λ spot. spot.linedefs ≤ marker + length after.now) }
    ensures sidedefs { IfOk result (λ spot. spot.sidedefs ≤ marker + length after.now) }
    ensures vertexes { IfOk result (λ spot. spot.vertexes ≤ marker + length after.now) }
    ensures sectors { IfOk result (λ spot. spot.sectors ≤ marker + length after.now) }
    ensures reject { IfOk result (λ spot. IfSome spot.reject (λ k. k ≤ marker + length after.now)) }
{
    let text = begins_with(b"TEXTMAP", after);
    let (run, rest) = after.split_at(run_at_front(text, after));
    if lacks_end(text, rest) {
        return Err(MapFault::NoEnd);
    }
    spot(marker, text, format_by(rest), run)
}

/// Where the lumps of the last map of that name stand, or the first check that fails.
#[tactic(auto, unfolding(crate::specs::Map::spot_of))]
pub fn find_map(wad: &Wad, name: &str) -> Result<MapSpot, MapFault>
    ensures spot { result ≡ spot_of (entry_names wad.now.entries) name.now }
    ensures linedefs { IfOk result (λ spot. spot.linedefs < length wad.now.entries) }
    ensures sidedefs { IfOk result (λ spot. spot.sidedefs < length wad.now.entries) }
    ensures vertexes { IfOk result (λ spot. spot.vertexes < length wad.now.entries) }
    ensures sectors { IfOk result (λ spot. spot.sectors < length wad.now.entries) }
    ensures reject { IfOk result (λ spot. IfSome spot.reject (λ k. k < length wad.now.entries)) }
{
    let entries = wad.entries.as_slice();
    let Some(marker) = last_named(entries, name.as_bytes()) else {
        return Err(MapFault::NoMarker);
    };
    let (_, after) = entries.split_at(marker + 1);
    spot_after(marker, after)
}
