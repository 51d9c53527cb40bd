//! Every map of a WAD, and other REJECTs for some of them.

ghost use Rattle.std.specs.Prelude.{◌≡◌, ◌+◌, ◌≤◌, length, All, IfOk};
ghost use Rattle.wad_dir.specs.Map.{entry_names};
ghost use Rattle.wad_dir.specs.AllMaps.All.{HasInOrder, names_changed};
ghost use Rattle.wad_dir.specs.AllMaps.Maps.{maps_in_names};

use sight_names::{Items, RewriteFault};
use std::alloc::{AllocError, Global};
use std::test::Fail;
use wad_dir::all_maps::{Change, maps, with_rejects};
use wad_dir::{Wad, read_wad};
use worked_maps::files::{bytes_of, bytes_of_digits};
use worked_maps::rows::part;

/// The words of a WAD, the names of its maps, some of these with `=` and the bytes of another REJECT, and the words of the WAD that comes of it.
const ROWS: &str = "\
# three maps: a table in place of one that is there, of an empty one, and right behind SECTORS
SQUARE .0 - +0:E1M1 PAIR =0a .6 - +6:MAP07 U - | E1M1 MAP07 MAP01 | E1M1=01 MAP07=06 MAP01=4400 | SQUARE =01 .0 - +0:E1M1 PAIR =06 .6 - +6:MAP07 U =4400
# of the one in the middle alone, and of none
SQUARE .0 - +0:E1M1 PAIR =0a .6 - +6:MAP07 U - | E1M1 MAP07 MAP01 | MAP07=06 | SQUARE .0 - +0:E1M1 PAIR =06 .6 - +6:MAP07 U -
SQUARE .0 - +0:E1M1 PAIR =0a .6 - +6:MAP07 U - | E1M1 MAP07 MAP01 | | SQUARE .0 - +0:E1M1 PAIR =0a .6 - +6:MAP07 U -
# other lumps before, between and behind the maps, of an IWAD; a new REJECT comes before the lumps that stand behind SECTORS
PAIR - .0 - +0:map07 +0:D =07 U +6:BLOCKMAP =0102 +13:E *3 @0:1:49 | MAP07 MAP01 | MAP07=06 MAP01=4400 | PAIR =06 .0 - +0:map07 +0:D =07 U =4400 +7:BLOCKMAP =0102 +14:E *3 @0:1:49
# of two maps of one name the last, and none where its lumps aren't all there
SQUARE U | MAP01 | MAP01=4400 | SQUARE U =4400
SQUARE .0 - +0:E1M1 U .7 - | E1M1 | E1M1=01 | SQUARE =01 .0 - +0:E1M1 U .7 -
";

// The digits that a row gives the name.
fn digits_for<'a>(given: &'a str, name: &str) -> Option<&'a str> {
    for word in given.split_whitespace() {
        if let Some((other, digits)) = word.split_once('=') {
            if other == name {
                return Some(digits);
            }
        }
    }
    None
}

fn text_of(name: &[u8; 8]) -> &str {
    str::from_utf8(name).unwrap_or("").trim_end_matches('\0')
}

// The changes that a row gives, in the order of the maps.
fn changes_of(alloc: Global, maps: &[[u8; 8]], given: &str) -> Result<Vec<Change>, AllocError>
    ensures { IfOk result (λ v. HasInOrder maps.now (names_changed v.items)) }
{
    let [name, rest @ ..] = maps else {
        return Ok(Vec::new(alloc));
    };
    let mut changes = changes_of(alloc, rest, given)?;
    if let Some(digits) = digits_for(given, text_of(name)) {
        let table = Items::of(bytes_of_digits(alloc, digits)?);
        changes.insert(0, Change { name: *name, table })?;
    }
    Ok(changes)
}

// The names of maps, each with a blank behind it.
fn told(alloc: Global, names: &[[u8; 8]]) -> Result<String, AllocError> {
    let mut text = String::new(alloc);
    for name in names {
        text.push_str(text_of(name))?;
        text.push_str(" ")?;
    }
    Ok(text)
}

// The WAD with the changes that a row gives.
fn rewritten(
    alloc: Global,
    bytes: &[u8],
    wad: &Wad,
    names: &[[u8; 8]],
    given: &str,
) -> Result<Vec<u8>, RewriteFault>
    requires inside { All (λ entry. entry.at + entry.size ≤ length bytes.now) wad.now.entries }
    requires names { names.now ≡ maps_in_names (entry_names wad.now.entries) }
{
    let changes = changes_of(alloc, names, given)?;
    with_rejects(alloc, bytes, wad, changes.as_slice())
}

// Whether the maps of a WAD have these names, each behind a blank.
fn are_named(alloc: Global, names: &[[u8; 8]], wanted: &str) -> Result<bool, AllocError> {
    let text = told(alloc, names)?;
    Ok(text.as_str().trim() == wanted)
}

// Whether these are the bytes that the words make.
fn are_bytes_of(alloc: Global, bytes: &[u8], words: &str) -> Result<bool, AllocError> {
    let wanted = bytes_of(alloc, words)?;
    Ok(wanted.as_slice() == bytes)
}

// Whether all is as a row says.
fn is_right(alloc: Global, row: &str) -> Result<bool, Fail> {
    let bytes = bytes_of(alloc, part(row, 0))?;
    let Ok(wad) = read_wad(alloc, &bytes) else {
        return Err("no WAD is read".into());
    };
    let names = maps(alloc, &wad)?;
    let made = rewritten(alloc, &bytes, &wad, names.as_slice(), part(row, 2))?;
    Ok(
        are_named(alloc, names.as_slice(), part(row, 1))?
            && are_bytes_of(alloc, &made, part(row, 3))?,
    )
}

#[test]
fn each_map_is_named_and_a_new_reject_lands_with_its_map(rt: HostRuntime) -> Result<(), Fail> {
    for row in ROWS.lines() {
        if !row.starts_with('#') && !is_right(rt.alloc(), row)? {
            return Err(row.into());
        }
    }
    Ok(())
}
