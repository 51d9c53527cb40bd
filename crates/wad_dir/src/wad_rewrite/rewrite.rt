//! A WAD written anew.

ghost use Rattle.std.specs.Prelude.{◌≡◌, ◌+◌, ◌*◌, ◌≤◌, ◌^◌, ◌<◌, nat_le, ◌++◌, length, map, vec_len, IfOk, OnOk, All};
ghost use Rattle.std.specs.Option.{ForSome};
ghost use Rattle.std.specs.Int.{w32, to_le_bytes};
ghost use Rattle.wad_dir.specs.Wad.{file_of, lump_under, wad_magic};
ghost use Rattle.wad_dir.specs.Print.{body, directory_from, lumps_with_reject, printed_len, reject_lump, with_reject};
ghost use Rattle.wad_dir.specs.WadRewrite.Rewrite.{WritesWad, printed};
ghost use Rattle.wad_dir.specs.WadRewrite.Lumps.{view, views};

use crate::wad_rewrite::lumps::OutputLump;
use crate::{Entry, Kind, MapSpot, Wad};
use sight_names::{MOST_LUMPS, RewriteFault};
use std::alloc::{AllocError, Global};

const HEADER: u64 = 12;

const ENTRY: u64 = 16;

const MAX_LEN: u64 = 1 << 31;

const REJECT_NAME: [u8; 8] = *b"REJECT\0\0";

fn lump_of<'a>(bytes: &'a [u8], entry: &Entry) -> OutputLump<'a>
    requires { entry.now.at + entry.now.size ≤ length bytes.now }
    ensures { view result ≡ lump_under bytes.now entry.now }
{
    OutputLump {
        name: entry.name,
        bytes: crate::lump(bytes, entry),
    }
}

/// The lumps of these entries, in order.
pub fn lumps_of<'a>(
    alloc: Global,
    bytes: &'a [u8],
    entries: &[Entry],
) -> Result<Vec<OutputLump<'a>>, AllocError>
    requires { All (λ entry. entry.at + entry.size ≤ length bytes.now) entries.now }
    ensures { IfOk result (λ lumps. views lumps.items ≡ map (lump_under bytes.now) entries.now) }
{
    let mut lumps = Vec::with_capacity(alloc, entries.len() + 1)?;
    for entry in entries {
        lumps.push(lump_of(bytes, entry))?;
    }
    Ok(lumps)
}

/// A REJECT of these bytes.
pub fn reject_lump<'a>(table: &'a [u8]) -> OutputLump<'a>
    ensures { view result ≡ reject_lump table.now }
{
    OutputLump {
        name: REJECT_NAME,
        bytes: table,
    }
}

fn replace_reject<'a>(
    lumps: &mut Vec<OutputLump<'a>>,
    spot: &MapSpot,
    table: &'a [u8],
) -> Result<(), AllocError>
    requires sectors { spot.now.sectors < vec_len lumps.old }
    requires reject { ForSome spot.now.reject (λ k. k < vec_len lumps.old) }
    ensures { OnOk result (views lumps.new.items ≡ lumps_with_reject (views lumps.old.items) spot.now table.now) }
{
    let behind = spot.sectors as usize + 1;
    match spot.reject {
        Some(place) => lumps[place as usize].bytes = table,
        None => {
            lumps.insert(behind, reject_lump(table))?;
        }
    }
    Ok(())
}

fn len_of(lumps: &[OutputLump]) -> u64
    requires { length lumps.now ≤ MOST_LUMPS }
    ensures within { nat_le (2 ^ 31) result ≡ nat_le (2 ^ 31) (printed_len (views lumps.now)) }
    ensures len { result < 2 ^ 31 → result ≡ printed_len (views lumps.now) }
{
    let mut len = HEADER + ENTRY * lumps.len() as u64;
    for lump in lumps {
        if len >= MAX_LEN {
            return len;
        }
        len += lump.bytes.len() as u64;
    }
    len
}

fn push_word(out: &mut Vec<u8>, word: u32) -> Result<(), AllocError>
    ensures { OnOk result (out.new.items ≡ out.old.items ++ to_le_bytes w32 word) }
{
    out.extend_from_slice(&word.to_le_bytes())
}

fn push_directory(out: &mut Vec<u8>, lumps: &[OutputLump]) -> Result<(), AllocError>
    requires { printed_len (views lumps.now) < 2 ^ 31 }
    ensures { OnOk result (out.new.items ≡ out.old.items ++ directory_from 12 (views lumps.now)) }
{
    let mut at = 12u32;
    for lump in lumps {
        push_word(out, at)?;
        let len = lump.bytes.len() as u32;
        push_word(out, len)?;
        out.extend_from_slice(&lump.name)?;
        at += len;
    }
    Ok(())
}

fn push_bodies(out: &mut Vec<u8>, lumps: &[OutputLump]) -> Result<(), AllocError>
    ensures { OnOk result (out.new.items ≡ out.old.items ++ body (views lumps.now)) }
{
    for lump in lumps {
        out.extend_from_slice(lump.bytes)?;
    }
    Ok(())
}

fn magic(kind: Kind) -> &'static [u8]
    ensures { result.now ≡ wad_magic kind }
{
    match kind {
        Kind::Iwad => b"IWAD",
        Kind::Pwad => b"PWAD",
    }
}

/// These lumps as a WAD: the header, their bytes in order from byte 12 on, then the directory. Lumps that share
/// bytes are written apart. `TooManyLumps` and `TooLong` are answered before any memory is taken.
#[tactic(auto, unfolding(crate::specs::WadRewrite::Rewrite::printed, crate::specs::Print::print))]
pub fn write_wad(alloc: Global, kind: Kind, lumps: &[OutputLump]) -> Result<Vec<u8>, RewriteFault>
    ensures { WritesWad (λ v. v.items) result (printed (record { kind = kind; lumps = views lumps.now })) }
{
    if lumps.len() > MOST_LUMPS as usize {
        return Err(RewriteFault::TooManyLumps);
    }
    let len = len_of(lumps);
    if len >= MAX_LEN {
        return Err(RewriteFault::TooLong);
    }
    let count = lumps.len() as u32;
    let directory = len as u32 - 16 * count;
    let mut out = Vec::with_capacity(alloc, len as usize)?;
    out.extend_from_slice(magic(kind))?;
    push_word(&mut out, count)?;
    push_word(&mut out, directory)?;
    push_bodies(&mut out, lumps)?;
    push_directory(&mut out, lumps)?;
    Ok(out)
}

/// The WAD with this table in place of the map's REJECT, or, where the map has none, as a new entry right behind
/// its SECTORS. Every other name and lump stays, in order, and so does the kind.
pub fn with_reject(
    alloc: Global,
    bytes: &[u8],
    wad: &Wad,
    spot: &MapSpot,
    table: &[u8],
) -> Result<Vec<u8>, RewriteFault>
    requires inside { All (λ entry. entry.at + entry.size ≤ length bytes.now) wad.now.entries }
    requires sectors { spot.now.sectors < length wad.now.entries }
    requires reject { ForSome spot.now.reject (λ k. k < length wad.now.entries) }
    ensures { WritesWad (λ v. v.items) result (printed (with_reject (file_of bytes.now wad.now) spot.now table.now)) }
{
    let mut lumps = lumps_of(alloc, bytes, wad.entries.as_slice())?;
    replace_reject(&mut lumps, spot, table)?;
    write_wad(alloc, wad.kind, &lumps)
}
