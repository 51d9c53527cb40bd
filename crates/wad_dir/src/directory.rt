//! Reading the directory of a WAD.

ghost use Rattle.std.specs.Prelude.{◌≡◌, ◌+◌, ◌*◌, ◌≤◌, ◌<◌, length, take, drop, map, vec_len, IfOk, IfSome, IfNone, All, IsTrue, not, IfSome};
ghost use Rattle.std.specs.List.{position_from};
ghost use Rattle.wad_dir.specs.Wad.{ReadsWad, directory_of, wad_of, file_of, directory_of_wad, names_of_lumps, word_at, entry_of, slot_at, slots_at, lies_within, wad_kind_of, entries_within};
ghost use Rattle.wad_dir.specs.Map.{entry_names};

use crate::parts::{Entry, Kind, Wad};
use sight_names::{Items, MOST_LUMPS, WadFault};
use std::alloc::{AllocError, Global};

const HEADER: usize = 12;

const ENTRY: usize = 16;

fn word(bytes: &[u8], at: usize) -> u32
    requires { at + 4 ≤ length bytes.now }
    ensures { result ≡ word_at bytes.now at }
{
    let four = &bytes[at..at + 4];
    u32::from_le_bytes([four[0], four[1], four[2], four[3]])
}

fn read_entry(bytes: &[u8], at: usize) -> Entry
    requires { at + 16 ≤ length bytes.now }
    ensures { result ≡ entry_of (slot_at bytes.now at) }
{
    let name = &bytes[at + 8..at + 16];
    let size = word(bytes, at + 4);
    Entry {
        name: [
            name[0], name[1], name[2], name[3], name[4], name[5], name[6], name[7],
        ],
        at: if size == 0 { 0 } else { word(bytes, at) },
        size,
    }
}

fn read_entries(
    alloc: Global,
    bytes: &[u8],
    at: usize,
    count: usize,
) -> Result<Vec<Entry>, AllocError>
    requires { at + 16 * count ≤ length bytes.now }
    ensures items { IfOk result (λ entries. entries.items ≡ map entry_of (slots_at bytes.now at count)) }
    ensures len { IfOk result (λ entries. vec_len entries ≡ count) }
{
    let mut entries = Vec::with_capacity(alloc, count)?;
    for i in 0..count {
        entries.push(read_entry(bytes, at + ENTRY * i))?;
    }
    Ok(entries)
}

fn lies_within_file(len: usize, entry: &Entry) -> bool
    ensures test { result ≡ lies_within len entry.now }
    ensures inside { IsTrue result → entry.now.at + entry.now.size ≤ len }
{
    entry.size < 1 << 31 && entry.at < 1 << 31 && entry.at as usize + entry.size as usize <= len
}

fn first_outside(len: usize, entries: &[Entry]) -> Option<usize>
    ensures place { result ≡ position_from (λ entry. not (lies_within len entry)) 0 entries.now }
    ensures within { IfSome result (λ k. k < length entries.now) }
    ensures inside { IfNone result (All (λ entry. entry.at + entry.size ≤ len) entries.now) }
{
    for (k, entry) in entries.iter().enumerate() {
        if !lies_within_file(len, entry) {
            return Some(k);
        }
    }
    None
}

#[tactic(auto, using(crate::proofs::Outside::position_outside))]
fn checked_entries(
    alloc: Global,
    bytes: &[u8],
    at: usize,
    count: usize,
) -> Result<Vec<Entry>, WadFault>
    requires small { count ≤ MOST_LUMPS }
    requires within { at + 16 * count ≤ length bytes.now }
    ensures few { IfOk result (λ entries. vec_len entries ≡ count) }
    ensures inside { IfOk result (λ entries. All (λ entry. entry.at + entry.size ≤ length bytes.now) entries.items) }
    ensures read { ReadsWad (λ entries. entries.items) result (entries_within (length bytes.now) (slots_at bytes.now at count)) }
{
    let entries = read_entries(alloc, bytes, at, count)?;
    match first_outside(bytes.len(), &entries) {
        Some(entry) => Err(WadFault::LumpOutside {
            entry: entry as u32,
        }),
        None => Ok(entries),
    }
}

fn read_kind(bytes: &[u8]) -> Option<Kind>
    requires { 4 ≤ length bytes.now }
    ensures { result ≡ wad_kind_of bytes.now }
{
    let first = &bytes[..4];
    if first == b"IWAD".as_slice() {
        Some(Kind::Iwad)
    } else if first == b"PWAD".as_slice() {
        Some(Kind::Pwad)
    } else {
        None
    }
}

#[tactic(auto, unfolding(crate::specs::Wad::directory_of, crate::specs::Wad::wad_fault))]
fn read_directory(alloc: Global, bytes: &[u8]) -> Result<Wad, WadFault>
    ensures inside { IfOk result (λ wad. All (λ entry. entry.at + entry.size ≤ length bytes.now) wad.entries) }
    ensures read { ReadsWad directory_of_wad result (directory_of bytes.now) }
{
    if bytes.len() < HEADER {
        return Err(WadFault::ShortHeader);
    }
    let Some(kind) = read_kind(bytes) else {
        return Err(WadFault::BadMagic);
    };
    let count = word(bytes, 4);
    let at = word(bytes, 8) as usize;
    if count >= 1 << 31 {
        return Err(WadFault::BadCount);
    }
    if count > MOST_LUMPS {
        return Err(WadFault::TooManyLumps);
    }
    let count = count as usize;
    if count == 0 {
        return Ok(Wad {
            kind,
            entries: Items::of(Vec::new(alloc)),
        });
    }
    if at >= 1 << 31 || bytes.len() < at + ENTRY * count {
        return Err(WadFault::DirectoryOutside);
    }
    let entries = checked_entries(alloc, bytes, at, count)?;
    Ok(Wad {
        kind,
        entries: Items::of(entries),
    })
}

/// The directory of a WAD, or the first check that fails.
pub fn read_wad(alloc: Global, bytes: &[u8]) -> Result<Wad, WadFault>
    // The kind and the lumps that it stands for, or the fault.
    ensures wad { ReadsWad (file_of bytes.now) result (wad_of bytes.now) }
    // The entries, each where its bytes lie.
    ensures directory { ReadsWad directory_of_wad result (directory_of bytes.now) }
    // What callers need of it.
    ensures inside { IfOk result (λ wad. All (λ entry. entry.at + entry.size ≤ length bytes.now) wad.entries) }
    ensures names { IfOk result (λ wad. names_of_lumps (file_of bytes.now wad) ≡ entry_names wad.entries) }
{
    read_directory(alloc, bytes)
}

/// The bytes of an entry.
pub fn lump<'a>(bytes: &'a [u8], entry: &Entry) -> &'a [u8]
    requires { entry.now.at + entry.now.size ≤ length bytes.now }
    ensures { result.now ≡ take entry.now.size (drop entry.now.at bytes.now) }
{
    let at = entry.at as usize;
    &bytes[at..at + entry.size as usize]
}
