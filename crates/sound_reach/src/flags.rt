//! The lines that block sound.

ghost use Rattle.std.specs.Prelude.{◌≡◌, ◌+◌, ◌*◌, ◌/◌, ◌%◌, ◌<◌, ◌≤◌, ◌==◌, IfOk, length};
ghost use Rattle.std.specs.Int.{bit_at};
ghost use Rattle.sight_names.specs.Lumps.{linedef_len as linedef_len_lem, u16_at};
ghost use Rattle.sound_reach.specs.Dampers.{dampers_of};

use sight_names::{MapFormat, Memory};
use std::alloc::Global;

/// Bytes of a LINEDEFS record of a Doom map, and of what a text spells.
const DOOM_LEN: usize = 14;

/// .. and of a Hexen-format map. In each the flags are the third number.
const HEXEN_LEN: usize = 16;

/// The flag of a line that blocks sound.
const BLOCKS_SOUND: u16 = 64;

/// The unsigned number at this byte.
fn number(bytes: &[u8], at: usize) -> u16
    requires { at + 2 ≤ length bytes.now }
    ensures { result ≡ u16_at bytes.now at }
{
    let two = &bytes[at..at + 2];
    u16::from_le_bytes([two[0], two[1]])
}

/// Whether flags have the one that blocks sound.
fn blocks_sound(flags: u16) -> bool
    ensures { result ≡ (bit_at flags 6 == 1) }
{
    flags & BLOCKS_SOUND != 0
}

/// Bytes of a record.
fn linedef_len(format: MapFormat) -> usize
    ensures { result ≡ linedef_len_lem format }
{
    match format {
        MapFormat::Doom | MapFormat::Text => DOOM_LEN,
        MapFormat::Hexen => HEXEN_LEN,
    }
}

/// For each record of LINEDEFS whether its line blocks sound.
pub fn dampers(alloc: Global, linedefs: &[u8], format: MapFormat) -> Result<Vec<bool>, Memory>
    requires { length linedefs.now % linedef_len_lem format ≡ 0 }
    ensures { IfOk result (λ v. v.items ≡ dampers_of format linedefs.now) }
{
    let len = linedef_len(format);
    let mut dampers = Vec::new(alloc);
    for k in 0..linedefs.len() / len {
        dampers.push(blocks_sound(number(linedefs, len * k + 4)))?;
    }
    Ok(dampers)
}
