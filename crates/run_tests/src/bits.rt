//! Tables and listed pairs, as the bytes of a WAD and of a certificate have them.

use std::alloc::{AllocError, Global};
use worked_maps::dice::Dice;

/// So many bytes stand behind the table in a made WAD: a directory of six entries.
const DIRECTORY: usize = 96;

/// The bytes of a certificate of version 2 before its groups, of each triangle, and of each ray.
const HEADER: usize = 30;

const TRIANGLE: usize = 8;

const RAY: usize = 24;

// Where the byte of a pair's bit stands in a made WAD of so many sectors, and that bit alone.
fn place_of(file: &[u8], sectors: usize, a: usize, b: usize) -> (usize, u8) {
    let bit = a.wrapping_mul(sectors).wrapping_add(b);
    let size = sectors.wrapping_mul(sectors).div_ceil(8);
    let start = file.len().wrapping_sub(DIRECTORY).wrapping_sub(size);
    (start.wrapping_add(bit / 8), 1 << (bit % 8))
}

/// Whether a pair is set in the table of a made WAD.
pub fn is_set(file: &[u8], sectors: usize, a: usize, b: usize) -> bool {
    let (place, bit) = place_of(file, sectors, a, b);
    file.get(place).is_some_and(|byte| *byte & bit != 0)
}

/// Sets a pair in the table of a made WAD.
pub fn set(file: &mut [u8], sectors: usize, a: usize, b: usize) {
    let (place, bit) = place_of(file, sectors, a, b);
    if let Some(byte) = file.get_mut(place) {
        *byte |= bit;
    }
}

fn short_at(bytes: &[u8], place: usize) -> usize {
    match bytes.get(place..).and_then(|rest| rest.first_chunk::<2>()) {
        Some(two) => u16::from_le_bytes(*two) as usize,
        None => 0,
    }
}

/// How many pairs a certificate lists.
pub fn listed_count(cert: &[u8]) -> usize {
    short_at(cert, 22)
}

// Where the triangles of a certificate begin, behind its groups.
fn behind_groups(cert: &[u8]) -> usize {
    let mut at = HEADER;
    for _ in 0..short_at(cert, 12) {
        at = at
            .wrapping_add(2)
            .wrapping_add(short_at(cert, at).wrapping_mul(2));
    }
    at
}

/// Whether a certificate lists a pair.
pub fn is_listed(cert: &[u8], a: usize, b: usize) -> bool {
    let rays = behind_groups(cert).wrapping_add(short_at(cert, 14).wrapping_mul(TRIANGLE));
    let start = rays.wrapping_add(short_at(cert, 18).wrapping_mul(RAY));
    for k in 0..listed_count(cert) {
        let at = start.wrapping_add(k.wrapping_mul(4));
        if short_at(cert, at) == a.min(b) && short_at(cert, at.wrapping_add(2)) == a.max(b) {
            return true;
        }
    }
    false
}

/// The bytes with one of them changed.
pub fn changed(alloc: Global, bytes: &[u8], dice: &mut Dice) -> Result<Vec<u8>, AllocError> {
    let mut made = bytes.to_vec(alloc)?;
    let place = dice.roll(bytes.len().max(1) as u64) as usize;
    if let Some(byte) = made.get_mut(place) {
        *byte = byte.wrapping_add(dice.roll(255) as u8).wrapping_add(1);
    }
    Ok(made)
}
