//! Sets of groups as bits in words, many of them one behind the other. What lies outside of the words is left alone.

use gate_floods::row_judge::words::part;
use sight_names::Memory;
use std::alloc::Global;

/// So many words of 0.
pub fn zeros(alloc: Global, count: usize) -> Result<Vec<u64>, Memory> {
    Ok(vec![in alloc; 0; count]?)
}

/// How many words a row of so many groups takes: a number that four divides, since loops take so many words at once.
pub fn width_of(count: u16) -> usize {
    (count as usize).div_ceil(256).wrapping_mul(4)
}

/// Where the row with this number begins.
#[inline(always)]
pub fn start_of(number: usize, width: usize) -> usize {
    number.wrapping_mul(width)
}

/// The row with this number.
#[inline(always)]
pub fn row_with(words: &[u64], number: usize, width: usize) -> &[u64] {
    part(words, start_of(number, width), width)
}

/// Whether the row at this place has the group.
#[inline(always)]
pub fn has_at(words: &[u64], at: usize, group: u16) -> bool {
    match words.get(at.wrapping_add(group as usize / 64)) {
        Some(word) => (*word >> (group % 64)) & 1 == 1,
        None => false,
    }
}

/// Puts the group into the row at this place.
pub fn put_at(words: &mut [u64], at: usize, group: u16) {
    let place = at.wrapping_add(group as usize / 64);
    if place < words.len() {
        words[place] |= 1 << (group % 64);
    }
}

/// Takes the group out of the row at this place.
pub fn drop_at(words: &mut [u64], at: usize, group: u16) {
    let place = at.wrapping_add(group as usize / 64);
    if place < words.len() {
        words[place] &= !(1 << (group % 64));
    }
}

/// Puts all that the other row has into the row at this place.
pub fn join_at(words: &mut [u64], at: usize, other: &[u64]) {
    if at > words.len() || words.len() - at < other.len() {
        return;
    }
    for place in 0..other.len() {
        words[at + place] |= other[place];
    }
}

/// Puts the other words in place of those from this place on.
pub fn put_words(words: &mut [u64], at: usize, other: &[u64]) {
    if at > words.len() || words.len() - at < other.len() {
        return;
    }
    words[at..at + other.len()].copy_from_slice(other);
}

/// Puts what both rows have in place of these words.
#[inline(always)]
pub fn put_both(words: &mut [u64], one: &[u64], other: &[u64]) {
    for place in 0..words.len().min(one.len()).min(other.len()) {
        words[place] = one[place] & other[place];
    }
}

/// Whether the row has any.
pub fn has_any(row: &[u64]) -> bool {
    for word in row {
        if *word != 0 {
            return true;
        }
    }
    false
}

/// Puts the number's bit.
#[inline(always)]
pub fn put_bit(words: &mut [u64], number: usize) {
    let place = number / 64;
    if place < words.len() {
        words[place] |= 1 << (number % 64);
    }
}

/// Takes the least number out of a word that stands at this place.
#[inline(always)]
pub fn take_number(word: &mut u64, place: usize) -> Option<usize> {
    if *word == 0 {
        return None;
    }
    let number = place
        .saturating_mul(64)
        .saturating_add(word.trailing_zeros() as usize);
    *word &= word.wrapping_sub(1);
    Some(number)
}

/// The word at this place.
#[inline(always)]
pub fn word_at(words: &[u64], place: usize) -> u64 {
    match words.get(place) {
        Some(word) => *word,
        None => 0,
    }
}

/// Takes the least group out of a word that stands at this place of a row.
#[inline(always)]
pub fn take_group(word: &mut u64, place: usize) -> Option<u16> {
    match u16::try_from(take_number(word, place)?) {
        Ok(group) => Some(group),
        Err(_) => None,
    }
}

/// Whether a group is in both rows. The hint is the word in which one was last, and so often is the next time.
#[inline(always)]
pub fn meet(row: &[u64], mask: &[u64], hint: &mut usize) -> bool {
    if word_at(row, *hint) & word_at(mask, *hint) != 0 {
        return true;
    }
    for place in 0..row.len().min(mask.len()) {
        if row[place] & mask[place] != 0 {
            *hint = place;
            return true;
        }
    }
    false
}

/// How many groups the row has; more than a number holds count as the most.
pub fn count_in(words: &[u64]) -> u32 {
    let mut count: u32 = 0;
    for word in words {
        count = count.saturating_add(word.count_ones());
    }
    count
}
