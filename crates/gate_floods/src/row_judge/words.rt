//! Rows of bits in words, the least bit of each word first.

ghost use Rattle.std.specs.Prelude.{◌≡◌, ◌+◌, ◌≤◌, true, take, length};
ghost use Rattle.gate_floods.specs.RowJudge.Words.{both_words, has_bit_in_words, is_in, row_in_words, HasMet, IsCleared};

/// Whether the number is in the row.
#[inline(always)]
pub fn has(row: &[u64], number: u16) -> bool
    ensures { result ≡ is_in row.now number }
{
    match row.get(number as usize / 64) {
        Some(word) => (*word >> (number % 64)) & 1 == 1,
        None => false,
    }
}

/// Whether a number is in both rows.
#[inline(always)]
pub fn meet(row: &[u64], mask: &[u64]) -> bool
    ensures { result ≡ has_bit_in_words (both_words row.now mask.now) }
{
    for k in 0..row.len().min(mask.len()) {
        if row[k] & mask[k] != 0 {
            return true;
        }
    }
    false
}

/// Whether a number is in both rows by this word. `false` says nothing.
#[inline(always)]
fn meet_at(row: &[u64], mask: &[u64], place: usize) -> bool
    ensures { result ≡ true → has_bit_in_words (both_words row.now mask.now) ≡ true }
{
    if place >= row.len() || place >= mask.len() {
        return false;
    }
    if row[place] & mask[place] != 0 {
        return true;
    }
    false
}

/// Whether a number is in both rows, first by the word in which others met last: mostly they meet there.
#[inline(always)]
pub fn meet_near(row: &[u64], mask: &[u64], near: &mut usize) -> bool
    ensures { result ≡ has_bit_in_words (both_words row.now mask.now) }
{
    if meet_at(row, mask, *near) {
        return true;
    }
    for k in 0..row.len().min(mask.len()) {
        if row[k] & mask[k] != 0 {
            *near = k;
            return true;
        }
    }
    false
}

/// So many of the words from this place on, or as many as there are.
#[inline(always)]
pub fn part(words: &[u64], at: usize, width: usize) -> &[u64]
    ensures { result.now ≡ row_in_words words.now width at }
{
    let behind = &words[at.min(words.len())..];
    &behind[..width.min(behind.len())]
}

/// Meets the words from the one place on with those of the mask, and puts what both have from the other place on.
#[inline(always)]
fn meet_words(rows: &mut [u64], at: usize, to: usize, mask: &[u64])
    requires apart { at + length mask.now ≤ to }
    requires room { to + length mask.now ≤ length rows.old }
    ensures { HasMet rows.old mask.now at to (length mask.now) rows.new }
{
    for k in 0..mask.len() {
        rows[to + k] = rows[at + k] & mask[k];
    }
}

/// Leaves no bit in so many words from this place on.
#[inline(never)]
fn clear_words(rows: &mut [u64], from: usize, count: usize)
    requires { from + count ≤ length rows.old }
    ensures { IsCleared rows.old from count rows.new }
{
    for k in 0..count {
        rows[from + k] = 0;
    }
}

/// Puts behind the row at this place, in place of what is there, the row of what the mask has too. All else stays.
// no length changes: so more than one word is met at a time, which takes registers. Out of line they are its own
#[inline(never)]
pub fn put_both(rows: &mut [u64], at: usize, width: usize, mask: &[u64])
    requires mask { length mask.now ≤ width }
    requires room { at + width + width ≤ length rows.old }
    ensures len { length rows.new ≡ length rows.old }
    ensures kept { take (at + width) rows.new ≡ take (at + width) rows.old }
    ensures put { row_in_words rows.new width (at + width) ≡ both_words (row_in_words rows.old width at) mask.now }
{
    let to = at + width;
    meet_words(rows, at, to, mask);
    if mask.len() < width {
        clear_words(rows, to + mask.len(), width - mask.len());
    }
}
