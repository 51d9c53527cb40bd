//! Two tables of one size beside each other: how many pairs only one of them has set, and the first of these.
#![tactic(auto)]

ghost use Rattle.std.specs.Prelude.{◌≡◌, ◌≤◌, ◌<◌, ◌+◌, ◌*◌, ◌^◌, length};
ghost use Rattle.std.specs.List.{count_by, range_with_len};
ghost use Rattle.reject_bits.specs.Parts.{IsTableWhole};
ghost use Rattle.table_compare.specs.Compared.{bits_changed, has_alone, is_alone, IsFirstBelow, SetsAlone};
ghost use Rattle.table_compare.specs.Counts.{IsCountOf, IsFirstOf};

use reject_bits::Table;
use sight_names::Pair;

/// How a table differs from the right one of the same sectors.
#[derive(Clone, Copy)]
pub struct Comparison {
    /// How many pairs are set, and clear in the right one.
    pub wrong: u64,
    /// How many are clear, and set in the right one.
    pub missing: u64,
    /// The first wrong pair, row by row.
    pub first: Option<Pair>,
}

/// How many bits the byte has that the other hasn't.
fn count_alone(byte: u8, other: u8) -> u64
    ensures count { result ≡ count_by (has_alone byte other) (range_with_len 0 8) }
    ensures few { result ≤ 8 }
{
    u64::from((byte & (other ^ 255)).count_ones())
}

/// The least bit that the byte has and the other hasn't.
fn first_alone(byte: u8, other: u8) -> Option<usize>
    ensures { IsFirstBelow 8 (has_alone byte other) result }
{
    let alone = byte & (other ^ 255);
    if alone == 0 {
        return None;
    }
    Some(alone.trailing_zeros() as usize)
}

/// How many bits the bytes have that the others haven't.
fn count_bits(one: &[u8], other: &[u8]) -> u64
    requires same { length other.now ≡ length one.now }
    requires short { length one.now < 2 ^ 32 }
    ensures { result ≡ count_by (is_alone one.now other.now) (range_with_len 0 (8 * length one.now)) }
{
    let mut count = 0;
    for i in 0..one.len() {
        count += count_alone(one[i], other[i]);
    }
    count
}

/// How many bits differ.
pub fn count_changed(one: &[u8], other: &[u8]) -> u64
    requires same { length other.now ≡ length one.now }
    requires short { length one.now < 2 ^ 32 }
    ensures { result ≡ bits_changed one.now other.now }
{
    count_bits(one, other) + count_bits(other, one)
}

/// The first bit that the bytes have and the others haven't.
fn first_bit(one: &[u8], other: &[u8]) -> Option<usize>
    requires same { length other.now ≡ length one.now }
    requires short { length one.now < 2 ^ 32 }
    ensures { IsFirstBelow (8 * length one.now) (is_alone one.now other.now) result }
{
    for i in 0..one.len() {
        if let Some(bit) = first_alone(one[i], other[i]) {
            return Some(8 * i + bit);
        }
    }
    None
}

/// The bytes of a table. They are few, since its sectors are.
fn bytes_of(table: &Table) -> &[u8]
    ensures bytes { result.now ≡ table.now.bytes }
    ensures whole { IsTableWhole table.now }
    ensures short { length result.now < 2 ^ 32 }
{
    let _sectors = table.sectors();
    table.as_bytes()
}

/// How many pairs the one table has set and the other clear.
fn count_pairs(one: &Table, other: &Table) -> u64
    requires { other.now.n ≡ one.now.n }
    ensures { IsCountOf one.now.n (SetsAlone one.now other.now) result }
{
    count_bits(bytes_of(one), bytes_of(other))
}

/// The pair of a place, row by row.
fn pair_at(n: u16, place: usize) -> Pair
    requires { place < n * n }
    ensures row { result.a < n }
    ensures column { result.b < n }
    ensures place { place ≡ result.a * n + result.b }
{
    let n = usize::from(n);
    Pair {
        a: (place / n) as u16,
        b: (place % n) as u16,
    }
}

/// The first pair that the one table has set and the other clear.
fn first_pair(one: &Table, other: &Table) -> Option<Pair>
    requires { other.now.n ≡ one.now.n }
    ensures { IsFirstOf one.now.n (SetsAlone one.now other.now) result }
{
    match first_bit(bytes_of(one), bytes_of(other)) {
        Some(place) => Some(pair_at(one.sectors(), place)),
        None => None,
    }
}

/// How a table differs from the right one of the same sectors.
pub fn compare(own: &Table, right: &Table) -> Comparison
    requires { right.now.n ≡ own.now.n }
    ensures wrong { IsCountOf own.now.n (SetsAlone own.now right.now) result.wrong }
    ensures missing { IsCountOf own.now.n (SetsAlone right.now own.now) result.missing }
    ensures first { IsFirstOf own.now.n (SetsAlone own.now right.now) result.first }
{
    Comparison {
        wrong: count_pairs(own, right),
        missing: count_pairs(right, own),
        first: first_pair(own, right),
    }
}
