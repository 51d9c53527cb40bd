//! One field of a certificate. Each reader gets how many bytes there are in all, and those that are left; it gives
//! the field and the bytes behind it.

ghost use Rattle.std.specs.Prelude.{◌≡◌, ◌-◌, length};
ghost use Rattle.std.specs.Int.{w16, w32, w64};
ghost use Rattle.cert_format.specs.Reading.{GivesExactly, number_at, signed_at, number_below, number_known, point_apart, side_at, end_at};

use sight_names::{CertFault, Side};

/// Where the bytes that are left begin.
pub fn place(total: usize, bytes: &[u8]) -> u64
    ensures { result ≡ total - length bytes.now }
{
    total.saturating_sub(bytes.len()) as u64
}

/// A number of two bytes.
pub fn u16_at(total: usize, bytes: &[u8]) -> Result<(u16, &[u8]), CertFault>
    ensures { GivesExactly (λ x. (x.0, x.1.now)) result (number_at w16 total bytes.now) }
{
    if bytes.len() < 2 {
        return Err(CertFault::Short {
            at: place(total, bytes),
        });
    }
    let (front, rest) = bytes.split_at(2);
    Ok((u16::from_le_bytes([front[0], front[1]]), rest))
}

/// A number of four bytes.
pub fn u32_at(total: usize, bytes: &[u8]) -> Result<(u32, &[u8]), CertFault>
    ensures { GivesExactly (λ x. (x.0, x.1.now)) result (number_at w32 total bytes.now) }
{
    if bytes.len() < 4 {
        return Err(CertFault::Short {
            at: place(total, bytes),
        });
    }
    let (front, rest) = bytes.split_at(4);
    let number = u32::from_le_bytes([front[0], front[1], front[2], front[3]]);
    Ok((number, rest))
}

/// A number of eight bytes.
pub fn u64_at(total: usize, bytes: &[u8]) -> Result<(u64, &[u8]), CertFault>
    ensures { GivesExactly (λ x. (x.0, x.1.now)) result (number_at w64 total bytes.now) }
{
    if bytes.len() < 8 {
        return Err(CertFault::Short {
            at: place(total, bytes),
        });
    }
    let (front, rest) = bytes.split_at(8);
    let number = u64::from_le_bytes([
        front[0], front[1], front[2], front[3], front[4], front[5], front[6], front[7],
    ]);
    Ok((number, rest))
}

/// A signed number of four bytes.
#[tactic(auto, unfolding(crate::specs::Reading::signed_at))]
pub fn i32_at(total: usize, bytes: &[u8]) -> Result<(i32, &[u8]), CertFault>
    ensures { GivesExactly (λ x. (x.0, x.1.now)) result (signed_at w32 total bytes.now) }
{
    let (bits, rest) = u32_at(total, bytes)?;
    Ok((bits.cast_signed(), rest))
}

/// A signed number of eight bytes.
#[tactic(auto, unfolding(crate::specs::Reading::signed_at))]
pub fn i64_at(total: usize, bytes: &[u8]) -> Result<(i64, &[u8]), CertFault>
    ensures { GivesExactly (λ x. (x.0, x.1.now)) result (signed_at w64 total bytes.now) }
{
    let (bits, rest) = u64_at(total, bytes)?;
    Ok((bits.cast_signed(), rest))
}

/// A number below the limit.
#[tactic(auto, unfolding(crate::specs::Reading::number_below))]
pub fn u16_below(limit: u16, total: usize, bytes: &[u8]) -> Result<(u16, &[u8]), CertFault>
    ensures { GivesExactly (λ x. (x.0, x.1.now)) result (number_below limit total bytes.now) }
{
    let (number, rest) = u16_at(total, bytes)?;
    if number < limit {
        Ok((number, rest))
    } else {
        Err(CertFault::OutOfRange {
            at: place(total, bytes),
        })
    }
}

/// The bytes behind a number that is known before.
#[tactic(auto, unfolding(crate::specs::Reading::number_known))]
pub fn u16_known(known: u16, total: usize, bytes: &[u8]) -> Result<&[u8], CertFault>
    ensures { GivesExactly (λ x. x.now) result (number_known known total bytes.now) }
{
    let (number, rest) = u16_at(total, bytes)?;
    if number == known {
        Ok(rest)
    } else {
        Err(CertFault::OutOfRange {
            at: place(total, bytes),
        })
    }
}

/// A point's number that differs from these two.
#[tactic(auto, unfolding(crate::specs::Reading::point_apart))]
pub fn point_at(
    points: u16,
    p: u16,
    q: u16,
    total: usize,
    bytes: &[u8],
) -> Result<(u16, &[u8]), CertFault>
    ensures { GivesExactly (λ x. (x.0, x.1.now)) result (point_apart points p q total bytes.now) }
{
    let (number, rest) = u16_at(total, bytes)?;
    if number < points && number != p && number != q {
        Ok((number, rest))
    } else {
        Err(CertFault::OutOfRange {
            at: place(total, bytes),
        })
    }
}

/// A line's record number, plus 32,768 for its left side.
#[tactic(auto, unfolding(crate::specs::Reading::side_at))]
pub fn side_of(lines: u16, total: usize, bytes: &[u8]) -> Result<(Side, &[u8]), CertFault>
    ensures { GivesExactly (λ x. (x.0, x.1.now)) result (side_at lines total bytes.now) }
{
    let (number, rest) = u16_at(total, bytes)?;
    let line = number % 32_768;
    if line < lines {
        let left = 32_767 < number;
        Ok((Side { line, left }, rest))
    } else {
        Err(CertFault::OutOfRange {
            at: place(total, bytes),
        })
    }
}

/// An end of a portal, above the one before it.
#[tactic(auto, unfolding(crate::specs::Reading::end_at))]
pub fn end_of(total: usize, before: Option<u16>, bytes: &[u8]) -> Result<(u16, &[u8]), CertFault>
    ensures { GivesExactly (λ x. (x.0, x.1.now)) result (end_at total before bytes.now) }
{
    let (number, rest) = u16_at(total, bytes)?;
    let ascends = match before {
        None => true,
        Some(last) => last < number,
    };
    if ascends {
        Ok((number, rest))
    } else {
        Err(CertFault::NotSorted {
            at: place(total, bytes),
        })
    }
}
