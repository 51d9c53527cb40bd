//! Rows of text.

/// The part of a row behind so many bars.
pub fn part(row: &str, k: usize) -> &str {
    row.split('|').nth(k).unwrap_or("").trim()
}
