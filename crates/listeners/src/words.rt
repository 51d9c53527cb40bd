//! Lines put together in a buffer on the stack, from their ends to their beginnings, and texts copied out in pieces.

ghost use Rattle.std.specs.Prelude.{◌≡◌, ◌+◌, ◌-◌, ◌≤◌, ◌++◌, ◌∷◌, [], length, drop, min, decimal, OnOk, OnErr};
ghost use Rattle.listeners.specs.Listening.{AreWordsAt};
ghost use Rattle.listeners.specs.Texts.{finding_line, line_of_sectors as the_pair_line, set_line as the_set_line, total_line as the_total_line};

use crate::finding::{Finding, Kind};
use itoa::write_digits;
use sight_names::Memory;

/// Room for each line that is written here.
pub const ROOM: usize = 96;

/// Copies what the text has from that place on, as far as the buffer reaches.
pub fn copy_from(text: &[u8], at: u64, buf: &mut [u8]) -> usize
    ensures { AreWordsAt text.now at buf.old buf.new result }
{
    if at >= text.len() as u64 {
        return 0;
    }
    let left = &text[at as usize..];
    let taken = buf.len().min(left.len());
    buf[..taken].copy_from_slice(&left[..taken]);
    taken
}

/// Puts bytes before a place of the buffer, and answers where they begin.
fn put_before(part: &[u8], buf: &mut [u8], end: usize) -> usize
    requires fits { length part.now ≤ end }
    requires within { end ≤ length buf.old }
    ensures start { result + length part.now ≡ end }
    ensures written { drop result buf.new ≡ part.now ++ drop end buf.old }
{
    let start = end - part.len();
    buf[start..end].copy_from_slice(part);
    start
}

/// Puts a number before a place of the buffer, and answers where it begins.
fn put_number_before(n: u64, buf: &mut [u8], end: usize) -> usize
    requires fits { 20 ≤ end }
    requires within { end ≤ length buf.old }
    ensures start { (end ≤ result + 20) × (result ≤ end) }
    ensures written { drop result buf.new ≡ decimal n ++ drop end buf.old }
{
    write_digits(n, buf, end)
}

/// Puts the line of a pair behind a word at the end of the buffer, and answers where it begins.
fn put_pair_line(word: &[u8], a: u16, b: u16, buf: &mut [u8]) -> usize
    requires word { length word.now ≤ 10 }
    requires room { length buf.old ≡ 96 }
    ensures start { result ≤ 96 }
    ensures line { drop result buf.new ≡ the_pair_line word.now a b }
{
    let start = put_before(b"\n", buf, ROOM);
    let start = put_number_before(u64::from(b), buf, start);
    let start = put_before(b" ", buf, start);
    let start = put_number_before(u64::from(a), buf, start);
    put_before(word, buf, start)
}

/// Puts the line of a finding at the end of the buffer, none of a clear pair, and answers where it begins.
pub fn put_finding_line(finding: &Finding, buf: &mut [u8]) -> usize
    requires room { length buf.old ≡ 96 }
    ensures start { result ≤ 96 }
    ensures line { drop result buf.new ≡ finding_line finding.now.a finding.now.b finding.now.kind }
{
    match finding.kind {
        Kind::Set => put_pair_line(b"set ", finding.a, finding.b, buf),
        Kind::Listed => put_pair_line(b"listed ", finding.a, finding.b, buf),
        Kind::Clear => ROOM,
    }
}

/// Puts the line of a set pair at the end of the buffer, none of another one, and answers where it begins.
pub fn put_set_line(finding: &Finding, buf: &mut [u8]) -> usize
    requires room { length buf.old ≡ 96 }
    ensures start { result ≤ 96 }
    ensures line { drop result buf.new ≡ the_set_line finding.now.a finding.now.b finding.now.kind }
{
    match finding.kind {
        Kind::Set => put_pair_line(b"set ", finding.a, finding.b, buf),
        Kind::Listed => ROOM,
        Kind::Clear => ROOM,
    }
}

/// Puts the line of three counts at the end of the buffer, and answers where it begins.
pub fn put_total_line(set: u64, clear: u64, listed: u64, buf: &mut [u8]) -> usize
    requires room { length buf.old ≡ 96 }
    ensures start { result ≤ 96 }
    ensures line { drop result buf.new ≡ the_total_line set clear listed }
{
    let start = put_before(b"\n", buf, ROOM);
    let start = put_number_before(listed, buf, start);
    let start = put_before(b" listed ", buf, start);
    let start = put_number_before(clear, buf, start);
    let start = put_before(b" clear ", buf, start);
    let start = put_number_before(set, buf, start);
    put_before(b"total set ", buf, start)
}

/// Keeps a finding and its line. After `Memory` both lists are as before.
pub fn note(
    heard: &mut Vec<Finding>,
    text: &mut Vec<u8>,
    finding: Finding,
    line: &[u8],
) -> Result<(), Memory>
    ensures heard { OnOk result (heard.new.items ≡ heard.old.items ++ finding ∷ []) }
    ensures text { OnOk result (text.new.items ≡ text.old.items ++ line.now) }
    ensures memory { OnErr result (heard.new.items ≡ heard.old.items) }
    ensures text_stays { OnErr result (text.new.items ≡ text.old.items) }
{
    let before = text.len();
    text.extend_from_slice(line)?;
    if let Err(refused) = heard.push(finding) {
        text.truncate(before);
        return Err(refused.into());
    }
    Ok(())
}
