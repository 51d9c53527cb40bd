//! Files as text: the lumps of worked maps, changed, as a WAD, and its bytes, changed.

use crate::certs::digits_named;
use crate::maps::{Lines, NONE, RowLine, map_named};
use crate::pictures::picture_named;
use crate::rooms::made_rooms;
use crate::texts::text_named;
use map_lumps::hexen_lumps::to_hexen;
use map_lumps::read_lumps;
use map_maker::grid;
use sight_names::{MapFormat, Plan, Reading};
use std::alloc::{AllocError, Global};
use std::test::Fail;

// A lump: its name, padded with NUL, and its bytes.
#[derive(Drop)]
struct RowLump {
    name: [u8; 8],
    bytes: Vec<u8>,
}

/// A number in decimal digits; 0 where it is none.
pub fn number(text: &str) -> usize {
    text.parse().unwrap_or(0)
}

fn digit_of(byte: u8) -> Option<u8> {
    match byte {
        b'0'..=b'9' => Some(byte - b'0'),
        b'a'..=b'f' => Some(byte - b'a' + 10),
        _ => None,
    }
}

/// The bytes that hexadecimal digits spell; other characters are passed over.
pub fn bytes_of_digits(alloc: Global, text: &str) -> Result<Vec<u8>, AllocError> {
    let mut bytes = Vec::new(alloc);
    let mut high = None;
    for byte in text.as_bytes() {
        if let Some(digit) = digit_of(*byte) {
            high = match high {
                None => Some(digit),
                Some(first) => {
                    bytes.push(u8::wrapping_mul(first, 16).wrapping_add(digit))?;
                    None
                }
            };
        }
    }
    Ok(bytes)
}

fn lump(alloc: Global, name: &str) -> RowLump {
    let mut padded = [0; 8];
    for (slot, byte) in padded.iter_mut().zip(name.as_bytes()) {
        *slot = *byte;
    }
    RowLump {
        name: padded,
        bytes: Vec::new(alloc),
    }
}

// The number of a point, which is new where no line has used it.
fn number_of(points: &mut Vec<(i16, i16)>, x: i16, y: i16) -> Result<u16, AllocError> {
    let mut k = 0u16;
    for point in points.iter() {
        if *point == (x, y) {
            return Ok(k);
        }
        k = k.wrapping_add(1);
    }
    points.push((x, y))?;
    Ok(k)
}

// A record of SIDEDEFS, where the line has that side, and its number.
fn push_side(sidedefs: &mut Vec<u8>, count: &mut u16, sector: u16) -> Result<u16, AllocError> {
    if sector == NONE {
        return Ok(NONE);
    }
    sidedefs.extend_from_slice(b"\0\0\0\0-\0\0\0\0\0\0\0-\0\0\0\0\0\0\0-\0\0\0\0\0\0\0")?;
    sidedefs.extend_from_slice(&sector.to_le_bytes())?;
    let number = *count;
    *count = number.wrapping_add(1);
    Ok(number)
}

// A record of LINEDEFS for each line, a record of SIDEDEFS for each side, and the points in the order in which the lines
// first use them.
fn push_lines(
    map: &Lines,
    points: &mut Vec<(i16, i16)>,
    linedefs: &mut Vec<u8>,
    sidedefs: &mut Vec<u8>,
) -> Result<(), AllocError> {
    let mut sides = 0u16;
    for (x, y, u, v, flags, right, left) in &map.lines {
        let (first, second) = (number_of(points, *x, *y)?, number_of(points, *u, *v)?);
        let right = push_side(sidedefs, &mut sides, *right)?;
        let left = push_side(sidedefs, &mut sides, *left)?;
        for field in [first, second, *flags, 0, 0, right, left] {
            linedefs.extend_from_slice(&field.to_le_bytes())?;
        }
    }
    Ok(())
}

fn push_points(vertexes: &mut Vec<u8>, points: &[(i16, i16)]) -> Result<(), AllocError> {
    for (x, y) in points {
        vertexes.extend_from_slice(&x.to_le_bytes())?;
        vertexes.extend_from_slice(&y.to_le_bytes())?;
    }
    Ok(())
}

fn push_sectors(bytes: &mut Vec<u8>, count: u16) -> Result<(), AllocError> {
    for _ in 0..count {
        bytes.extend_from_slice(&[0; 26])?;
    }
    Ok(())
}

// Adds the six lumps of a map, REJECT empty. They are pushed empty and filled where they are, so that little is owned here
// over the calls that may fail.
fn push_map(alloc: Global, lumps: &mut Vec<RowLump>, map: &Lines) -> Result<(), AllocError> {
    for name in [
        "MAP01", "LINEDEFS", "SIDEDEFS", "VERTEXES", "SECTORS", "REJECT",
    ] {
        lumps.push(lump(alloc, name))?;
    }
    let mut points = Vec::new(alloc);
    if let [.., linedefs, sidedefs, vertexes, sectors, _] = lumps.as_mut_slice() {
        push_lines(map, &mut points, &mut linedefs.bytes, &mut sidedefs.bytes)?;
        push_points(&mut vertexes.bytes, &points)?;
        push_sectors(&mut sectors.bytes, map.sectors)?;
    }
    Ok(())
}

/// The plan of a worked map.
pub fn plan_named(alloc: Global, name: &str) -> Result<Plan, Fail> {
    let mut lumps = Vec::new(alloc);
    if let Some(map) = map_named(alloc, name)? {
        push_map(alloc, &mut lumps, &map)?;
    }
    let [_, linedefs, sidedefs, vertexes, sectors, _] = lumps.as_slice() else {
        return Err("no map has this name".into());
    };
    let read = read_lumps(
        alloc,
        Reading {
            format: MapFormat::Doom,
            large: false,
        },
        &linedefs.bytes,
        &sidedefs.bytes,
        &vertexes.bytes,
        &sectors.bytes,
    );
    match read {
        Ok(plan) => Ok(plan),
        Err(_) => Err("the lumps of a worked map aren't read".into()),
    }
}

// So many lines without a common point.
fn apart(alloc: Global, count: usize) -> Result<Lines, AllocError> {
    let mut lines: Vec<RowLine> = Vec::new(alloc);
    let mut x = 0i16;
    for _ in 0..count {
        lines.push((x, 0, x, 1, 1, 0, NONE))?;
        x = x.wrapping_add(1);
    }
    Ok(Lines { lines, sectors: 1 })
}

// The lines of the map of this name, or of one that is made of a number.
fn lines_of(alloc: Global, word: &str) -> Result<Option<Lines>, AllocError> {
    if let Some(count) = word.strip_prefix("apart:") {
        return Ok(Some(apart(alloc, number(count))?));
    }
    if let Some(seed) = word.strip_prefix("rooms:") {
        let made = made_rooms(alloc, number(seed) as u64)?;
        let (lines, sectors) = (made.lines, made.sectors);
        return Ok(Some(Lines { lines, sectors }));
    }
    map_named(alloc, word)
}

// What a word makes of a lump's bytes: `=` and digits are its bytes, `:` and the name of a text are those of the text, `<`
// and digits stand behind them, `*` and a number are so many bytes 5a; `hexen` turns the records of LINEDEFS to Hexen's
// format.
fn change(alloc: Global, lump: &mut RowLump, word: &str) -> Result<(), AllocError> {
    if let Some(digits) = word.strip_prefix('=') {
        lump.bytes = bytes_of_digits(alloc, digits)?;
    } else if let Some(name) = word.strip_prefix(':') {
        lump.bytes = text_named(name).as_bytes().to_vec(alloc)?;
    } else if let Some(digits) = word.strip_prefix('<') {
        lump.bytes
            .extend_from_slice(&bytes_of_digits(alloc, digits)?)?;
    } else if let Some(count) = word.strip_prefix('*') {
        lump.bytes = vec![in alloc; 0x5a; number(count)]?;
    } else if word == "hexen" && lump.bytes.len() % 14 == 0 {
        lump.bytes = to_hexen(alloc, &lump.bytes).map_err(|_| AllocError)?;
    }
    Ok(())
}

// What a word makes of the lumps, of which one is the present one: a map's six stand behind the others, and the last is
// the present one; `.` and a number choose another; `+`, a number, a colon and a name put a lump without bytes at that
// place; `-` takes the present one away.
fn shape(
    alloc: Global,
    lumps: &mut Vec<RowLump>,
    present: &mut usize,
    word: &str,
) -> Result<(), AllocError> {
    if let Some(place) = word.strip_prefix('.') {
        *present = number(place);
    } else if let Some((place, name)) = word
        .strip_prefix('+')
        .and_then(|rest| rest.split_once(':'))
    {
        *present = number(place).min(lumps.len());
        lumps.insert(*present, lump(alloc, name))?;
    } else if word == "-" {
        if *present < lumps.len() {
            lumps.remove(*present);
        }
        *present = present.saturating_sub(1);
    } else if let Some(map) = lines_of(alloc, word)? {
        push_map(alloc, lumps, &map)?;
        *present = lumps.len().saturating_sub(1);
    } else if let Some(lump) = lumps.get_mut(*present) {
        change(alloc, lump, word)?;
    }
    Ok(())
}

fn size_of(lump: &RowLump) -> u32 {
    u32::try_from(lump.bytes.len()).unwrap_or(0)
}

// Adds an entry of a directory.
fn push_entry(file: &mut Vec<u8>, at: u32, lump: &RowLump) -> Result<(), AllocError> {
    file.extend_from_slice(&at.to_le_bytes())?;
    file.extend_from_slice(&size_of(lump).to_le_bytes())?;
    file.extend_from_slice(&lump.name)
}

// The place behind the lumps, of which the first stands at byte 12.
fn end_of(lumps: &[RowLump]) -> u32 {
    let mut at = 12u32;
    for lump in lumps {
        at = at.wrapping_add(size_of(lump));
    }
    at
}

fn push_bodies(file: &mut Vec<u8>, lumps: &[RowLump]) -> Result<(), AllocError> {
    for lump in lumps {
        file.extend_from_slice(&lump.bytes)?;
    }
    Ok(())
}

fn push_directory(file: &mut Vec<u8>, lumps: &[RowLump]) -> Result<(), AllocError> {
    let mut at = 12u32;
    for lump in lumps {
        push_entry(file, at, lump)?;
        at = at.wrapping_add(size_of(lump));
    }
    Ok(())
}

// Adds a file with these lumps in order from byte 12 on, and its directory behind them. It is lent the bytes, since what a function
// owns stands in its proof at each way out.
fn push_file(file: &mut Vec<u8>, lumps: &[RowLump]) -> Result<(), AllocError> {
    let count = u32::try_from(lumps.len()).unwrap_or(0);
    file.extend_from_slice(b"PWAD")?;
    file.extend_from_slice(&count.to_le_bytes())?;
    file.extend_from_slice(&end_of(lumps).to_le_bytes())?;
    push_bodies(file, lumps)?;
    push_directory(file, lumps)
}

// From a place on, so many bytes are taken out and these are put there.
fn spliced(
    alloc: Global,
    bytes: &[u8],
    at: usize,
    out: usize,
    put: &[u8],
) -> Result<Vec<u8>, AllocError> {
    let mut made = bytes.get(..at).unwrap_or(bytes).to_vec(alloc)?;
    made.extend_from_slice(put)?;
    if let Some(rest) = bytes.get(at.saturating_add(out)..) {
        made.extend_from_slice(rest)?;
    }
    Ok(made)
}

// The bytes of a picture, in which an apostrophe stands for a quotation mark.
fn bytes_of_picture(alloc: Global, picture: &str) -> Result<Vec<u8>, AllocError> {
    let mut bytes = picture.as_bytes().to_vec(alloc)?;
    for byte in bytes.iter_mut() {
        if *byte == b'\'' {
            *byte = b'"';
        }
    }
    Ok(bytes)
}

// The bytes that digits spell, or those of the file of this name.
fn spelled(alloc: Global, digits: &str) -> Result<Vec<u8>, AllocError> {
    match digits_named(digits) {
        "" => bytes_of_digits(alloc, digits),
        named => bytes_of_digits(alloc, named),
    }
}

// A made map of so many rooms a side.
fn made_grid(alloc: Global, size: &str) -> Result<Vec<u8>, AllocError> {
    match number(size) {
        n @ 1..=18 => grid(alloc, n as u16, MapFormat::Doom).map_err(|_| AllocError),
        _ => Ok(Vec::new(alloc)),
    }
}

// Repeats the last sixteen bytes so often.
fn repeat_last(file: &mut Vec<u8>, count: usize) -> Result<(), AllocError> {
    let Some(last) = file.last_chunk::<16>() else {
        return Ok(());
    };
    let last = *last;
    for _ in 0..count {
        file.extend_from_slice(&last)?;
    }
    Ok(())
}

// The bytes with what a word, behind `@`, makes of them.
fn changed(alloc: Global, bytes: &[u8], word: &str) -> Result<Vec<u8>, AllocError> {
    let (at, rest) = word.split_once(':').unwrap_or((word, ""));
    let (out, digits) = rest.split_once(':').unwrap_or((rest, ""));
    let put = bytes_of_digits(alloc, digits)?;
    spliced(alloc, bytes, number(at), number(out), &put)
}

// What a word makes of a file's bytes: `#` and digits are the bytes, or `#` and the name of a file; `%` and a name are a picture; `grid:` and a number
// make a map; `@`, a place, a colon, how many bytes are taken out there, a colon and digits change them; `&` and a number
// repeat the last sixteen.
fn edit(alloc: Global, file: &mut Vec<u8>, word: &str) -> Result<(), AllocError> {
    if let Some(digits) = word.strip_prefix('#') {
        *file = spelled(alloc, digits)?;
    } else if let Some(name) = word.strip_prefix('%') {
        *file = bytes_of_picture(alloc, picture_named(name))?;
    } else if let Some(size) = word.strip_prefix("grid:") {
        *file = made_grid(alloc, size)?;
    } else if let Some(place) = word.strip_prefix('@') {
        *file = changed(alloc, file, place)?;
    } else if let Some(count) = word.strip_prefix('&') {
        repeat_last(file, number(count))?;
    }
    Ok(())
}

fn push_lumps(alloc: Global, lumps: &mut Vec<RowLump>, text: &str) -> Result<(), AllocError> {
    let mut present = 0;
    for word in text.split_whitespace() {
        shape(alloc, lumps, &mut present, word)?;
    }
    Ok(())
}

fn edit_all(alloc: Global, file: &mut Vec<u8>, text: &str) -> Result<(), AllocError> {
    for word in text.split_whitespace() {
        edit(alloc, file, word)?;
    }
    Ok(())
}

// Adds a file of the lumps that a line of words says.
fn push_lumps_of(alloc: Global, file: &mut Vec<u8>, text: &str) -> Result<(), AllocError> {
    let mut lumps = Vec::new(alloc);
    push_lumps(alloc, &mut lumps, text)?;
    push_file(file, &lumps)
}

/// The file that a line of words makes: the lumps that they say as a WAD, and then what they say of its bytes.
pub fn bytes_of(alloc: Global, text: &str) -> Result<Vec<u8>, AllocError> {
    let mut file = Vec::new(alloc);
    push_lumps_of(alloc, &mut file, text)?;
    edit_all(alloc, &mut file, text)?;
    Ok(file)
}
