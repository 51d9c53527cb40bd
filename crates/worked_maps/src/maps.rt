//! The worked maps, as text.

use std::alloc::{AllocError, Global};

/// No side, or no sector.
pub const NONE: u16 = 0xFFFF;

/// A line: x and y of its first end, x and y of its second end, its flags, and the sectors on its right and left.
/// Flag 4 says that it has two sides; a line with flags 1 is solid.
pub type RowLine = (i16, i16, i16, i16, u16, u16, u16);

/// The lines of a map, and how many sectors it has.
#[derive(Drop)]
pub struct Lines {
    pub lines: Vec<RowLine>,
    pub sectors: u16,
}

// Each map is its name, its number of sectors and what it is, and then its lines. A hyphen is no sector.
const MAPS: &str = "\
# SQUARE 1 One square room.
0 0 0 64 1 0 -
0 64 64 64 1 0 -
64 64 64 0 1 0 -
64 0 0 0 1 0 -
# LONE 2 SQUARE with a sector that no side names.
0 0 0 64 1 0 -
0 64 64 64 1 0 -
64 64 64 0 1 0 -
64 0 0 0 1 0 -
# FLAT 1 SQUARE with a line of zero length.
0 0 0 64 1 0 -
0 64 64 64 1 0 -
64 64 64 0 1 0 -
64 0 0 0 1 0 -
0 0 0 0 1 0 -
# TOUCHED 1 SQUARE with a line that ends inside line 0.
0 0 0 64 1 0 -
0 64 64 64 1 0 -
64 64 64 0 1 0 -
64 0 0 0 1 0 -
0 32 32 32 4 0 0
# CROSSED 1 SQUARE with a line that crosses line 3.
0 0 0 64 1 0 -
0 64 64 64 1 0 -
64 64 64 0 1 0 -
64 0 0 0 1 0 -
32 -32 32 32 4 0 0
# OVERLAPPED 1 SQUARE with line 0 twice.
0 0 0 64 1 0 -
0 64 64 64 1 0 -
64 64 64 0 1 0 -
64 0 0 0 1 0 -
0 0 0 64 4 0 0
# DIAGONAL 1 SQUARE with a line from corner to corner that names no sector.
0 0 0 64 1 0 -
0 64 64 64 1 0 -
64 64 64 0 1 0 -
64 0 0 0 1 0 -
0 64 64 0 1 - -
# SPLINTER 1 SQUARE with a short line inside that names no sector.
0 0 0 64 1 0 -
0 64 64 64 1 0 -
64 64 64 0 1 0 -
64 0 0 0 1 0 -
48 16 52 18 1 - -
# OPEN 1 SQUARE without its last line.
0 0 0 64 1 0 -
0 64 64 64 1 0 -
64 64 64 0 1 0 -
# PAIR 2 Two rooms with an open line between them.
0 0 0 64 1 0 -
0 64 64 64 1 0 -
64 64 64 0 4 0 1
64 0 0 0 1 0 -
64 64 128 64 1 1 -
128 64 128 0 1 1 -
128 0 64 0 1 1 -
# SHUT-PAIR 2 PAIR whose line 2 has two sides and a clear flag.
0 0 0 64 1 0 -
0 64 64 64 1 0 -
64 64 64 0 1 0 1
64 0 0 0 1 0 -
64 64 128 64 1 1 -
128 64 128 0 1 1 -
128 0 64 0 1 1 -
# WIDE 2 PAIR over the whole range of coordinates.
-32768 -32768 -32768 32767 1 0 -
-32768 32767 0 32767 1 0 -
0 32767 0 -32768 4 0 1
0 -32768 -32768 -32768 1 0 -
0 32767 32767 32767 1 1 -
32767 32767 32767 -32768 1 1 -
32767 -32768 0 -32768 1 1 -
# LINE3 3 Three rooms in a row.
0 0 0 64 1 0 -
0 64 64 64 1 0 -
64 64 64 0 4 0 1
64 0 0 0 1 0 -
64 64 128 64 1 1 -
128 64 128 0 4 1 2
128 0 64 0 1 1 -
128 64 192 64 1 2 -
192 64 192 0 1 2 -
192 0 128 0 1 2 -
# U 3 Three rooms in the form of a U.
0 64 0 128 1 1 -
0 128 192 128 1 1 -
192 128 192 64 1 1 -
192 64 128 64 4 1 2
128 64 64 64 1 1 -
64 64 0 64 4 1 0
0 0 0 64 1 0 -
64 64 64 0 1 0 -
64 0 0 0 1 0 -
128 0 128 64 1 2 -
192 64 192 0 1 2 -
192 0 128 0 1 2 -
# PORCH 4 U with a fourth room beside the room of sector 0.
0 64 0 128 1 1 -
0 128 192 128 1 1 -
192 128 192 64 1 1 -
192 64 128 64 4 1 2
128 64 64 64 1 1 -
64 64 0 64 4 1 0
0 0 0 64 4 0 3
64 64 64 0 1 0 -
64 0 0 0 1 0 -
128 0 128 64 1 2 -
192 64 192 0 1 2 -
192 0 128 0 1 2 -
-64 0 -64 64 1 3 -
-64 64 0 64 1 3 -
0 0 -64 0 1 3 -
# DOORS 4 Four rooms in a row, whose doors are halves of their walls; only a line that grazes them would join the first and the last.
-64 0 -64 64 1 0 -
-64 64 0 64 1 0 -
0 64 0 32 1 0 1
0 32 0 0 4 0 1
0 0 -64 0 1 0 -
0 64 64 64 1 1 -
64 64 64 32 4 1 2
64 32 64 0 1 1 2
64 0 0 0 1 1 -
64 64 128 64 1 2 -
128 64 128 32 1 2 3
128 32 128 0 4 2 3
128 0 64 0 1 2 -
128 64 192 64 1 3 -
192 64 192 0 1 3 -
192 0 128 0 1 3 -
# DOORS33 4 Four rooms in a row, whose doors are halves of their walls; one door is a little higher.
-64 0 -64 64 1 0 -
-64 64 0 64 1 0 -
0 64 0 32 1 0 1
0 32 0 0 4 0 1
0 0 -64 0 1 0 -
0 64 64 64 1 1 -
64 64 64 32 4 1 2
64 32 64 0 1 1 2
64 0 0 0 1 1 -
64 64 128 64 1 2 -
128 64 128 33 1 2 3
128 33 128 0 4 2 3
128 0 64 0 1 2 -
128 64 192 64 1 3 -
192 64 192 0 1 3 -
192 0 128 0 1 3 -
# APART 2 Two rooms apart.
0 0 0 64 1 0 -
0 64 64 64 1 0 -
64 64 64 0 1 0 -
64 0 0 0 1 0 -
128 0 128 64 1 1 -
128 64 192 64 1 1 -
192 64 192 0 1 1 -
192 0 128 0 1 1 -
# CROSSROADS 4 Four rooms round a point, each open to its neighbours.
-64 -64 -64 0 1 0 -
-64 0 -64 64 1 2 -
-64 64 0 64 1 2 -
0 64 64 64 1 3 -
64 64 64 0 1 3 -
64 0 64 -64 1 1 -
64 -64 0 -64 1 1 -
0 -64 -64 -64 1 0 -
0 0 0 -64 4 0 1
0 0 -64 0 4 2 0
0 0 0 64 4 3 2
0 0 64 0 4 1 3
# ISLAND 2 A room with a pillar inside that has a sector of its own.
0 0 0 192 1 0 -
0 192 192 192 1 0 -
192 192 192 0 1 0 -
192 0 0 0 1 0 -
64 64 128 64 1 1 -
128 64 128 128 1 1 -
128 128 64 128 1 1 -
64 128 64 64 1 1 -
# SELFREF 2 ISLAND whose pillar has lines that name its sector on both sides: the room belongs to both.
0 0 0 192 1 0 -
0 192 192 192 1 0 -
192 192 192 0 1 0 -
192 0 0 0 1 0 -
64 64 128 64 4 1 1
128 64 128 128 4 1 1
128 128 64 128 4 1 1
64 128 64 64 4 1 1
# PILLAR 1 A room with a pillar of rock inside.
0 0 0 192 1 0 -
0 192 192 192 1 0 -
192 192 192 0 1 0 -
192 0 0 0 1 0 -
64 64 128 64 1 0 -
128 64 128 128 1 0 -
128 128 64 128 1 0 -
64 128 64 64 1 0 -
# RINGS 2 Two rooms like rings, the one round the other, with rock between them and inside.
0 0 0 512 1 0 -
0 512 512 512 1 0 -
512 512 512 0 1 0 -
512 0 0 0 1 0 -
64 64 448 64 1 0 -
448 64 448 448 1 0 -
448 448 64 448 1 0 -
64 448 64 64 1 0 -
128 128 128 384 1 1 -
128 384 384 384 1 1 -
384 384 384 128 1 1 -
384 128 128 128 1 1 -
192 192 320 192 1 1 -
320 192 320 320 1 1 -
320 320 192 320 1 1 -
192 320 192 192 1 1 -
# ROD 1 All points on one line.
0 0 64 0 4 0 0
64 0 128 0 4 0 0
# NO-LINES 2 No line at all.
# FAR-CROSS 1 Two lines from corner to corner of the whole range; they name no sector, like those of all FAR maps.
-32768 -32768 32767 32767 1 - -
-32768 32767 32767 -32768 1 - -
# FAR-ENDS 1 Two lines almost alike, with one end in common.
-32768 -32768 32767 32767 1 - -
-32768 -32767 32767 32767 1 - -
# FAR-OVERLAP 1 A line and a part of it.
-32768 -32768 32767 32767 1 - -
-32767 -32767 0 0 1 - -
# FAR-APART 1 Two lines almost alike.
-32768 -32768 32767 32766 1 - -
-32768 -32767 32767 32767 1 - -
# FAR-TOUCH 1 A line that ends in the middle of another.
-32768 0 32767 0 1 - -
0 32767 0 0 1 - -
# FAR-JOINED 1 Two parts of one line with one end in common.
-32768 -32768 0 0 1 - -
0 0 32767 32767 1 - -
# FAR-PARTED 1 Two parts of one line.
-32768 -32768 -1 -1 1 - -
0 0 32767 32767 1 - -
";

fn word_at(row: &str, k: usize) -> &str {
    row.split_whitespace().nth(k).unwrap_or("")
}

fn place(row: &str, k: usize) -> i16 {
    word_at(row, k).parse().unwrap_or(0)
}

fn number(row: &str, k: usize) -> u16 {
    word_at(row, k).parse().unwrap_or(NONE)
}

fn line_of(row: &str) -> RowLine {
    (
        place(row, 0),
        place(row, 1),
        place(row, 2),
        place(row, 3),
        number(row, 4),
        number(row, 5),
        number(row, 6),
    )
}

/// The worked map of this name.
pub fn map_named(alloc: Global, name: &str) -> Result<Option<Lines>, AllocError> {
    for text in MAPS.split("# ") {
        let Some((title, rows)) = text.split_once('\n') else {
            continue;
        };
        if word_at(title, 0) == name {
            let sectors = number(title, 1);
            let mut lines = Vec::new(alloc);
            for row in rows.lines() {
                lines.push(line_of(row))?;
            }
            return Ok(Some(Lines { lines, sectors }));
        }
    }
    Ok(None)
}
