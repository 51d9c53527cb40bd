//! What is read of blocks.

ghost use Rattle.std.specs.Prelude.{◌≡◌};
ghost use Rattle.udmf_text.specs.Parts.{given_bytes};
ghost use Rattle.udmf_map.specs.Blocks.{empty_vertex, empty_linedef, block_named as block_named_lem, vertex_with as vertex_with_lem, sides_with as sides_with_lem, linedef_with as linedef_with_lem, sidedef_with as sidedef_with_lem, block_with as block_with_lem};

use crate::values::{Coordinate, is_word, place, truth, whole};
use udmf_text::Given;

/// A vertex.
#[derive(Clone, Copy)]
pub struct Vertex {
    pub x: Coordinate,
    pub y: Coordinate,
}

/// A line: its vertices and sides by number, -1 where there is none, whether it has two sides and blocks sound, and its
/// special. A number beyond 32 bits is the nearest one that they hold.
#[derive(Clone, Copy)]
pub struct Linedef {
    pub first: i32,
    pub second: i32,
    pub front: i32,
    pub back: i32,
    pub two_sided: bool,
    pub blocks_sound: bool,
    pub special: i32,
}

/// What a block tells.
#[derive(Clone, Copy)]
pub enum Block {
    Vertex(Vertex),
    Linedef(Linedef),
    /// The number of its sector, -1 where none is given.
    Sidedef(i32),
    Sector,
    /// A block of another kind, of which nothing is read.
    Other,
}

fn fresh_vertex() -> Vertex
    ensures { result ≡ empty_vertex }
{
    Vertex {
        x: Coordinate::Missing,
        y: Coordinate::Missing,
    }
}

fn fresh_linedef() -> Linedef
    ensures { result ≡ empty_linedef }
{
    Linedef {
        first: -1,
        second: -1,
        front: -1,
        back: -1,
        two_sided: false,
        blocks_sound: false,
        special: 0,
    }
}

/// An empty block of the kind that an item's name says.
pub fn block_named(name: &[u8]) -> Block
    ensures { result ≡ block_named_lem name.now }
{
    if is_word(name, b"vertex") {
        return Block::Vertex(fresh_vertex());
    }
    if is_word(name, b"linedef") {
        return Block::Linedef(fresh_linedef());
    }
    if is_word(name, b"sidedef") {
        return Block::Sidedef(-1);
    }
    if is_word(name, b"sector") {
        return Block::Sector;
    }
    Block::Other
}

fn vertex_with(v: Vertex, given: &Given<'_>) -> Option<Vertex>
    ensures { result ≡ vertex_with_lem v (given_bytes given.now) }
{
    if is_word(given.key, b"x") {
        return Some(Vertex {
            x: place(given)?,
            ..v
        });
    }
    if is_word(given.key, b"y") {
        return Some(Vertex {
            y: place(given)?,
            ..v
        });
    }
    Some(v)
}

fn sides_with(l: Linedef, given: &Given<'_>) -> Option<Linedef>
    ensures { result ≡ sides_with_lem l (given_bytes given.now) }
{
    if is_word(given.key, b"sidefront") {
        return Some(Linedef {
            front: whole(given)?,
            ..l
        });
    }
    if is_word(given.key, b"sideback") {
        return Some(Linedef {
            back: whole(given)?,
            ..l
        });
    }
    if is_word(given.key, b"twosided") {
        return Some(Linedef {
            two_sided: truth(given)?,
            ..l
        });
    }
    if is_word(given.key, b"blocksound") {
        return Some(Linedef {
            blocks_sound: truth(given)?,
            ..l
        });
    }
    Some(l)
}

fn linedef_with(l: Linedef, given: &Given<'_>) -> Option<Linedef>
    ensures { result ≡ linedef_with_lem l (given_bytes given.now) }
{
    if is_word(given.key, b"v1") {
        return Some(Linedef {
            first: whole(given)?,
            ..l
        });
    }
    if is_word(given.key, b"v2") {
        return Some(Linedef {
            second: whole(given)?,
            ..l
        });
    }
    if is_word(given.key, b"special") {
        return Some(Linedef {
            special: whole(given)?,
            ..l
        });
    }
    sides_with(l, given)
}

fn sidedef_with(sector: i32, given: &Given<'_>) -> Option<i32>
    ensures { result ≡ sidedef_with_lem sector (given_bytes given.now) }
{
    if is_word(given.key, b"sector") {
        return whole(given);
    }
    Some(sector)
}

/// What a block tells with one more key that is given a value; None where the value isn't of the kind that the key takes.
pub fn block_with(block: Block, given: &Given<'_>) -> Option<Block>
    ensures { result ≡ block_with_lem block (given_bytes given.now) }
{
    match block {
        Block::Vertex(v) => Some(Block::Vertex(vertex_with(v, given)?)),
        Block::Linedef(l) => Some(Block::Linedef(linedef_with(l, given)?)),
        Block::Sidedef(sector) => Some(Block::Sidedef(sidedef_with(sector, given)?)),
        Block::Sector | Block::Other => Some(block),
    }
}
