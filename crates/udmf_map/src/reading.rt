//! What a text tells: the records of its blocks.

ghost use Rattle.std.specs.Prelude.{◌≡◌, None, Ok};
ghost use Rattle.udmf_text.specs.Parts.{given_bytes, part_bytes};
ghost use Rattle.udmf_map.specs.Reading.{AnswersText, read_of, nothing_read, namespace_of as namespace_of_lem, item_read, opens_read, outside_read, inside_read, gives_read, counted as counted_lem, closes_read, part_read, ended, text_read};

use crate::blocks::{Block, Linedef, Vertex, block_named, block_with};
use crate::faults::TextFault;
use crate::values::is_word;
use std::alloc::Global;
use udmf_text::{Given, Part, Stage, next_part};

/// The namespaces that are read.
#[derive(Clone, Copy)]
pub enum Namespace {
    Doom,
    Heretic,
    Strife,
    Hexen,
    Zdoom,
    Dsda,
}

/// The most sectors that are counted, more than a map may have.
const MOST_COUNTED: u32 = 65_536;

/// What has been read: whether an item has begun, the namespace, the block that is open, and the records of the blocks
/// that are closed, in order; sectors are counted, up to 65,536.
#[derive(Drop)]
pub struct Records {
    pub begun: bool,
    pub namespace: Option<Namespace>,
    pub block: Option<Block>,
    pub vertices: Vec<Vertex>,
    pub lines: Vec<Linedef>,
    pub sides: Vec<i32>,
    pub sectors: u32,
}

fn nothing(alloc: Global) -> Records
    ensures { read_of result ≡ nothing_read }
{
    Records {
        begun: false,
        namespace: None,
        block: None,
        vertices: Vec::new(alloc),
        lines: Vec::new(alloc),
        sides: Vec::new(alloc),
        sectors: 0,
    }
}

fn namespace_of(word: &[u8]) -> Option<Namespace>
    ensures { result ≡ namespace_of_lem word.now }
{
    if is_word(word, b"doom") {
        return Some(Namespace::Doom);
    }
    if is_word(word, b"heretic") {
        return Some(Namespace::Heretic);
    }
    if is_word(word, b"strife") {
        return Some(Namespace::Strife);
    }
    if is_word(word, b"hexen") {
        return Some(Namespace::Hexen);
    }
    if is_word(word, b"zdoom") {
        return Some(Namespace::Zdoom);
    }
    if is_word(word, b"dsda") {
        return Some(Namespace::Dsda);
    }
    None
}

/// The name of an item.
fn item(read: &mut Records, at: usize, name: &[u8]) -> Result<(), TextFault>
    ensures { AnswersText (λ _. read_of read.new) result (item_read (read_of read.old) at name.now) }
{
    if read.begun == is_word(name, b"namespace") {
        return Err(TextFault::Namespace { at });
    }
    read.begun = true;
    Ok(())
}

/// The block of an item is opened.
fn opened(read: &mut Records, at: usize, name: &[u8]) -> Result<(), TextFault>
    ensures { AnswersText (λ _. read_of read.new) result (opens_read (read_of read.old) at name.now) }
{
    if is_word(name, b"namespace") {
        return Err(TextFault::Text { at });
    }
    read.block = Some(block_named(name));
    Ok(())
}

/// A value outside of blocks.
fn outside(read: &mut Records, at: usize, given: &Given<'_>) -> Result<(), TextFault>
    ensures { AnswersText (λ _. read_of read.new) result (outside_read (read_of read.old) at (given_bytes given.now)) }
{
    if !is_word(given.key, b"namespace") {
        return Ok(());
    }
    if !given.quoted {
        return Err(TextFault::Value { at });
    }
    let Some(namespace) = namespace_of(given.value) else {
        return Err(TextFault::Namespace { at });
    };
    read.namespace = Some(namespace);
    Ok(())
}

/// A value in a block.
fn inside(read: &mut Records, block: Block, at: usize, given: &Given<'_>) -> Result<(), TextFault>
    ensures { AnswersText (λ _. read_of read.new) result (inside_read (read_of read.old) block at (given_bytes given.now)) }
{
    let Some(more) = block_with(block, given) else {
        return Err(TextFault::Value { at });
    };
    read.block = Some(more);
    Ok(())
}

/// A value.
fn gives(read: &mut Records, at: usize, given: &Given<'_>) -> Result<(), TextFault>
    ensures { AnswersText (λ _. read_of read.new) result (gives_read (read_of read.old) at (given_bytes given.now)) }
{
    match read.block {
        Some(block) => inside(read, block, at, given),
        None => outside(read, at, given),
    }
}

/// One sector more.
fn counted(sectors: u32) -> u32
    ensures { result ≡ counted_lem sectors }
{
    if sectors < MOST_COUNTED {
        return sectors + 1;
    }
    MOST_COUNTED
}

/// The block is closed.
fn closed(read: &mut Records) -> Result<(), TextFault>
    ensures { AnswersText (λ _. read_of read.new) result (Ok (closes_read (read_of read.old))) }
{
    match read.block {
        Some(Block::Vertex(v)) => read.vertices.push(v)?,
        Some(Block::Linedef(l)) => read.lines.push(l)?,
        Some(Block::Sidedef(sector)) => read.sides.push(sector)?,
        Some(Block::Sector) => read.sectors = counted(read.sectors),
        Some(Block::Other) | None => {}
    }
    read.block = None;
    Ok(())
}

/// One more part, whose token begins at this byte.
fn add(read: &mut Records, at: usize, part: &Part<'_>) -> Result<(), TextFault>
    ensures { AnswersText (λ _. read_of read.new) result (part_read (read_of read.old) at (part_bytes part.now)) }
{
    match *part {
        Part::Item(name) => item(read, at, name),
        Part::Opens(name) => opened(read, at, name),
        Part::Gives(given) => gives(read, at, &given),
        Part::Closes => closed(read),
    }
}

/// A text has an item at least.
fn is_begun(read: &Records, at: usize) -> Result<(), TextFault>
    ensures { AnswersText (λ _. read_of read.now) result (ended at (read_of read.now) None) }
{
    if read.begun {
        Ok(())
    } else {
        Err(TextFault::Namespace { at })
    }
}

/// Reads all parts of a text.
fn read_parts(read: &mut Records, text: &[u8]) -> Result<(), TextFault>
    requires { read_of read.old ≡ nothing_read }
    ensures { AnswersText (λ _. read_of read.new) result (text_read text.now) }
{
    let mut stage = Stage::Outside;
    let mut rest = text;
    loop {
        match next_part(stage, rest) {
            Ok(Some(found)) => {
                add(read, text.len().saturating_sub(found.left), &found.part)?;
                stage = found.stage;
                rest = found.rest;
            }
            Ok(None) => return is_begun(read, text.len()),
            Err(left) => {
                return Err(TextFault::Text {
                    at: text.len().saturating_sub(left),
                });
            }
        }
    }
}

/// What a text tells, or its first fault.
pub fn read_text(alloc: Global, text: &[u8]) -> Result<Records, TextFault>
    ensures { AnswersText read_of result (text_read text.now) }
{
    let mut read = nothing(alloc);
    read_parts(&mut read, text)?;
    Ok(read)
}
