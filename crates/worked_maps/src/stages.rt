//! What there is before a run and after it, in memory: files, calls that are to fail, and what was put.

use crate::files::{bytes_of, number};
use shelf_io::{Fails, File, MemShelf};
use std::alloc::{AllocError, Global};

/// A shelf, which of the puts to come are to fail, and what was put last.
#[derive(Drop)]
pub struct Stage {
    pub shelf: MemShelf,
    pub puts: Vec<u64>,
    pub text: Vec<u8>,
}

// What a line says that there is.
#[derive(Drop)]
struct Given {
    files: Vec<File>,
    fails: Fails,
    puts: Vec<u64>,
}

fn push_file(
    alloc: Global,
    files: &mut Vec<File>,
    name: &str,
    words: &str,
) -> Result<(), AllocError> {
    let bytes = bytes_of(alloc, words)?;
    let name = String::from_str(alloc, name)?;
    files.push(File { name, bytes })?;
    Ok(())
}

fn push_part(alloc: Global, given: &mut Given, part: &str) -> Result<(), AllocError> {
    let Some((name, value)) = part.trim().split_once('=') else {
        return Ok(());
    };
    match name {
        "reads" => given.fails.reads.push(number(value) as u64)?,
        "creates" => given.fails.creates.push(number(value) as u64)?,
        "appends" => given.fails.appends.push(number(value) as u64)?,
        "puts" => given.puts.push(number(value) as u64)?,
        _ => push_file(alloc, &mut given.files, name, value)?,
    }
    Ok(())
}

fn push_parts(alloc: Global, given: &mut Given, line: &str) -> Result<(), AllocError> {
    for part in line.split(',') {
        push_part(alloc, given, part)?;
    }
    Ok(())
}

/// The stage that a line of text gives. Its parts stand between commas, each a name, `=`, and a value: `reads`, `creates`,
/// `appends` and `puts` have the number of a call that is to fail, and under any other name stands the file of these words.
pub fn stage_of(alloc: Global, line: &str) -> Result<Stage, AllocError> {
    let mut given = Given {
        files: Vec::new(alloc),
        fails: Fails {
            reads: Vec::new(alloc),
            creates: Vec::new(alloc),
            appends: Vec::new(alloc),
        },
        puts: Vec::new(alloc),
    };
    push_parts(alloc, &mut given, line)?;
    Ok(Stage {
        shelf: MemShelf::new(alloc, given.files, given.fails),
        puts: given.puts,
        text: Vec::new(alloc),
    })
}

/// The words of a line, which stand between blanks.
pub fn words_in(alloc: Global, line: &str) -> Result<Vec<String>, AllocError> {
    let mut words = Vec::new(alloc);
    for word in line.split_whitespace() {
        words.push(String::from_str(alloc, word)?)?;
    }
    Ok(words)
}
