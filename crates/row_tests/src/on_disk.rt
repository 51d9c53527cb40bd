//! Runs over real files, each beside a run over the same files in memory.

use crate::table::{push_listeners, ran};
use listeners::Listener;
use shelf_io::{DiskShelf, MemShelf, MemSink, Shelf};
use sight_run::{NoNotice, code};
use std::alloc::{AllocError, Global};
use std::rt::Files;
use std::test::Fail;
use std::thread::Threads;
use std::{fs, io};
use worked_maps::rows::part;
use worked_maps::stages::stage_of;

/// What stands under `a.tmp`, the words, and the exit code. After them each name has to have what it has in memory. Where the
/// code is 11, two names are one real file, which memory can't say: then all has to be as before.
const RUNS: &str = "\
U | zero a.tmp MAP01 b.tmp | 0
U | build a.tmp MAP01 b.tmp --cert c.tmp --report r.tmp --workers 1 | 0
U | build a.tmp MAP01 b.tmp --exact --report r.tmp --cert c.tmp --workers 1 | 0
PAIR U .6 - +6:MAP02 | all a.tmp b.tmp --report r.tmp --workers 1 | 0
U =4600 | verify a.tmp --report r.tmp --workers 1 | 1
U | verify a.tmp --report ./a.tmp | 11
U =4400 | maps a.tmp --report r.tmp | 0
U | maps a.tmp --report ./a.tmp | 11
U | draw a.tmp MAP01 p.tmp | 0
U =4400 | draw a.tmp MAP01 p.tmp 0 | 0
OPEN | build a.tmp MAP01 b.tmp --cert c.tmp --report r.tmp | 10
U | zero a.tmp MAP01 ./a.tmp | 11
U | check a.tmp MAP01 ./a.tmp | 11
U | draw a.tmp MAP01 ./a.tmp | 11
U | build a.tmp MAP01 ./a.tmp | 11
U | build a.tmp MAP01 b.tmp --cert ./a.tmp | 11
U | build a.tmp MAP01 b.tmp --report ./a.tmp | 11
U | build a.tmp MAP01 b.tmp --cert ./b.tmp | 11
U | build a.tmp MAP01 b.tmp --report ./b.tmp | 11
U | build a.tmp MAP01 b.tmp --cert c.tmp --report ./c.tmp | 11
U | all a.tmp ./a.tmp | 11
U | all a.tmp b.tmp --report ./a.tmp | 11
U | all a.tmp b.tmp --report ./b.tmp | 11
";

const NAMES: [&str; 5] = ["a.tmp", "b.tmp", "c.tmp", "r.tmp", "p.tmp"];

// The exit code of the words over a shelf.
fn code_of<R: Threads + Sync, S: Shelf>(
    rt: &R,
    alloc: Global,
    words: &str,
    shelf: &mut S,
) -> Result<u8, AllocError> {
    let mut out = MemSink::new(alloc, Vec::new(alloc));
    let mut listeners: Vec<Box<dyn Listener>> = Vec::new(alloc);
    push_listeners(alloc, &mut listeners)?;
    let status = ran(rt, alloc, words, shelf, &mut out, &mut listeners, &NoNotice)?;
    Ok(code(&status))
}

// Whether a real file is as it is in memory; also where there is none. It is removed then.
fn is_alike<R: Files + AllocGlobal>(rt: &R, name: &str, wanted: Option<&[u8]>) -> io::Result<bool> {
    if !fs::exists(rt, name)? {
        return Ok(wanted.is_none());
    }
    let bytes = fs::read(rt, name)?;
    fs::remove_file(rt, name)?;
    Ok(wanted == Some(bytes.as_slice()))
}

// Whether each real file is so.
fn are_alike<R: Files + AllocGlobal>(rt: &R, shelf: &MemShelf) -> io::Result<bool> {
    for name in NAMES {
        if !is_alike(rt, name, shelf.bytes(name))? {
            return Ok(false);
        }
    }
    Ok(true)
}

// Whether the words end with the row's code over real files, and over files in memory too.
fn has_code<R: Files + Print + Threads + Sync + AllocGlobal>(
    rt: &R,
    alloc: Global,
    row: &str,
    shelf: &mut MemShelf,
) -> Result<bool, AllocError> {
    let words = part(row, 1);
    let found = code_of(rt, alloc, words, &mut DiskShelf::new(rt))?;
    if part(row, 2).parse::<u8>() != Ok(found) {
        return Ok(false);
    }
    Ok(found == 11 || code_of(rt, alloc, words, shelf)? == found)
}

// Whether a row's run over real files leaves what the same over files in memory does.
fn is_right<R: Files + Print + Threads + Sync + AllocGlobal>(
    rt: &R,
    alloc: Global,
    row: &str,
) -> Result<bool, Fail> {
    let mut stage = stage_of(alloc, &format!(in alloc; "a.tmp={}", part(row, 0))?)?;
    fs::write(rt, "a.tmp", stage.shelf.bytes("a.tmp").unwrap_or(&[]))?;
    Ok(has_code(rt, alloc, row, &mut stage.shelf)? && are_alike(rt, &stage.shelf)?)
}

#[test]
fn real_files_become_what_files_in_memory_do(rt: HostRuntime) -> Result<(), Fail> {
    for row in RUNS.lines() {
        if !is_right(&rt, rt.alloc(), row)? {
            return Err(row.into());
        }
    }
    Ok(())
}
