//! How a row is run. A row has up to five parts between bars: what there is, the words, the exit code, the line, and what
//! stands under some names after it. Where the first part is empty, the run goes on with what the row before left.

use listeners::{Lines, Listener, Totals};
use shelf_io::{MemSink, Shelf};
use sight_run::{Hooks, NoNotice, Notice, Status, code, run};
use sight_workers::OpenGate;
use std::alloc::{AllocError, Global};
use std::test::Fail;
use std::thread::Threads;
use worked_maps::files::bytes_of;
use worked_maps::rows::part;
use worked_maps::stages::{Stage, stage_of, words_in};

/// Runs the words of a line. It says nothing of what `run` promises, so that the proof of no test carries that along.
pub fn ran<R: Threads + Sync, S: Shelf, N: Notice>(
    rt: &R,
    alloc: Global,
    line: &str,
    shelf: &mut S,
    out: &mut MemSink,
    listeners: &mut Vec<Box<dyn Listener>>,
    notice: &N,
) -> Result<Status, AllocError> {
    let words = words_in(alloc, line)?;
    let hooks = Hooks {
        gate: &OpenGate,
        watcher: None,
    };
    Ok(run(rt, alloc, &words, shelf, out, listeners, &hooks, notice))
}

// Whether a line was put. `=` is the line that was put before; two dots stand for anything; a line that ends in `~` isn't
// ended.
fn is_line(text: &[u8], before: &[u8], line: &str) -> bool {
    if line == "=" {
        return text == before;
    }
    if let Some(front) = line.strip_suffix('~') {
        return text == front.as_bytes();
    }
    let Some(said) = text.strip_suffix(b"\n") else {
        return false;
    };
    match line.split_once("..") {
        Some((front, back)) => {
            said.starts_with(front.as_bytes()) && said.ends_with(back.as_bytes())
        }
        None => said == line.as_bytes(),
    }
}

// Whether what stands under the name is the file of these words, and without words whether there is none. Behind the name `<` says how
// the file begins, `>` how it ends.
fn is_file(alloc: Global, stage: &Stage, name: &str, words: &str) -> Result<bool, AllocError> {
    let file = bytes_of(alloc, words)?;
    let is_right = if let Some(name) = name.strip_suffix('<') {
        stage
            .shelf
            .bytes(name)
            .is_some_and(|bytes| bytes.starts_with(&file))
    } else if let Some(name) = name.strip_suffix('>') {
        stage
            .shelf
            .bytes(name)
            .is_some_and(|bytes| bytes.ends_with(&file))
    } else if words.is_empty() {
        stage.shelf.bytes(name).is_none()
    } else {
        stage.shelf.bytes(name) == Some(file.as_slice())
    };
    Ok(is_right)
}

// Whether what stands under the names is what a row says, each name before `=` and words.
fn has_files(alloc: Global, stage: &Stage, wanted: &str) -> Result<bool, AllocError> {
    for part in wanted.split(',') {
        if let Some((name, words)) = part.trim().split_once('=') {
            if !is_file(alloc, stage, name, words)? {
                return Ok(false);
            }
        }
    }
    Ok(true)
}

/// Adds lines and totals, who have heard nothing.
pub fn push_listeners(
    alloc: Global,
    listeners: &mut Vec<Box<dyn Listener>>,
) -> Result<(), AllocError> {
    listeners.push(Box::new(alloc, Lines::new(alloc))?)?;
    listeners.push(Box::new(alloc, Totals::new(alloc))?)?;
    Ok(())
}

// Runs the words of a line on the stage, with the listeners of a report.
fn run_line<R: Threads + Sync>(
    rt: &R,
    alloc: Global,
    stage: &mut Stage,
    line: &str,
) -> Result<Status, AllocError> {
    let mut listeners: Vec<Box<dyn Listener>> = Vec::new(alloc);
    push_listeners(alloc, &mut listeners)?;
    let mut out = MemSink::new(alloc, stage.puts.clone()?);
    let status = ran(
        rt,
        alloc,
        line,
        &mut stage.shelf,
        &mut out,
        &mut listeners,
        &NoNotice,
    )?;
    stage.text = out.held().to_vec(alloc)?;
    Ok(status)
}

// What of a run isn't as the row says; nothing where all is.
fn wrong_of(
    alloc: Global,
    stage: &Stage,
    before: &[u8],
    row: &str,
    status: &Status,
) -> Result<&'static str, AllocError> {
    if part(row, 2).parse::<u8>() != Ok(code(status)) {
        return Ok("code");
    }
    if !is_line(&stage.text, before, part(row, 3)) {
        return Ok("line");
    }
    if !has_files(alloc, stage, part(row, 4))? {
        return Ok("files");
    }
    Ok("")
}

// Runs a row on the stage, and says what isn't as it has to be; nothing where all is.
fn wrong_part<R: Threads + Sync>(
    rt: &R,
    alloc: Global,
    stage: &mut Stage,
    row: &str,
) -> Result<&'static str, AllocError> {
    if !part(row, 0).is_empty() {
        *stage = stage_of(alloc, part(row, 0))?;
    }
    let before = stage.text.clone()?;
    let status = run_line(rt, alloc, stage, part(row, 1))?;
    wrong_of(alloc, stage, &before, row, &status)
}

// The same of the first row that doesn't come out as it says, with that row and the text.
fn first_wrong_on<R: Threads + Sync>(
    rt: &R,
    alloc: Global,
    stage: &mut Stage,
    rows: &str,
) -> Result<String, AllocError> {
    for row in rows.lines() {
        if row.is_empty() || row.starts_with('#') {
            continue;
        }
        let wrong = wrong_part(rt, alloc, stage, row)?;
        if !wrong.is_empty() {
            let text = str::from_utf8(&stage.text).unwrap_or("no text");
            return format!(in alloc; "{wrong} of: {row}: {text}");
        }
    }
    Ok(String::new(alloc))
}

/// What is wrong with the first row that doesn't come out as it says, empty where all do. Lines that begin with `#` and
/// empty ones are no rows.
pub fn first_wrong<R: Threads + Sync>(
    rt: &R,
    alloc: Global,
    rows: &str,
) -> Result<String, AllocError> {
    let mut stage = stage_of(alloc, "")?;
    first_wrong_on(rt, alloc, &mut stage, rows)
}

/// Whether each row comes out as it says; else the first that doesn't is the fault, with what is wrong.
pub fn hold<R: Threads + Sync>(rt: &R, alloc: Global, rows: &str) -> Result<(), Fail> {
    let wrong = first_wrong(rt, alloc, rows)?;
    if wrong.is_empty() {
        Ok(())
    } else {
        Err(wrong.into())
    }
}
