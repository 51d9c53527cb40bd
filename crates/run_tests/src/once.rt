//! How runs read their files: each from its front to its end, and once, so that a pipe will do.

use crate::faults::RUNS;
use listeners::Listener;
use shelf_io::{MemShelf, MemSink, SameFault, Shelf};
use sight_names::{Failed, ShelfFault};
use sight_run::{Hooks, NoNotice, run};
use sight_workers::OpenGate;
use std::alloc::{AllocError, Global};
use std::test::Fail;
use std::thread::Threads;
use worked_maps::rows::part;
use worked_maps::stages::{Stage, stage_of, words_in};

// A read: the file, by its one letter, the place where it began, and how many bytes it took.
#[derive(Clone, Copy)]
struct Read {
    file: u8,
    at: u64,
    taken: usize,
}

// Files in memory that note each read of a file that is there.
#[derive(Drop)]
struct NotingShelf {
    shelf: MemShelf,
    reads: Vec<Read>,
}

impl Shelf for NotingShelf {
    ghost use Rattle.shelf_io.specs.Fakes.{shelf_of};

    ghost state = { λ n. shelf_of n.shelf };

    fn read(&mut self, name: &str, at: u64, buf: &mut [u8]) -> Result<usize, ShelfFault> {
        let answer = self.shelf.read(name, at, buf);
        if let Ok(taken) = answer {
            let read = Read {
                file: name.as_bytes().first().copied().unwrap_or(0),
                at,
                taken,
            };
            // one that finds no memory is missing among them, which the test tells
            let _ = self.reads.push(read);
        }
        answer
    }

    fn create(&mut self, name: &str) -> Result<(), Failed> {
        self.shelf.create(name)
    }

    fn append(&mut self, name: &str, bytes: &[u8]) -> Result<(), Failed> {
        self.shelf.append(name, bytes)
    }

    fn settle(&mut self, name: &str) -> Result<(), Failed> {
        self.shelf.settle(name)
    }

    fn is_one_file(&mut self, one: &str, other: &str) -> Result<bool, SameFault> {
        self.shelf.is_one_file(one, other)
    }
}

// The reads of a row's run, in order.
fn reads_of<R: Threads + Sync>(rt: &R, alloc: Global, row: &str) -> Result<Vec<Read>, AllocError> {
    let Stage { shelf, .. } = stage_of(alloc, part(row, 0))?;
    let words = words_in(alloc, part(row, 1))?;
    let mut shelf = NotingShelf {
        shelf,
        reads: Vec::new(alloc),
    };
    let mut out = MemSink::new(alloc, Vec::new(alloc));
    let mut none: Vec<Box<dyn Listener>> = Vec::new(alloc);
    let hooks = Hooks {
        gate: &OpenGate,
        watcher: None,
    };
    let _ = run(
        rt, alloc, &words, &mut shelf, &mut out, &mut none, &hooks, &NoNotice,
    );
    Ok(shelf.reads)
}

// Whether the reads of this file go from its front to its end, each from where the one before it ended, and then no further.
fn is_one_pass(reads: &[Read], file: u8) -> bool {
    let mut place = Some(0u64);
    for read in reads {
        if read.file == file {
            if place != Some(read.at) {
                return false;
            }
            place = match read.taken {
                0 => None,
                taken => Some(read.at.saturating_add(taken as u64)),
            };
        }
    }
    place.is_none()
}

// Whether a row's run reads the files that the row names, as often as it names them, and each in one pass.
fn reads_once<R: Threads + Sync>(rt: &R, alloc: Global, row: &str) -> Result<bool, AllocError> {
    let reads = reads_of(rt, alloc, row)?;
    for name in part(row, 3).split_whitespace() {
        if !is_one_pass(&reads, name.as_bytes().first().copied().unwrap_or(0)) {
            return Ok(false);
        }
    }
    Ok(reads.len() == part(row, 3).split_whitespace().count())
}

#[test]
fn each_file_is_read_once_from_its_front_to_its_end(rt: HostRuntime) -> Result<(), Fail> {
    for row in RUNS.lines() {
        if !row.starts_with('#') && !reads_once(&rt, rt.alloc(), row)? {
            return Err(row.into());
        }
    }
    Ok(())
}
