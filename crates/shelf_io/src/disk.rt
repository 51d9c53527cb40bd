//! Real files and the standard output. Both count what fails, and tell nothing of what they hold. The
//! files tell which of them are begun.

ghost use Rattle.std.specs.Prelude.{◌≡◌, ◌≤◌, [], length, map, string_bytes, IfOk, OnErr, OnOk};
ghost use Rattle.shelf_io.specs.Shelf.{Rose, ShelfState};
ghost use Rattle.shelf_io.specs.Sink.{SinkState};

use crate::begun::{Begun, append, begin, discard, read_begun, settle};
use crate::place::names_one_file;
use crate::refused::memory_in;
use crate::shelf::{SameFault, Shelf, Sink};
use sight_names::{Failed, ShelfFault};
use std::alloc::Global;
use std::io::{ErrorKind, Read, Seek, SeekFrom, Write};
use std::rt::Files;
use std::{fs, io};

/// The files of the machine. What is created is written to a new file beside its place, which takes the place when it is
/// settled: the name then has the whole new file, and up to then the old one. Links to the place stay. A device, a
/// pipe, or an open file by the system's own name for it is written as it stands. What is created under `-` or under
/// `/dev/stdout` goes to the standard output, behind what was put there.
///
/// The folder of what is created has to be writable. A name of a new file is `.NAME.doomsight-K`; where the program is
/// killed one may be left. Names are kept in memory: where there is none for them, the call ends by its fault of reading
/// or writing.
#[derive(Drop)]
pub struct DiskShelf<R: Files> {
    rt: R,
    begun: Vec<Begun<R::File>>,
    reading: Option<Reading<R::File>>,
    refusal: Option<DiskRefusal>,
    read_faults: u64,
    write_faults: u64,
    absents: u64,
}

/// A file that the system refused to read or to write, and why.
#[derive(Drop)]
pub struct DiskRefusal {
    pub name: String,
    pub error: io::Error,
}

// The file that was read last, and up to where.
#[derive(Drop)]
struct Reading<F: Drop> {
    name: String,
    file: F,
    at: u64,
}

/// Whether what is written under a name goes to the standard output.
pub fn is_standard_output(name: &str) -> bool {
    name == "-" || name == "/dev/stdout"
}

// A file that is opened under the name of the standard output would have a place of its own in a log that is written there,
// and cut off or write over what the log holds.
fn print<R: Print>(rt: &R, bytes: &[u8]) -> io::Result<()> {
    let mut out = io::writer(rt);
    out.write_all(bytes)?;
    out.flush()
}

impl<R: Files + Print + AllocGlobal> DiskShelf<R> {
    /// The files of this runtime, with nothing counted.
    pub fn new(rt: R) -> DiskShelf<R>
        ensures { ⟦<DiskShelf<R> as Shelf>⟧.state result ≡ record { files = None; begun = []; read_faults = 0; write_faults = 0; absents = 0 } }
    {
        let begun = Vec::new(rt.alloc());
        DiskShelf {
            rt,
            begun,
            reading: None,
            refusal: None,
            read_faults: 0,
            write_faults: 0,
            absents: 0,
        }
    }

    /// Removes what was created and isn't settled. A new file that can't be removed stays.
    pub fn discard(&mut self)
        ensures { ⟦<DiskShelf<R> as Shelf>⟧.state self.new ≡ record (⟦<DiskShelf<R> as Shelf>⟧.state self.old) { begun = [] } }
    {
        discard(&self.rt, &mut self.begun);
    }

    /// The last refusal of a file by its name; none too where there was no memory for its name.
    pub fn last_refusal(&self) -> &Option<DiskRefusal> {
        &self.refusal
    }
}

fn refusal_of(alloc: Global, name: &str, error: io::Error) -> Option<DiskRefusal> {
    match String::from_str(alloc, name) {
        Ok(name) => Some(DiskRefusal { name, error }),
        Err(_) => None,
    }
}

fn opened<R: Files + AllocGlobal>(rt: &R, name: &str) -> io::Result<Reading<R::File>> {
    Ok(Reading {
        file: fs::open(rt, name)?,
        name: String::from_str(rt.alloc(), name)?,
        at: 0,
    })
}

// Goes on where the last read ended, if that is the place, so that a pipe can be read.
fn read_on<F: Read + Seek + Drop>(
    reading: &mut Reading<F>,
    at: u64,
    buf: &mut [u8],
) -> io::Result<usize>
    ensures { IfOk result (λ k. k ≤ length buf.old) }
{
    if reading.at != at {
        reading.file.seek(SeekFrom::Start(at))?;
    }
    let taken = reading.file.read(buf)?;
    reading.at = at.saturating_add(taken as u64);
    Ok(taken)
}

// The file stays open for the next read, unless this one fails.
fn read_named<R: Files + AllocGlobal>(
    rt: &R,
    kept: &mut Option<Reading<R::File>>,
    name: &str,
    at: u64,
    buf: &mut [u8],
) -> io::Result<usize>
    ensures { IfOk result (λ k. k ≤ length buf.old) }
{
    let mut reading = match kept.take() {
        // At the beginning another file may stand under the name by now.
        Some(reading) if at > 0 && reading.name.as_str() == name => reading,
        _ => opened(rt, name)?,
    };
    let taken = read_on(&mut reading, at, buf)?;
    *kept = Some(reading);
    Ok(taken)
}

fn read_any<R: Files + AllocGlobal>(
    rt: &R,
    begun: &mut [Begun<R::File>],
    kept: &mut Option<Reading<R::File>>,
    name: &str,
    at: u64,
    buf: &mut [u8],
) -> io::Result<usize>
    ensures within { IfOk result (λ k. k ≤ length buf.old) }
    ensures begun { map (λ b. string_bytes b.name) begun.new ≡ map (λ b. string_bytes b.name) begun.old }
{
    match read_begun(begun, name, at, buf) {
        Some(read) => read,
        None => read_named(rt, kept, name, at, buf),
    }
}

// What a call that writes under the name answers, with its fault counted and kept.
fn counted(
    alloc: Global,
    faults: &mut u64,
    refusal: &mut Option<DiskRefusal>,
    name: &str,
    written: io::Result<()>,
) -> Result<(), Failed>
    ensures counts { faults.old ≤ faults.new }
    ensures quiet { OnOk result (faults.new ≡ faults.old) }
    ensures cause { OnErr result (Rose faults.old faults.new) }
{
    let Err(error) = written else {
        return Ok(());
    };
    *faults = faults.saturating_add(1);
    *refusal = refusal_of(alloc, name, error);
    Err(Failed)
}

impl<R: Files + Print + AllocGlobal> Shelf for DiskShelf<R> {
    ghost use Rattle.std.specs.Prelude.{None, map, string_bytes};
    ghost use Rattle.shelf_io.specs.Shelf.{ShelfState};

    ghost state = { λ d. record { files = None; begun = map (λ b. string_bytes b.name) d.begun.items; read_faults = d.read_faults; write_faults = d.write_faults; absents = d.absents } };

    fn read(&mut self, name: &str, at: u64, buf: &mut [u8]) -> Result<usize, ShelfFault> {
        match read_any(&self.rt, &mut self.begun, &mut self.reading, name, at, buf) {
            Ok(taken) => Ok(taken),
            Err(error) => {
                self.refusal = refusal_of(self.rt.alloc(), name, error);
                if error.kind() == ErrorKind::NotFound {
                    self.absents = self.absents.saturating_add(1);
                    return Err(ShelfFault::Absent);
                }
                self.read_faults = self.read_faults.saturating_add(1);
                Err(ShelfFault::Failed)
            }
        }
    }

    fn create(&mut self, name: &str) -> Result<(), Failed> {
        self.reading = None;
        if is_standard_output(name) {
            return Ok(());
        }
        let begun = begin(&self.rt, &mut self.begun, name);
        counted(
            self.rt.alloc(),
            &mut self.write_faults,
            &mut self.refusal,
            name,
            begun,
        )
    }

    fn append(&mut self, name: &str, bytes: &[u8]) -> Result<(), Failed> {
        let added = if is_standard_output(name) {
            print(&self.rt, bytes)
        } else {
            append(&self.rt, &mut self.begun, name, bytes)
        };
        counted(
            self.rt.alloc(),
            &mut self.write_faults,
            &mut self.refusal,
            name,
            added,
        )
    }

    fn settle(&mut self, name: &str) -> Result<(), Failed> {
        self.reading = None;
        let settled = settle(&self.rt, &mut self.begun, name);
        counted(
            self.rt.alloc(),
            &mut self.write_faults,
            &mut self.refusal,
            name,
            settled,
        )
    }

    fn is_one_file(&mut self, one: &str, other: &str) -> Result<bool, SameFault> {
        if is_standard_output(one) && is_standard_output(other) {
            return Ok(true);
        }
        match names_one_file(&self.rt, one, other) {
            Ok(is_one) => Ok(is_one),
            Err(error) => match memory_in(&error) {
                Some(memory) => Err(SameFault::Memory(memory)),
                None => {
                    self.refusal = refusal_of(self.rt.alloc(), other, error);
                    self.read_faults = self.read_faults.saturating_add(1);
                    Err(SameFault::Failed)
                }
            },
        }
    }
}

/// The standard output.
#[derive(Drop)]
pub struct StdSink<R: Print> {
    rt: R,
    faults: u64,
}

impl<R: Print> StdSink<R> {
    /// The standard output of this runtime, with nothing counted.
    pub fn new(rt: R) -> StdSink<R>
        ensures { ⟦<StdSink<R> as Sink>⟧.state result ≡ record { held = None; faults = 0 } }
    {
        StdSink { rt, faults: 0 }
    }
}

impl<R: Print> Sink for StdSink<R> {
    ghost use Rattle.std.specs.Prelude.{None};
    ghost use Rattle.shelf_io.specs.Sink.{SinkState};

    ghost state = { λ s. record { held = None; faults = s.faults } };

    fn put(&mut self, bytes: &[u8]) -> Result<(), Failed> {
        let mut out = io::writer(&self.rt);
        if out.write_all(bytes).is_err() || out.flush().is_err() {
            self.faults = self.faults.saturating_add(1);
            return Err(Failed);
        }
        Ok(())
    }
}
