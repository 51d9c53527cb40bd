//! A shelf and a sink in memory, whose calls fail where a test says so.

ghost use Rattle.std.specs.Prelude.{◌≡◌, ◌≤◌, ◌<◌, ◌-◌, ◌∷◌, ◌++◌, ◌/◌, take, if◌then◌else◌, min, [], OnOk, OnErr, IfOk, IfSome, IsTrue, length, Ok, Some};
ghost use Rattle.std.specs.Option.{option_map, option_copied};
ghost use Rattle.std.specs.Str.{bytes_eq};
ghost use Rattle.shelf_io.specs.Shelf.{Files, IsReadAt, put, append_to, ReadsFile, ReadCause, SameCause, Rose, NoneFell, SameCounts, MayBeEmpty, MayHaveFront, BeginsAmong, NoneBegun};
ghost use Rattle.shelf_io.specs.Sink.{HasFront};
ghost use Rattle.shelf_io.specs.Fakes.{files_of, place_in_files, files_in, shelf_of, fails_of, calls_of, starved_of, is_call_listed, next, read_answer, CreatesIn, AppendsIn, held_in, sink_of, failing_puts, puts_of, sink_starved, PutsIn};

use crate::shelf::{SameFault, Shelf, Sink};
use sight_names::{Failed, ShelfFault};
use std::alloc::{AllocError, Global};

/// A name and what stands under it.
#[derive(Drop)]
pub struct File {
    pub name: String,
    pub bytes: Vec<u8>,
}

/// Which calls are to fail, each kind numbered from 0.
#[derive(Drop)]
pub struct Fails {
    pub reads: Vec<u64>,
    pub creates: Vec<u64>,
    pub appends: Vec<u64>,
}

/// Files in memory.
#[derive(Drop)]
pub struct MemShelf {
    alloc: Global,
    files: Vec<File>,
    fails: Fails,
    reads: u64,
    creates: u64,
    appends: u64,
    read_faults: u64,
    write_faults: u64,
    absents: u64,
    starved: u64,
}

fn place_of(files: &[File], name: &str) -> Option<usize>
    ensures place { result ≡ place_in_files files.now name.now }
    ensures within { IfSome result (λ i. i < length files.now) }
{
    for (i, file) in files.iter().enumerate() {
        if file.name.as_str() == name {
            return Some(i);
        }
    }
    None
}

fn bytes_of<'a>(files: &'a [File], name: &str) -> Option<&'a [u8]>
    ensures { option_copied result ≡ files_of files.now name.now }
{
    for file in files {
        if file.name.as_str() == name {
            return Some(&file.bytes);
        }
    }
    None
}

// Copies what the file has from that place on, as far as the buffer reaches.
fn copy_at(file: &[u8], at: u64, buf: &mut [u8]) -> usize
    ensures read { IsReadAt file.now at buf.old buf.new result }
    ensures full { result ≡ min (length buf.old) (length file.now - at) }
{
    if at >= file.len() as u64 {
        return 0;
    }
    let left = &file[at as usize..];
    let taken = buf.len().min(left.len());
    buf[..taken].copy_from_slice(&left[..taken]);
    taken
}

fn make_empty(alloc: Global, files: &mut Vec<File>, name: &str) -> Result<(), AllocError>
    ensures ok { OnOk result (files_of files.new.items ≡ put (files_of files.old.items) name.now []) }
    ensures err { OnErr result (files.new.items ≡ files.old.items) }
{
    match place_of(files, name) {
        Some(place) => files[place].bytes.clear(),
        None => {
            let name = String::from_str(alloc, name)?;
            files.push(File {
                name,
                bytes: Vec::new(alloc),
            })?;
        }
    }
    Ok(())
}

fn extend(alloc: Global, files: &mut Vec<File>, name: &str, more: &[u8]) -> Result<(), AllocError>
    ensures ok { OnOk result (files_of files.new.items ≡ append_to (files_of files.old.items) name.now more.now) }
    ensures err { OnErr result (files_of files.new.items ≡ files_of files.old.items) }
{
    match place_of(files, name) {
        Some(place) => files[place].bytes.extend_from_slice(more)?,
        None => {
            let name = String::from_str(alloc, name)?;
            let bytes = Vec::from_slice(alloc, more)?;
            files.push(File { name, bytes })?;
        }
    }
    Ok(())
}

// What a call takes of its piece: the first half where it is to fail.
fn piece_taken(bytes: &[u8], fails: bool) -> &[u8]
    ensures { result.now ≡ (if fails then take (length bytes.now / 2) bytes.now else bytes.now) }
{
    if fails {
        &bytes[..bytes.len() / 2]
    } else {
        bytes
    }
}

impl MemShelf {
    /// A shelf with these files, of whose calls the listed ones fail.
    pub fn new(alloc: Global, files: Vec<File>, fails: Fails) -> MemShelf
        ensures shows { shelf_of result ≡ record { files = Some (files_of files.items); begun = []; read_faults = 0; write_faults = 0; absents = 0 } }
        ensures fails { fails_of result ≡ fails }
        ensures calls { calls_of result ≡ record { reads = 0; creates = 0; appends = 0 } }
        ensures starved { starved_of result ≡ 0 }
    {
        MemShelf {
            alloc,
            files,
            fails,
            reads: 0,
            creates: 0,
            appends: 0,
            read_faults: 0,
            write_faults: 0,
            absents: 0,
            starved: 0,
        }
    }

    /// What stands under a name.
    pub fn bytes(&self, name: &str) -> Option<&[u8]>
        ensures { option_copied result ≡ files_in self.now name.now }
    {
        bytes_of(&self.files, name)
    }
}

impl Shelf for MemShelf {
    ghost use Rattle.shelf_io.specs.Fakes.{shelf_of};

    ghost state = { shelf_of };

    fn read(&mut self, name: &str, at: u64, buf: &mut [u8]) -> Result<usize, ShelfFault>
        ensures within { IfOk result (λ k. k ≤ length buf.old) }
        ensures told { (files : Files) → (shelf_of self.old).files ≡ Some files → ReadsFile (files name.now) at buf.old buf.new result }
        ensures files { (shelf_of self.new).files ≡ (shelf_of self.old).files }
        ensures begun { (shelf_of self.new).begun ≡ (shelf_of self.old).begun }
        ensures counts { NoneFell (shelf_of self.old) (shelf_of self.new) }
        ensures cause { ReadCause (shelf_of self.old) (shelf_of self.new) result }
        // Beyond what any shelf does: which reads fail, and how much the others read.
        ensures answer { result ≡ read_answer (is_call_listed (calls_of self.old).reads (fails_of self.old).reads.items) (files_in self.old name.now) at (length buf.old) }
        ensures counted { calls_of self.new ≡ record (calls_of self.old) { reads = next (calls_of self.old).reads } }
        ensures fails { fails_of self.new ≡ fails_of self.old }
        ensures starved { starved_of self.new ≡ starved_of self.old }
    {
        let call = self.reads;
        self.reads = call.saturating_add(1);
        let Some(file) = bytes_of(&self.files, name) else {
            self.absents = self.absents.saturating_add(1);
            return Err(ShelfFault::Absent);
        };
        if self.fails.reads.contains(&call) {
            self.read_faults = self.read_faults.saturating_add(1);
            return Err(ShelfFault::Failed);
        }
        Ok(copy_at(file, at, buf))
    }

    fn create(&mut self, name: &str) -> Result<(), Failed>
        ensures made { OnOk result ((shelf_of self.new).files ≡ option_map (λ files. put files name.now []) (shelf_of self.old).files) }
        ensures failed { OnErr result (MayBeEmpty (shelf_of self.old).files (shelf_of self.new).files name.now) }
        ensures begun { BeginsAmong (shelf_of self.old).begun (shelf_of self.new).begun (name.now ∷ []) }
        ensures counts { NoneFell (shelf_of self.old) (shelf_of self.new) }
        ensures quiet { OnOk result (SameCounts (shelf_of self.old) (shelf_of self.new)) }
        ensures cause { OnErr result (Rose (shelf_of self.old).write_faults (shelf_of self.new).write_faults) }
        // Beyond what any shelf does: which creates fail.
        ensures answer { CreatesIn (is_call_listed (calls_of self.old).creates (fails_of self.old).creates.items) self.old self.new result }
        ensures counted { calls_of self.new ≡ record (calls_of self.old) { creates = next (calls_of self.old).creates } }
        ensures fails { fails_of self.new ≡ fails_of self.old }
    {
        let call = self.creates;
        self.creates = call.saturating_add(1);
        if self.fails.creates.contains(&call) {
            self.write_faults = self.write_faults.saturating_add(1);
            return Err(Failed);
        }
        if make_empty(self.alloc, &mut self.files, name).is_err() {
            self.starved = self.starved.saturating_add(1);
            self.write_faults = self.write_faults.saturating_add(1);
            return Err(Failed);
        }
        Ok(())
    }

    fn append(&mut self, name: &str, bytes: &[u8]) -> Result<(), Failed>
        ensures added { OnOk result ((shelf_of self.new).files ≡ option_map (λ files. append_to files name.now bytes.now) (shelf_of self.old).files) }
        ensures failed { OnErr result (MayHaveFront (shelf_of self.old).files (shelf_of self.new).files name.now bytes.now) }
        ensures begun { BeginsAmong (shelf_of self.old).begun (shelf_of self.new).begun (name.now ∷ []) }
        ensures counts { NoneFell (shelf_of self.old) (shelf_of self.new) }
        ensures quiet { OnOk result (SameCounts (shelf_of self.old) (shelf_of self.new)) }
        ensures cause { OnErr result (Rose (shelf_of self.old).write_faults (shelf_of self.new).write_faults) }
        // Beyond what any shelf does: which appends fail, and what they take.
        ensures answer { AppendsIn (is_call_listed (calls_of self.old).appends (fails_of self.old).appends.items) self.old self.new name.now bytes.now result }
        ensures counted { calls_of self.new ≡ record (calls_of self.old) { appends = next (calls_of self.old).appends } }
        ensures fails { fails_of self.new ≡ fails_of self.old }
    {
        let call = self.appends;
        self.appends = call.saturating_add(1);
        let fails = self.fails.appends.contains(&call);
        let piece = piece_taken(bytes, fails);
        let starves = extend(self.alloc, &mut self.files, name, piece).is_err();
        if starves {
            self.starved = self.starved.saturating_add(1);
        }
        if fails || starves {
            self.write_faults = self.write_faults.saturating_add(1);
            return Err(Failed);
        }
        Ok(())
    }

    fn settle(&mut self, name: &str) -> Result<(), Failed>
        ensures files { (shelf_of self.new).files ≡ (shelf_of self.old).files }
        ensures begun { BeginsAmong (shelf_of self.old).begun (shelf_of self.new).begun [] }
        ensures settled { OnOk result (NoneBegun (shelf_of self.new).begun (name.now ∷ [])) }
        ensures counts { NoneFell (shelf_of self.old) (shelf_of self.new) }
        ensures quiet { OnOk result (SameCounts (shelf_of self.old) (shelf_of self.new)) }
        ensures cause { OnErr result (Rose (shelf_of self.old).write_faults (shelf_of self.new).write_faults) }
        // Beyond what any shelf does: nothing changes.
        ensures stays { self.new ≡ self.old }
    {
        Ok(())
    }

    fn is_one_file(&mut self, one: &str, other: &str) -> Result<bool, SameFault>
        ensures told { (files : Files) → (shelf_of self.old).files ≡ Some files → IfOk result (λ is_one. is_one ≡ bytes_eq one.now other.now) }
        ensures equal { IfOk result (λ is_one. IsTrue (bytes_eq one.now other.now) → IsTrue is_one) }
        ensures files { (shelf_of self.new).files ≡ (shelf_of self.old).files }
        ensures begun { (shelf_of self.new).begun ≡ (shelf_of self.old).begun }
        ensures counts { NoneFell (shelf_of self.old) (shelf_of self.new) }
        ensures cause { SameCause (shelf_of self.old) (shelf_of self.new) result }
        // Beyond what any shelf does: there is always an answer, and nothing changes.
        ensures answer { result ≡ Ok (bytes_eq one.now other.now) }
        ensures stays { self.new ≡ self.old }
    {
        Ok(one == other)
    }
}

/// Text in memory.
#[derive(Drop)]
pub struct MemSink {
    held: Vec<u8>,
    fails: Vec<u64>,
    puts: u64,
    faults: u64,
    starved: u64,
}

impl MemSink {
    /// An empty sink, of whose puts the listed ones fail.
    pub fn new(alloc: Global, fails: Vec<u64>) -> MemSink
        ensures shows { sink_of result ≡ record { held = Some []; faults = 0 } }
        ensures fails { failing_puts result ≡ fails.items }
        ensures puts { puts_of result ≡ 0 }
        ensures starved { sink_starved result ≡ 0 }
    {
        MemSink {
            held: Vec::new(alloc),
            fails,
            puts: 0,
            faults: 0,
            starved: 0,
        }
    }

    /// The bytes that it holds.
    pub fn held(&self) -> &[u8]
        ensures { result.now ≡ held_in self.now }
    {
        &self.held
    }
}

impl Sink for MemSink {
    ghost use Rattle.shelf_io.specs.Fakes.{sink_of};

    ghost state = { sink_of };

    fn put(&mut self, bytes: &[u8]) -> Result<(), Failed>
        ensures added { OnOk result ((sink_of self.new).held ≡ option_map (λ held. held ++ bytes.now) (sink_of self.old).held) }
        ensures failed { OnErr result (HasFront (sink_of self.old).held (sink_of self.new).held bytes.now) }
        ensures counts { (sink_of self.old).faults ≤ (sink_of self.new).faults }
        ensures quiet { OnOk result ((sink_of self.new).faults ≡ (sink_of self.old).faults) }
        ensures cause { OnErr result (Rose (sink_of self.old).faults (sink_of self.new).faults) }
        // Beyond what any sink does: which puts fail, and what they take.
        ensures answer { PutsIn (is_call_listed (puts_of self.old) (failing_puts self.old)) self.old self.new bytes.now result }
        ensures counted { puts_of self.new ≡ next (puts_of self.old) }
        ensures fails { failing_puts self.new ≡ failing_puts self.old }
    {
        let call = self.puts;
        self.puts = call.saturating_add(1);
        let fails = self.fails.contains(&call);
        let piece = piece_taken(bytes, fails);
        let starves = self.held.extend_from_slice(piece).is_err();
        if starves {
            self.starved = self.starved.saturating_add(1);
        }
        if fails || starves {
            self.faults = self.faults.saturating_add(1);
            return Err(Failed);
        }
        Ok(())
    }
}
