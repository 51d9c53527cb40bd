//! Files that are begun. Their bytes stand beside their places until they are settled, so that a place holds the old
//! file or the whole new one.

ghost use Rattle.std.specs.Prelude.{◌≡◌, ◌≤◌, ◌<◌, ◌∷◌, [], length, map, string_bytes, IfOk, IfSome, OnOk, is_some};
ghost use Rattle.shelf_io.specs.Shelf.{BeginsAmong, NoneBegun, is_named};

use crate::place::{Place, folder_of, name_beside, place_of};
use std::alloc::Global;
use std::fs::{OpenFile, OpenOptions, Permissions};
use std::io::{ErrorKind, Read, Seek, SeekFrom, Write};
use std::rt::Files;
use std::{fs, io};

/// So many names beside a place are tried.
const MOST_TRIES: u16 = 1_000;

/// A file that is begun.
#[derive(Drop)]
pub struct Begun<F: Drop> {
    name: String,
    file: F,
    // None where the bytes go straight to what stands under the name.
    way: Option<Way>,
    is_flushed: bool,
}

// The name under which a file is begun, and the one that it is to have.
#[derive(Drop)]
struct Way {
    from: String,
    to: String,
}

// The file that is begun under a name.
fn index_of<F: Drop>(begun: &[Begun<F>], name: &str) -> Option<usize>
    ensures within { IfSome result (λ i. i < length begun.now) }
    ensures none { is_some result ≡ is_named (λ b. string_bytes b.name) begun.now name.now }
{
    for (i, one) in begun.iter().enumerate() {
        if one.name.as_str() == name {
            return Some(i);
        }
    }
    None
}

// Takes what is begun under a name out of the list.
fn take_out<R: Files>(rt: &R, begun: &mut Vec<Begun<R::File>>, name: &str) -> Option<Begun<R::File>>
    ensures begun { BeginsAmong (map (λ b. string_bytes b.name) begun.old.items) (map (λ b. string_bytes b.name) begun.new.items) [] }
    ensures none { NoneBegun (map (λ b. string_bytes b.name) begun.new.items) (name.now ∷ []) }
{
    let mut taken: Option<Begun<R::File>> = None;
    // A name is begun once at most, so this is done once at most.
    while let Some(i) = index_of(begun, name) {
        if let Some(other) = taken.replace(begun.remove(i)) {
            remove(rt, &other);
        }
    }
    taken
}

// What goes straight to its place is closed: who reads two pipes may wait for the end of the first.
fn close_straight<F: Drop>(begun: &mut Vec<Begun<F>>)
    ensures { BeginsAmong (map (λ b. string_bytes b.name) begun.old.items) (map (λ b. string_bytes b.name) begun.new.items) [] }
{
    begun.retain(|one| one.way.is_some());
}

/// Begins the file of this name, with no byte, also where it is begun already.
pub fn begin<R: Files + AllocGlobal>(
    rt: &R,
    begun: &mut Vec<Begun<R::File>>,
    name: &str,
) -> io::Result<()>
    ensures { BeginsAmong (map (λ b. string_bytes b.name) begun.old.items) (map (λ b. string_bytes b.name) begun.new.items) (name.now ∷ []) }
{
    if let Some(before) = take_out(rt, begun, name) {
        remove(rt, &before);
    }
    close_straight(begun);
    let made = begin_at(rt, begun, name)?;
    if let Err(full) = begun.push(made) {
        remove(rt, &full.value);
        return Err(full.into());
    }
    Ok(())
}

fn begin_at<R: Files + AllocGlobal>(
    rt: &R,
    begun: &[Begun<R::File>],
    name: &str,
) -> io::Result<Begun<R::File>>
    ensures { IfOk result (λ made. string_bytes made.name ≡ name.now) }
{
    match place_of(rt, name)? {
        Place::File { name: to, old } => begin_beside(rt, begun, name, to, old),
        Place::Other => begin_straight(rt, name),
    }
}

fn begin_straight<R: Files + AllocGlobal>(rt: &R, name: &str) -> io::Result<Begun<R::File>>
    ensures { IfOk result (λ made. string_bytes made.name ≡ name.now) }
{
    Ok(Begun {
        name: String::from_str(rt.alloc(), name)?,
        file: fs::create(rt, name)?,
        way: None,
        is_flushed: false,
    })
}

fn begin_beside<R: Files + AllocGlobal>(
    rt: &R,
    begun: &[Begun<R::File>],
    name: &str,
    to: String,
    old: Option<Permissions>,
) -> io::Result<Begun<R::File>>
    ensures { IfOk result (λ made. string_bytes made.name ≡ name.now) }
{
    let name = String::from_str(rt.alloc(), name)?;
    if is_beside(begun, &to) {
        return Err(io::Error::from(ErrorKind::AlreadyExists));
    }
    if old.is_some() {
        // A file that may not be written isn't replaced either.
        let _ = OpenOptions::new().write(true).open(rt, to.as_str())?;
    }
    let (from, file) = new_beside(rt, begun, &to)?;
    let made = Begun {
        name,
        file,
        way: Some(Way { from, to }),
        is_flushed: false,
    };
    if let Err(e) = keep_permissions(&made.file, old) {
        remove(rt, &made);
        return Err(e);
    }
    Ok(made)
}

// Whether a file that is begun is to have this name.
fn is_place<F: Drop>(begun: &[Begun<F>], name: &str) -> bool {
    for one in begun {
        if let Some(way) = &one.way {
            if way.to.as_str() == name {
                return true;
            }
        }
    }
    false
}

// Whether a file that is begun stands under this name until it is settled.
fn is_beside<F: Drop>(begun: &[Begun<F>], name: &str) -> bool {
    for one in begun {
        if let Some(way) = &one.way {
            if way.from.as_str() == name {
                return true;
            }
        }
    }
    false
}

// A new file beside a place, and its name. A file that is there already isn't opened, nor is one made where a file that
// is begun is to stand.
fn new_beside<R: Files + AllocGlobal>(
    rt: &R,
    begun: &[Begun<R::File>],
    place: &str,
) -> io::Result<(String, R::File)> {
    for number in 0..MOST_TRIES {
        let name = name_beside(rt.alloc(), place, number)?;
        if is_place(begun, &name) {
            continue;
        }
        match OpenOptions::new()
            .read(true)
            .append(true)
            .create_new(true)
            .open(rt, name.as_str())
        {
            Ok(file) => return Ok((name, file)),
            Err(e) if e.kind() == ErrorKind::AlreadyExists => {}
            Err(e) => return Err(e),
        }
    }
    Err(io::Error::from(ErrorKind::AlreadyExists))
}

// Before the first byte, so that nobody reads the new file who might not read the old one.
fn keep_permissions<F: OpenFile>(file: &F, old: Option<Permissions>) -> io::Result<()> {
    let Some(old) = old else {
        return Ok(());
    };
    // Some disks let none be set, and give every file the same.
    if file.metadata()?.permissions() == old {
        return Ok(());
    }
    file.set_permissions(old)
}

/// Adds the bytes to the file of this name: to the one that is begun, and else to the one that is there.
pub fn append<R: Files>(
    rt: &R,
    begun: &mut [Begun<R::File>],
    name: &str,
    bytes: &[u8],
) -> io::Result<()>
    ensures { map (λ b. string_bytes b.name) begun.new ≡ map (λ b. string_bytes b.name) begun.old }
{
    if let Some(i) = index_of(begun, name) {
        return add(&mut begun[i], bytes);
    }
    let mut file = OpenOptions::new().append(true).create(true).open(rt, name)?;
    file.write_all(bytes)
}

fn add<F: Write + Drop>(one: &mut Begun<F>, bytes: &[u8]) -> io::Result<()>
    ensures { one.new.name ≡ one.old.name }
{
    one.is_flushed = false;
    one.file.write_all(bytes)
}

/// Reads from a place of the file that is begun beside this name; none where there is no such.
pub fn read_begun<F: Read + Seek + Drop>(
    begun: &mut [Begun<F>],
    name: &str,
    at: u64,
    buf: &mut [u8],
) -> Option<io::Result<usize>>
    ensures within { IfSome result (λ read. IfOk read (λ k. k ≤ length buf.old)) }
    ensures begun { map (λ b. string_bytes b.name) begun.new ≡ map (λ b. string_bytes b.name) begun.old }
{
    let i = index_of(begun, name)?;
    read_one(&mut begun[i], at, buf)
}

fn read_one<F: Read + Seek + Drop>(
    one: &mut Begun<F>,
    at: u64,
    buf: &mut [u8],
) -> Option<io::Result<usize>>
    ensures within { IfSome result (λ read. IfOk read (λ k. k ≤ length buf.old)) }
    ensures name { one.new.name ≡ one.old.name }
{
    if one.way.is_none() {
        return None;
    }
    Some(read_from(&mut one.file, at, buf))
}

fn read_from<F: Read + Seek>(file: &mut F, at: u64, buf: &mut [u8]) -> io::Result<usize>
    ensures { IfOk result (λ k. k ≤ length buf.old) }
{
    file.seek(SeekFrom::Start(at))?;
    file.read(buf)
}

/// Puts the file of this name in its place, where it is begun. After a fault the place is as before, and what was begun
/// is gone.
pub fn settle<R: Files>(rt: &R, begun: &mut Vec<Begun<R::File>>, name: &str) -> io::Result<()>
    ensures begun { BeginsAmong (map (λ b. string_bytes b.name) begun.old.items) (map (λ b. string_bytes b.name) begun.new.items) [] }
    ensures none { NoneBegun (map (λ b. string_bytes b.name) begun.new.items) (name.now ∷ []) }
{
    // All are flushed before the first gets its name, so that only a renaming can fail between two of them.
    let flushed = flush_all(begun.as_mut_slice());
    let Some(one) = take_out(rt, begun, name) else {
        return Ok(());
    };
    if flushed.is_err() {
        remove(rt, &one);
        return flushed;
    }
    rename(rt, &one)
}

fn flush_all<F: OpenFile + Drop>(begun: &mut [Begun<F>]) -> io::Result<()>
    ensures { map (λ b. string_bytes b.name) begun.new ≡ map (λ b. string_bytes b.name) begun.old }
{
    for i in 0..begun.len() {
        flush(&mut begun[i])?;
    }
    Ok(())
}

fn flush<F: OpenFile + Drop>(one: &mut Begun<F>) -> io::Result<()>
    ensures { one.new.name ≡ one.old.name }
{
    if one.way.is_some() && !one.is_flushed {
        one.file.sync_all()?;
        one.is_flushed = true;
    }
    Ok(())
}

fn rename<R: Files>(rt: &R, one: &Begun<R::File>) -> io::Result<()> {
    let Some(way) = &one.way else {
        return Ok(());
    };
    if let Err(e) = fs::rename(rt, way.from.as_str(), way.to.as_str()) {
        remove(rt, one);
        return Err(e);
    }
    // The file has its name. That this outlasts a power cut can't be had of every disk, so it is tried and no more.
    if let Ok(folder) = fs::open(rt, folder_of(&way.to)) {
        let _ = folder.sync_all();
    }
    Ok(())
}

/// Removes all that is begun.
pub fn discard<R: Files>(rt: &R, begun: &mut Vec<Begun<R::File>>)
    ensures { begun.new.items ≡ [] }
{
    for one in begun.iter() {
        remove(rt, one);
    }
    begun.clear();
}

// A file that can't be removed stays beside its place.
fn remove<R: Files>(rt: &R, one: &Begun<R::File>) {
    if let Some(way) = &one.way {
        let _ = fs::remove_file(rt, way.from.as_str());
    }
}
