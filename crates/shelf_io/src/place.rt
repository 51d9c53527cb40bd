//! Where the bytes under a name go, and whether two names mean one place.

ghost use Rattle.std.specs.Prelude.{IfOk, IsTrue};
ghost use Rattle.std.specs.Str.{bytes_eq};

use std::alloc::{AllocError, Global};
use std::fs::{Metadata, Permissions};
use std::io::ErrorKind;
use std::os::unix::fs::MetadataExt;
use std::rt::Files;
use std::{fs, io};

/// As many links, one behind the other, as Linux follows.
const MOST_LINKS: usize = 40;

/// So many bytes a new name has more than what it keeps of the other: a dot, ".doomsight-" and a number below 1,000.
const ADDED: usize = 15;

/// So many bytes of a name its new name keeps at least, if there are as many.
const KEPT: usize = 100;

/// What a name is to one who writes under it.
#[derive(Drop)]
pub enum Place {
    /// A file, or nothing yet: the name behind all links, and the permissions of the file that is there.
    File {
        name: String,
        old: Option<Permissions>,
    },
    /// A device, a pipe, a folder, or an open file by the system's own name for it.
    Other,
}

// What stands under a name, as far as links go.
#[derive(Drop)]
enum Link {
    // No link.
    No,
    // A link to this name.
    To(String),
    // The system's own name for an open file, as /proc/self/fd/1.
    Open,
}

/// What a name is to one who writes under it. An error where that can't be found out, or memory is wanting.
pub fn place_of<R: Files + AllocGlobal>(rt: &R, name: &str) -> io::Result<Place> {
    let old = match if_there(fs::metadata(rt, name))? {
        Some(found) => {
            if !found.is_file() {
                return Ok(Place::Other);
            }
            Some(found.permissions())
        }
        None => None,
    };
    let Some(name) = behind_links(rt, name)? else {
        return Ok(Place::Other);
    };
    if is_folder_name(&name) {
        return Ok(Place::Other);
    }
    Ok(Place::File { name, old })
}

/// Whether two names mean one file: the one that stands under both, or, where neither has one, the one that
/// could be made. Links are followed. An error where that can't be found out, or memory is wanting.
pub fn names_one_file<R: Files + AllocGlobal>(rt: &R, one: &str, other: &str) -> io::Result<bool>
    ensures { IfOk result (λ is_one. IsTrue (bytes_eq one.now other.now) → IsTrue is_one) }
{
    if one == other {
        return Ok(true);
    }
    match both_there(rt, one, other)? {
        (Some(one), Some(other)) => Ok(is_same(&one, &other)),
        (None, None) => names_one_place(rt, one, other),
        _ => Ok(false),
    }
}

// What stands under each of two names.
fn both_there<R: Files>(
    rt: &R,
    one: &str,
    other: &str,
) -> io::Result<(Option<Metadata>, Option<Metadata>)> {
    Ok((
        if_there(fs::metadata(rt, one))?,
        if_there(fs::metadata(rt, other))?,
    ))
}

// Whether the names behind the links have one folder and one last part.
fn names_one_place<R: Files + AllocGlobal>(rt: &R, one: &str, other: &str) -> io::Result<bool> {
    let (Some(one), Some(other)) = (behind_links(rt, one)?, behind_links(rt, other)?) else {
        return Ok(false);
    };
    is_one_place(rt, &one, &other)
}

// The same of names behind all links.
// by itself, over what it is lent, since each way out of a function has all that it owns to drop
fn is_one_place<R: Files>(rt: &R, one: &str, other: &str) -> io::Result<bool> {
    if last_of(one) != last_of(other) {
        return Ok(false);
    }
    match both_there(rt, folder_of(one), folder_of(other))? {
        (Some(one), Some(other)) => Ok(is_same(&one, &other)),
        _ => Ok(false),
    }
}

fn is_same(one: &Metadata, other: &Metadata) -> bool {
    one.dev() == other.dev() && one.ino() == other.ino()
}

// That nothing stands under a name is no error.
fn if_there(found: io::Result<Metadata>) -> io::Result<Option<Metadata>> {
    match found {
        Ok(found) => Ok(Some(found)),
        Err(e) if matches!(e.kind(), ErrorKind::NotFound | ErrorKind::NotADirectory) => Ok(None),
        Err(e) => Err(e),
    }
}

/// A name for a new file in the same folder. It isn't longer than the name itself, or has at most 115 bytes.
pub fn name_beside(alloc: Global, name: &str, number: u16) -> Result<String, AllocError> {
    let last = last_of(name);
    let kept = last.floor_char_boundary(KEPT.max(last.len().saturating_sub(ADDED)));
    let front = &last[..kept];
    let new = format!(in alloc; ".{front}.doomsight-{number}")?;
    in_folder(alloc, name, &new)
}

/// The folder of a name.
pub fn folder_of(name: &str) -> &str {
    match name.rsplit_once('/') {
        Some((folder, _)) => { if folder.is_empty() { "/" } else { folder } }
        None => ".",
    }
}

// What stands behind the last slash of a name.
fn last_of(name: &str) -> &str {
    match name.rsplit_once('/') {
        Some((_, last)) => last,
        None => name,
    }
}

fn is_folder_name(name: &str) -> bool {
    let last = last_of(name);
    last.is_empty() || last == "." || last == ".."
}

// Another last part in the folder of a name.
fn in_folder(alloc: Global, name: &str, last: &str) -> Result<String, AllocError> {
    let mut made = String::new(alloc);
    if let Some((folder, _)) = name.rsplit_once('/') {
        made.push_str(folder)?;
        made.push('/')?;
    }
    made.push_str(last)?;
    Ok(made)
}

// The name behind all links; none where one of them is the system's own name for an open file.
fn behind_links<R: Files + AllocGlobal>(rt: &R, name: &str) -> io::Result<Option<String>> {
    let mut at = String::from_str(rt.alloc(), name)?;
    for _ in 0..MOST_LINKS {
        match link_at(rt, &at)? {
            Link::No => return Ok(Some(at)),
            Link::To(next) => at = next,
            Link::Open => return Ok(None),
        }
    }
    Err(io::Error::from(ErrorKind::InvalidInput))
}

fn link_at<R: Files + AllocGlobal>(rt: &R, name: &str) -> io::Result<Link> {
    let Some(found) = if_there(fs::symlink_metadata(rt, name))? else {
        return Ok(Link::No);
    };
    if !found.is_symlink() {
        return Ok(Link::No);
    }
    if let Some(system) = if_there(fs::metadata(rt, "/proc"))? {
        // The text of such a link is no name: what is open may have none by now.
        if system.dev() == found.dev() {
            return Ok(Link::Open);
        }
    }
    let to = fs::read_link(rt, name)?.into_string();
    if to.as_str().starts_with('/') {
        return Ok(Link::To(to));
    }
    Ok(Link::To(in_folder(rt.alloc(), name, &to)?))
}
