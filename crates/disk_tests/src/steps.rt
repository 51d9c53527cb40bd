//! Steps on a real disk, some by the adapter and some beside it, each with what has to come of it.

use shelf_io::{DiskShelf, SameFault, Shelf, Sink, StdSink, fetch, store};
use sight_names::FetchFault;
use std::alloc::{AllocError, Global};
use std::os::unix::fs::symlink;
use std::rt::Files;
use std::test::Fail;
use std::{fs, io};

/// What is stored, up to a settled file that is removed. Steps write or have to find bytes of a text of 70,000, which
/// differ from place to place: the last two numbers of a step are where they begin and end in it. Before them a read has
/// its place in the file, and a fetch its limit.
const STORED: &str = "\
store row.tmp 0 70000
fetch row.tmp 70000 0 70000
# within the first piece, over the end of it, at the end of the file, and behind it
read row.tmp 1 1 17
read row.tmp 65530 65530 65546
read row.tmp 69990 69990 70000
read row.tmp 70000 70000 70000
append row.tmp 0 1
fetch row.tmp 70000 long
create row.tmp
fetch row.tmp 0 0 0
# a file that is shorter than what stood there
store row.tmp 40000 40100
fetch row.tmp 70000 40000 40100
settle row.tmp
remove row.tmp
fetch row.tmp 0 absent
fetch . 0 failed
fails no_such_folder/file
";

/// A created file takes its place when it is settled, also behind a link, and no other file that is begun has the place in
/// between. `same` says that two names are of one file, `other` that they aren't, `unknown` that it can't be found out.
const SETTLED: &str = "\
write settled.tmp 0 3
link settled.tmp settled.link
store settled.link 10 14
holds settled.tmp 0 3
holds .settled.tmp.doomsight-0 10 14
settle settled.link
holds settled.tmp 10 14
points settled.link
gone .settled.tmp.doomsight-0
store settled.tmp 20 25
discard
holds settled.link 10 14
same settled.tmp settled.link
gone .settled.tmp.doomsight-0
# nothing can stand there
other settled.tmp settled.tmp/file
remove settled.tmp
# nothing stands behind the link now
same ./settled.tmp settled.link
other .settled.tmp.doomsight-0 settled.link
remove settled.link
link settled.loop settled.loop
unknown settled.loop row.tmp
remove settled.loop
# a place that another new file would have had, and a new file that has another's place
store .row.tmp.doomsight-0 0 3
store row.tmp 10 14
holds .row.tmp.doomsight-1 10 14
settle .row.tmp.doomsight-0
settle row.tmp
holds .row.tmp.doomsight-0 0 3
holds row.tmp 10 14
remove .row.tmp.doomsight-0
store row.tmp 20 25
fails .row.tmp.doomsight-0
settle row.tmp
holds row.tmp 20 25
remove row.tmp
store /dev/null 0 1
settle /dev/null
device /dev/null
";

fn number(word: &str) -> usize {
    word.parse().unwrap_or(0)
}

fn word(step: &str, k: usize) -> &str {
    step.split_whitespace().nth(k).unwrap_or("")
}

// The bytes of the text between the places that two words of a step give.
fn between<'a>(text: &'a [u8], step: &str, from: usize, to: usize) -> &'a [u8] {
    text.get(number(word(step, from))..number(word(step, to)))
        .unwrap_or(&[])
}

// So many bytes that differ from place to place: the first eight bits of each place's product, as a hash takes it.
fn mixed_bytes(alloc: Global, count: u32) -> Result<Vec<u8>, AllocError> {
    let mut bytes = Vec::new(alloc);
    for k in 0..count {
        bytes.push((k.wrapping_mul(2_654_435_761) >> 24) as u8)?;
    }
    Ok(bytes)
}

// Whether the file is fetched within the limit of a step, or why it isn't.
fn is_fetched<S: Shelf>(alloc: Global, shelf: &mut S, text: &[u8], step: &str) -> bool {
    let told = match fetch(alloc, shelf, word(step, 1), number(word(step, 2)) as u64) {
        Ok(found) => return !word(step, 4).is_empty()
            && found.as_slice() == between(text, step, 3, 4),
        Err(FetchFault::Absent) => "absent",
        Err(FetchFault::Failed) => "failed",
        Err(FetchFault::TooLong) => "long",
        Err(FetchFault::Memory(_)) => "memory",
    };
    word(step, 3) == told
}

// Whether one read of at most 16 bytes gives those of a step.
fn is_read<S: Shelf>(shelf: &mut S, text: &[u8], step: &str) -> bool {
    let wanted = between(text, step, 3, 4);
    let mut taken = [0; 16];
    let count = shelf.read(word(step, 1), number(word(step, 2)) as u64, &mut taken);
    matches!(count, Ok(n) if n == wanted.len())
        && taken.get(..wanted.len()).unwrap_or(&[]) == wanted
}

// Whether a step that the adapter takes comes out as it has to; not so where it is no step.
fn is_done<S: Shelf>(alloc: Global, shelf: &mut S, text: &[u8], step: &str) -> bool {
    let name = word(step, 1);
    match word(step, 0) {
        "create" => shelf.create(name).is_ok(),
        "append" => shelf.append(name, between(text, step, 2, 3)).is_ok(),
        "settle" => shelf.settle(name).is_ok(),
        "store" => store(shelf, name, between(text, step, 2, 3)).is_ok(),
        "fails" => store(shelf, name, b"x").is_err(),
        "fetch" => is_fetched(alloc, shelf, text, step),
        "read" => is_read(shelf, text, step),
        "same" => shelf.is_one_file(name, word(step, 2)) == Ok(true),
        "other" => shelf.is_one_file(name, word(step, 2)) == Ok(false),
        "unknown" => shelf.is_one_file(name, word(step, 2)) == Err(SameFault::Failed),
        _ => false,
    }
}

// Whether the file of a step has its bytes.
fn holds<R: Files + AllocGlobal>(rt: &R, text: &[u8], step: &str) -> io::Result<bool> {
    let bytes = fs::read(rt, word(step, 1))?;
    Ok(bytes.as_slice() == between(text, step, 2, 3))
}

// Whether what a step says of a name is so.
fn is_so<R: Files + AllocGlobal>(rt: &R, text: &[u8], step: &str) -> io::Result<bool> {
    let name = word(step, 1);
    match word(step, 0) {
        "holds" => holds(rt, text, step),
        "gone" => Ok(!fs::exists(rt, name)?),
        "points" => Ok(fs::symlink_metadata(rt, name)?.is_symlink()),
        _ => Ok(!fs::metadata(rt, name)?.is_file()),
    }
}

// Takes a step beside the adapter.
fn step_beside<R: Files + AllocGlobal>(rt: &R, text: &[u8], step: &str) -> io::Result<()> {
    let name = word(step, 1);
    match word(step, 0) {
        "write" => fs::write(rt, name, between(text, step, 2, 3)),
        "link" => symlink(rt, name, word(step, 2)),
        _ => fs::remove_file(rt, name),
    }
}

// Takes a step; answers whether it came out as it has to.
fn is_right<R: Files + Print + AllocGlobal>(
    rt: &R,
    alloc: Global,
    shelf: &mut DiskShelf<&R>,
    text: &[u8],
    step: &str,
) -> io::Result<bool> {
    match word(step, 0) {
        "discard" => shelf.discard(),
        "write" | "link" | "remove" => step_beside(rt, text, step)?,
        "holds" | "gone" | "points" | "device" => return is_so(rt, text, step),
        _ => return Ok(is_done(alloc, shelf, text, step)),
    }
    Ok(true)
}

// The first step that doesn't come out as it has to; nothing where each does.
fn first_wrong<'a, R: Files + Print + AllocGlobal>(
    rt: &R,
    alloc: Global,
    text: &[u8],
    steps: &'a str,
) -> io::Result<&'a str> {
    let mut shelf = DiskShelf::new(rt);
    for step in steps.lines() {
        if !step.starts_with('#') && !is_right(rt, alloc, &mut shelf, text, step)? {
            return Ok(step);
        }
    }
    Ok("")
}

// Takes the steps, each of which has to come out as it says.
fn hold<R: Files + Print + AllocGlobal>(rt: &R, text: &[u8], steps: &str) -> Result<(), Fail> {
    let wrong = first_wrong(rt, rt.alloc(), text, steps)?;
    if wrong.is_empty() {
        Ok(())
    } else {
        Err(wrong.into())
    }
}

#[test]
fn each_step_on_a_real_disk_comes_out_as_it_says(rt: HostRuntime) -> Result<(), Fail> {
    let text = mixed_bytes(rt.alloc(), 70_000)?;
    hold(&rt, &text, STORED)?;
    hold(&rt, &text, SETTLED)
}

#[test]
fn a_line_is_put(rt: HostRuntime) -> Result<(), Fail> {
    assert!(rt; StdSink::new(&rt).put(b"a line of the test\n").is_ok());
    Ok(())
}
