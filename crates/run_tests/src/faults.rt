//! Each read, create, append and put of a run failed once, for every verb: how the run ends, what it puts, and what stands under each name
//! after it.

use crate::running::run_on;
use sight_workers::OpenGate;
use std::alloc::{AllocError, Global};
use std::test::Fail;
use std::thread::Threads;
use worked_maps::rows::part;
use worked_maps::stages::{Stage, stage_of};

/// What there is, the words, the exit code of a run of which nothing fails, and the calls that it makes: the file of each read in turn,
/// of each create, and of each append. Each run puts once. `a` is the WAD that is read, `b` the one that is written; `c` is a certificate
/// and `p` a picture.
pub const RUNS: &str = "\
a=SQUARE | zero a MAP01 b | 0 | a a | b | b
a=SQUARE, b=PAIR | zero a MAP01 b | 0 | a a | b | b
a=SQUARE +6:BULK *150000, b=PAIR | zero a MAP01 b | 0 | a a a a | b | b b b
a=PAIR | ray a MAP01 2R,2L,0,1,-32 | 0 | a a
a=U | audit a MAP01 | 0 | a a
a=U | trace a MAP01 5L,5R,-1,0,32 | 0 | a a
a=LINE3 | need a MAP01 | 0 | a a
a=U | sound a MAP01 | 0 | a a
a=U | sound a MAP01 0 2 | 0 | a a
a=U | why a MAP01 0 1 | 0 | a a
a=U | draw a MAP01 p | 0 | a a | p | p
a=TOUCHED, p=PAIR | draw a MAP01 p --faults | 0 | a a | p | p
a=U =4400, p=PAIR | draw a MAP01 p 0 | 0 | a a | p | p
a=U =4400, p=PAIR | draw a MAP01 p --heat | 0 | a a | p | p
a=U, p=PAIR | draw a MAP01 p 0 1 | 0 | a a | p | p
a=U, p=PAIR | draw a MAP01 p 0 2 | 0 | a a | p | p
a=U =4400, c=#U-CERT | check a MAP01 c | 0 | a a c c
a=U | build a MAP01 b --cert c --workers 1 | 0 | a a | b c | b c
a=U, b=PAIR, c=PAIR | build a MAP01 b --cert c --workers 1 | 0 | a a | b c | b c
a=U, b=PAIR, c=PAIR | build a MAP01 b --workers 1 | 0 | a a | b | b
a=U, b=PAIR, c=PAIR | build a MAP01 b --exact --cert c --workers 1 | 0 | a a | b c | b c
a=grid:7 | build a MAP01 b --cert c --workers 1 | 0 | a a | b c | b c c
a=PAIR U .6 - +6:MAP02, b=PAIR | all a b --workers 1 | 0 | a a | b | b
a=PAIR U .6 - +6:MAP02, b=PAIR | all a b --only MAP02 --workers 1 | 0 | a a | b | b
a=U =4600, r=PAIR | verify a --report r --workers 1 | 1 | a a | r | r
a=OPEN, r=PAIR | audit a MAP01 --report r | 1 | a a | r | r
a=U =4400 | verify a --workers 1 | 0 | a a
a=U =4400, r=PAIR | maps a --report r | 0 | a a | r | r
a=U =4400 | maps a | 0 | a a
a=SQUARE | grid 2 --workers 1 | 0
# runs that are refused, and answers that are no
b=PAIR | zero a MAP01 b | 3
a=SQUARE @325:1:, b=PAIR | zero a MAP01 b | 6 | a a
a=SQUARE, b=PAIR | zero a MAP02 b | 7 | a a
a=SQUARE @14:1:09, b=PAIR | zero a MAP01 b | 8 | a a
a=SQUARE, b=PAIR | paint a MAP01 b | 2
a=SQUARE | zero a MAP01 a | 11
a=PAIR | ray a MAP01 2L,2R,0,1,-32 | 1 | a a
a=OPEN | audit a MAP01 | 10 | a a
a=U | sound a MAP01 0 9 | 1 | a a
a=U | why a MAP01 0 9 | 1 | a a
a=U, p=PAIR | draw a MAP01 p 0 9 | 1 | a a
a=U, p=PAIR | draw a MAP01 p 0 | 1 | a a
a=U =4400 | check a MAP01 c | 3 | a a
a=U, c=#U-CERT | check a MAP01 c | 1 | a a
a=U =4600, c=#U-CERT | check a MAP01 c | 1 | a a c c
a=U =4600, c=#U-CERT | check a MAP01 c --json | 1 | a a c c
a=OPEN, b=PAIR, c=PAIR | build a MAP01 b --cert c | 10 | a a
a=PAIR, b=PAIR | all a b --only MAP02 | 7 | a a
";

/// The most bytes that one append takes.
const PIECE: usize = 65_536;

// A run: what stood before it and after it, and how it ended.
#[derive(Drop)]
struct Ran {
    before: Stage,
    after: Stage,
    status: u8,
}

// What a row says that there is, twice, where these calls are to fail; nothing has run yet.
fn set_up(alloc: Global, row: &str, fails: &str) -> Result<Ran, AllocError> {
    let given = format!(in alloc; "{}, {fails}", part(row, 0))?;
    let before = stage_of(alloc, &given)?;
    let after = stage_of(alloc, &given)?;
    Ok(Ran {
        before,
        after,
        status: 0,
    })
}

// Runs the words of a row on what there is, where these calls fail.
fn run_with<R: Threads + Sync>(
    rt: &R,
    alloc: Global,
    row: &str,
    fails: &str,
) -> Result<Ran, AllocError> {
    let mut ran = set_up(alloc, row, fails)?;
    ran.status = run_on(rt, alloc, &mut ran.after, part(row, 1), &OpenGate)?;
    Ok(ran)
}

// What has to stand after a run: the stored files up to the broken one are whole, so many bytes of that one are there, or else what was
// there before, and all others are as before.
#[derive(Clone, Copy)]
struct Left<'a> {
    stored: &'a str,
    broken: &'a str,
    front: Option<usize>,
}

fn wanted_under<'a>(name: &str, left: Left<'_>, whole: &'a Ran) -> Option<&'a [u8]> {
    for stored in left.stored.split_whitespace() {
        if stored == left.broken {
            break;
        }
        if stored == name {
            return whole.after.shelf.bytes(name);
        }
    }
    match left.front {
        Some(len) if name == left.broken => whole.after.shelf.bytes(name)?.get(..len),
        _ => whole.before.shelf.bytes(name),
    }
}

// How many bytes of an output there are when an append behind so many whole ones fails: they, and the first half of its own piece.
fn front_len(output: Option<&[u8]>, appends: usize) -> usize {
    let len = output.unwrap_or(&[]).len();
    let stored = appends.saturating_mul(PIECE).min(len);
    let piece = len.saturating_sub(stored).min(PIECE);
    stored.saturating_add(piece / 2)
}

// How many of so many calls are about the file.
fn count_of(names: &str, calls: usize, name: &str) -> usize {
    let mut count = 0usize;
    for (k, other) in names.split_whitespace().enumerate() {
        if k < calls && other == name {
            count = count.wrapping_add(1);
        }
    }
    count
}

fn left_by<'a>(
    row: &'a str,
    kind: &str,
    call: usize,
    name: Option<&'a str>,
    whole: &Ran,
) -> Left<'a> {
    let (stored, appends) = (part(row, 4), part(row, 5));
    let Some(name) = name else {
        return Left {
            stored,
            broken: "",
            front: None,
        };
    };
    let front = match kind {
        "appends" => Some(front_len(whole.after.shelf.bytes(name), count_of(appends, call, name))),
        _ => None,
    };
    Left {
        stored: if kind == "reads" { "" } else { stored },
        broken: name,
        front,
    }
}

// How a run ends of which a call about this file fails, and the line that it puts.
fn end_of(alloc: Global, kind: &str, name: &str) -> Result<(u8, Vec<u8>), AllocError> {
    let word = match name {
        "c" => "cert",
        "r" => "report",
        "p" => "picture",
        _ => "wad",
    };
    let (status, deed) = match kind {
        "reads" => (4, "read"),
        _ => (5, "write"),
    };
    let line = format!(in alloc; "refused: {deed} fault {word}\n")?;
    Ok((status, line.as_bytes().to_vec(alloc)?))
}

// What has to come of a run: how it ends, what it puts, and what it leaves.
#[derive(Clone, Copy)]
struct Wanted<'a> {
    status: u8,
    text: &'a [u8],
    left: Left<'a>,
}

// What of a run isn't as it has to be; nothing where all is.
fn wrong_part(found: &Ran, whole: &Ran, wanted: Wanted<'_>) -> &'static str {
    if found.status != wanted.status {
        return "status";
    }
    if found.after.text.as_slice() != wanted.text {
        return "text";
    }
    for name in ["a", "b", "c", "r"] {
        if found.after.shelf.bytes(name) != wanted_under(name, wanted.left, whole) {
            return "files";
        }
    }
    ""
}

// A row, and the call of a kind and a number that is to fail.
#[derive(Clone, Copy)]
struct Failing<'a> {
    row: &'a str,
    kind: &'a str,
    call: usize,
}

// Runs a row where a call fails, and this put; says what isn't as it has to be.
fn wrong_with<R: Threads + Sync>(
    rt: &R,
    alloc: Global,
    failing: Failing<'_>,
    put: u8,
    whole: &Ran,
    wanted: Wanted<'_>,
) -> Result<&'static str, AllocError> {
    let Failing { row, kind, call } = failing;
    let fails = format!(in alloc; "{kind}={call}, puts={put}")?;
    let found = run_with(rt, alloc, row, &fails)?;
    Ok(wrong_part(&found, whole, wanted))
}

// The same where the line can be put, which a run does but once, and then where it can't, so that half of it is there.
fn wrong_by_put<R: Threads + Sync>(
    rt: &R,
    alloc: Global,
    failing: Failing<'_>,
    whole: &Ran,
    told: Wanted<'_>,
) -> Result<&'static str, AllocError> {
    let wrong = wrong_with(rt, alloc, failing, 1, whole, told)?;
    if !wrong.is_empty() {
        return Ok(wrong);
    }
    let untold = Wanted {
        status: 5,
        text: told.text.get(..told.text.len() / 2).unwrap_or(&[]),
        left: told.left,
    };
    wrong_with(rt, alloc, failing, 0, whole, untold)
}

// Fails a call, which is about some file, or which the run doesn't make.
fn wrong_at<R: Threads + Sync>(
    rt: &R,
    alloc: Global,
    failing: Failing<'_>,
    whole: &Ran,
) -> Result<&'static str, AllocError> {
    let Failing { row, kind, call } = failing;
    let name = match kind {
        "reads" => part(row, 3).split_whitespace().nth(call),
        "creates" => part(row, 4).split_whitespace().nth(call),
        _ => part(row, 5).split_whitespace().nth(call),
    };
    let (status, line) = match name {
        Some(name) => end_of(alloc, kind, name)?,
        None => (whole.status, whole.after.text.clone()?),
    };
    let told = Wanted {
        status,
        text: line.as_slice(),
        left: left_by(row, kind, call, name, whole),
    };
    wrong_by_put(rt, alloc, failing, whole, told)
}

// Fails each call of a row in turn, and the one behind the last; says what is wrong first.
fn wrong_call<R: Threads + Sync>(
    rt: &R,
    alloc: Global,
    row: &str,
    whole: &Ran,
) -> Result<String, AllocError> {
    for (kind, k) in [("reads", 3), ("creates", 4), ("appends", 5)] {
        for call in 0..=part(row, k).split_whitespace().count() {
            let wrong = wrong_at(rt, alloc, Failing { row, kind, call }, whole)?;
            if !wrong.is_empty() {
                return format!(in alloc; "{wrong} where {kind}={call} of: {row}");
            }
        }
    }
    Ok(String::new(alloc))
}

fn wrong_in<R: Threads + Sync>(rt: &R, alloc: Global, row: &str) -> Result<String, AllocError> {
    let whole = run_with(rt, alloc, row, "")?;
    if part(row, 2).parse::<u8>() != Ok(whole.status) {
        return format!(in alloc; "code of: {row}");
    }
    wrong_call(rt, alloc, row, &whole)
}

#[test]
fn each_call_that_fails_ends_the_run_by_its_own_name(rt: HostRuntime) -> Result<(), Fail> {
    for row in RUNS.lines() {
        if !row.starts_with('#') {
            let wrong = wrong_in(&rt, rt.alloc(), row)?;
            if !wrong.is_empty() {
                return Err(wrong.into());
            }
        }
    }
    Ok(())
}
