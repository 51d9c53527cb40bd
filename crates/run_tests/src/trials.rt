//! What has to hold of each made-up map. All of it goes by the top call, over files in memory.

use crate::bits::{changed, is_listed, is_set, listed_count, set};
use crate::running::run_on;
use shelf_io::{Shelf, store};
use sight_workers::OpenGate;
use std::alloc::{AllocError, Global};
use std::test::Fail;
use std::thread::Threads;
use worked_maps::dice::Dice;
use worked_maps::rooms::{Rooms, inside, is_clear, made_rooms};
use worked_maps::stages::{Stage, stage_of};

/// Builds with small budgets by some numbers of workers.
const BUILDS: &str = "\
build a MAP01 b --cert c --budget 1 --workers 1
build a MAP01 b --cert c --budget 2 --workers 3
build a MAP01 b --cert c --budget 3 --workers 64
build a MAP01 b --cert c --budget 7 --workers 2
build a MAP01 b --cert c
";

const FULL: &str = "build a MAP01 full --cert k --budget full --workers 4";

/// Builds that decide every pair, by some numbers of workers, and the checks of what they make.
const EXACT: [(&str, &str); 2] = [
    (
        "build a MAP01 e --cert d --exact --workers 1",
        "check e MAP01 d",
    ),
    (
        "build a MAP01 f --cert g --exact --workers 5",
        "check f MAP01 g",
    ),
];

/// What was tried: clear segments between two sectors, listed pairs, and changed certificates, those of version 3 apart.
#[derive(Clone, Copy)]
struct Tally {
    sights: usize,
    listed: usize,
    changed: usize,
    exact: usize,
}

fn is_done<R: Threads + Sync>(
    rt: &R,
    alloc: Global,
    stage: &mut Stage,
    words: &str,
) -> Result<bool, AllocError> {
    Ok(run_on(rt, alloc, stage, words, &OpenGate)? == 0)
}

// Whether a build is done, and the check of what it made.
fn is_accepted<R: Threads + Sync>(
    rt: &R,
    alloc: Global,
    stage: &mut Stage,
    build: &str,
    check: &str,
) -> Result<bool, AllocError> {
    Ok(is_done(rt, alloc, stage, build)? && is_done(rt, alloc, stage, check)?)
}

fn bytes_under<'a>(stage: &'a Stage, name: &str) -> &'a [u8] {
    stage.shelf.bytes(name).unwrap_or(&[])
}

// Whether a table is the full one, but that its listed pairs are clear.
fn agrees(file: &[u8], cert: &[u8], full: &[u8], sectors: usize) -> bool {
    (0..sectors).all(|a| {
        (0..sectors).all(|b| {
            is_set(file, sectors, a, b) == (is_set(full, sectors, a, b) && !is_listed(cert, a, b))
        })
    })
}

// Whether no segment of some that are clear of solid lines joins two sectors whose pair is set.
fn spares_sight(made: &Rooms, full: &[u8], dice: &mut Dice, tally: &mut Tally) -> bool {
    for _ in 0..400 {
        let (Some((p, a)), Some((q, b))) = (inside(made, dice), inside(made, dice)) else {
            continue;
        };
        if is_clear(&made.lines, p, q) {
            if is_set(full, made.sectors as usize, a as usize, b as usize) {
                return false;
            }
            tally.sights = tally.sights.wrapping_add((a != b) as usize);
        }
    }
    true
}

// The file with the bits of the first pair that is clear set, None where each pair of different sectors is set.
fn overset(alloc: Global, full: &[u8], sectors: usize) -> Result<Option<Vec<u8>>, AllocError> {
    for a in 0..sectors {
        for b in 0..a {
            if !is_set(full, sectors, a, b) {
                let mut made = full.to_vec(alloc)?;
                set(&mut made, sectors, a, b);
                set(&mut made, sectors, b, a);
                return Ok(Some(made));
            }
        }
    }
    Ok(None)
}

// Puts the full table with a pair too many under `b`, unless each pair of different sectors is set.
fn put_overset(alloc: Global, stage: &mut Stage, sectors: usize) -> Result<bool, AllocError> {
    match overset(alloc, bytes_under(stage, "full"), sectors)? {
        Some(wrong) => {
            store(&mut stage.shelf, "b", &wrong).map_err(|_| AllocError)?;
            Ok(true)
        }
        None => Ok(false),
    }
}

// Puts the certificate under this name under `c`, with one of its bytes changed.
fn put_changed(
    alloc: Global,
    stage: &mut Stage,
    name: &str,
    dice: &mut Dice,
) -> Result<(), AllocError> {
    let other = changed(alloc, bytes_under(stage, name), dice)?;
    store(&mut stage.shelf, "c", &other).map_err(|_| AllocError)?;
    Ok(())
}

// Tries small budgets: the checker accepts, and the table is the full one but for listed pairs.
fn tried_budgets<R: Threads + Sync>(
    rt: &R,
    alloc: Global,
    stage: &mut Stage,
    sectors: usize,
    tally: &mut Tally,
) -> Result<&'static str, AllocError> {
    for words in BUILDS.lines() {
        if !is_accepted(rt, alloc, stage, words, "check b MAP01 c")? {
            return Ok("refused");
        }
        let (file, cert) = (bytes_under(stage, "b"), bytes_under(stage, "c"));
        tally.listed = tally.listed.wrapping_add(listed_count(cert));
        if !agrees(file, cert, bytes_under(stage, "full"), sectors) {
            return Ok("another table");
        }
    }
    Ok("")
}

// Tries builds that decide every pair: the checker accepts, the table is the full one, and the certificate is one.
fn tried_exact<R: Threads + Sync>(
    rt: &R,
    alloc: Global,
    stage: &mut Stage,
) -> Result<&'static str, AllocError> {
    for (build, check) in EXACT {
        if !is_accepted(rt, alloc, stage, build, check)? {
            return Ok("refused");
        }
    }
    let full = bytes_under(stage, "full");
    if bytes_under(stage, "e") != full || bytes_under(stage, "f") != full {
        return Ok("another exact table");
    }
    if bytes_under(stage, "d") != bytes_under(stage, "g") {
        return Ok("another exact certificate");
    }
    Ok("")
}

// Tries a wrong table by the certificate under this name of which one byte is changed, and counts those that spell a certificate.
fn tried_changes<R: Threads + Sync>(
    rt: &R,
    alloc: Global,
    stage: &mut Stage,
    name: &str,
    dice: &mut Dice,
    spelled: &mut usize,
) -> Result<&'static str, AllocError> {
    for _ in 0..40 {
        put_changed(alloc, stage, name, dice)?;
        if is_done(rt, alloc, stage, "check b MAP01 c")? {
            return Ok("fooled");
        }
        *spelled = spelled.wrapping_add(!stage.text.starts_with(b"no cert") as usize);
    }
    Ok("")
}

// Tries the full table with a pair too many, by the changed certificates of version 2 and of version 3 that were built for it.
fn tried_wrong<R: Threads + Sync>(
    rt: &R,
    alloc: Global,
    stage: &mut Stage,
    sectors: usize,
    dice: &mut Dice,
    tally: &mut Tally,
) -> Result<&'static str, AllocError> {
    if !put_overset(alloc, stage, sectors)? {
        return Ok("");
    }
    let told = tried_changes(rt, alloc, stage, "k", dice, &mut tally.changed)?;
    if !told.is_empty() {
        return Ok(told);
    }
    tried_changes(rt, alloc, stage, "d", dice, &mut tally.exact)
}

// Tries a made map on its stage, and says what doesn't hold; nothing where all does.
fn tried_on<R: Threads + Sync>(
    rt: &R,
    alloc: Global,
    made: &Rooms,
    stage: &mut Stage,
    dice: &mut Dice,
    tally: &mut Tally,
) -> Result<&'static str, AllocError> {
    let sectors = made.sectors as usize;
    if !is_done(rt, alloc, stage, FULL)? {
        return Ok("unsound");
    }
    if !is_done(rt, alloc, stage, "check full MAP01 k")? {
        return Ok("refused");
    }
    if !spares_sight(made, bytes_under(stage, "full"), dice, tally) {
        return Ok("blind");
    }
    let wrong = tried_budgets(rt, alloc, stage, sectors, tally)?;
    if !wrong.is_empty() {
        return Ok(wrong);
    }
    let wrong = tried_exact(rt, alloc, stage)?;
    if !wrong.is_empty() {
        return Ok(wrong);
    }
    tried_wrong(rt, alloc, stage, sectors, dice, tally)
}

// Tries the made map of one seed.
fn tried<R: Threads + Sync>(
    rt: &R,
    alloc: Global,
    seed: u64,
    tally: &mut Tally,
) -> Result<&'static str, AllocError> {
    let made = made_rooms(alloc, seed)?;
    let mut stage = stage_of(alloc, &format!(in alloc; "a=rooms:{seed}")?)?;
    let mut dice = Dice::new(seed);
    tried_on(rt, alloc, &made, &mut stage, &mut dice, tally)
}

#[test]
fn built_tables_are_accepted_and_wrong_ones_never(rt: HostRuntime) -> Result<(), Fail> {
    let mut tally = Tally {
        sights: 0,
        listed: 0,
        changed: 0,
        exact: 0,
    };
    for seed in 0..24u64 {
        let wrong = tried(&rt, rt.alloc(), seed, &mut tally)?;
        if !wrong.is_empty() {
            return Err((wrong, seed).into());
        }
    }
    let (sights, listed) = (tally.sights, tally.listed);
    assert!(rt; sights > 200 && listed > 200 && tally.changed > 200 && tally.exact > 200);
    Ok(())
}
