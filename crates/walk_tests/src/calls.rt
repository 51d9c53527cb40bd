//! Calls that no row reaches.

ghost use Rattle.std.specs.Prelude.{◌≡◌, ◌≢◌, ◌∷◌, []};
ghost use Rattle.pair_budget.specs.BoardCore.Machine.{pair, start};

use map_lumps::hexen_lumps::to_hexen;
use pair_budget::board_core::{Core, Event, Reply};
use sight_names::{FetchFault, Memory, Pair, Pt, ShelfFault};
use stab_hull::{Passed, Sleeve};
use std::alloc::{AllocError, Global};
use std::fmt::Display;
use std::test::Fail;

// Two workers draw the two sources, one marks the pair, the other sees it, draws nothing and ends.
fn are_replies(core: &mut Core) -> Result<bool, Memory>
    requires { core.old ≡ start 2 2 (pair 0 1 ∷ []) }
{
    let first = core.step(Event::Claim { worker: 0 })?;
    let second = core.step(Event::Claim { worker: 1 })?;
    let marked = core.step(Event::Mark {
        worker: 1,
        a: 0,
        b: 1,
    })?;
    let seen = core.step(Event::Look { worker: 0, word: 0 })?;
    let none = core.step(Event::Claim { worker: 0 })?;
    let ended = core.step(Event::End { worker: 0 })?;
    Ok(
        matches!(first, Reply::Source(0))
            && matches!(second, Reply::Source(1))
            && matches!(marked, Reply::Done)
            && matches!(seen, Reply::Bits(2))
            && matches!(none, Reply::NoSource)
            && matches!(ended, Reply::Done),
    )
}

#[test]
fn two_workers_draw_two_sources_and_one_sees_what_the_other_marked(
    rt: HostRuntime,
) -> Result<(), Fail> {
    let findable = Vec::from_slice(rt.alloc(), &[Pair { a: 0, b: 1 }])?;
    let mut core = Core::new(rt.alloc(), 2, 2, findable)?;
    assert!(rt; are_replies(&mut core)?);
    Ok(())
}

#[test]
fn a_turned_record_has_six_zero_bytes_before_its_sides(rt: HostRuntime) -> Result<(), Fail> {
    let turned = to_hexen(rt.alloc(), &[1, 0, 2, 0, 4, 0, 97, 0, 7, 0, 3, 0, 255, 255])?;
    assert!(rt; turned.as_slice() == b"\x01\0\x02\0\x04\0\0\0\0\0\0\0\x03\0\xff\xff".as_slice());
    Ok(())
}

// Whether two faults have the same words.
fn are_alike<A: Display, B: Display>(
    alloc: Global,
    one: &A,
    other: &B,
) -> Result<bool, AllocError> {
    let one = one.to_string(alloc)?;
    let other = other.to_string(alloc)?;
    Ok(one.as_str() == other.as_str())
}

// Whether faults of a file that mean the same have the same words.
fn are_alike_of_files(alloc: Global) -> Result<bool, AllocError> {
    Ok(
        are_alike(alloc, &ShelfFault::Absent, &FetchFault::Absent)?
            && are_alike(alloc, &ShelfFault::Failed, &FetchFault::Failed)?,
    )
}

#[test]
fn faults_of_one_meaning_have_the_same_words(rt: HostRuntime) -> Result<(), Fail> {
    let alloc = rt.alloc();
    assert!(rt; are_alike_of_files(alloc)?);
    Ok(())
}

// What comes of a portal from the first one's right end to this left one.
fn behind_one(alloc: Global, left: Pt, right: Pt, last: Pt) -> Result<Passed, Memory>
    requires first { left ≢ right }
    requires last { last ≢ right }
{
    let mut sleeve = Sleeve::new(alloc);
    sleeve.begin(left, right)?;
    sleeve.by_new_left(last, right)
}

// What comes of it behind two, of which the second has the first one's left end.
fn behind_two(alloc: Global, left: Pt, first: Pt, right: Pt, last: Pt) -> Result<Passed, Memory>
    requires first { left ≢ first }
    requires second { left ≢ right }
    requires last { last ≢ right }
{
    let mut sleeve = Sleeve::new(alloc);
    sleeve.begin(left, first)?;
    match sleeve.by_new_right(left, right)? {
        Passed::Open => sleeve.by_new_left(last, right),
        Passed::Stuck(evidence) => Ok(Passed::Stuck(evidence)),
    }
}

// What comes of a portal whose left end has the right end of the one before between it and the left end of that one.
fn between(alloc: Global) -> Result<Passed, Memory> {
    behind_one(
        alloc,
        Pt { x: 0, y: 1 },
        Pt { x: 1, y: 1 },
        Pt { x: 2, y: 1 },
    )
}

// And of one by which the segment between the left ends crosses the one between the right ends.
fn crossed(alloc: Global) -> Result<Passed, Memory> {
    behind_two(
        alloc,
        Pt { x: 0, y: 0 },
        Pt { x: 0, y: 2 },
        Pt { x: 2, y: 0 },
        Pt { x: 2, y: 2 },
    )
}

// Whether these ends, and no others, show that the portals are stuck.
fn is_stuck_at(passed: Passed, count: u8, ends: [u16; 4]) -> bool {
    match passed {
        Passed::Stuck(evidence) => evidence.count == count && evidence.ends == ends,
        Passed::Open => false,
    }
}

#[test]
fn a_right_end_between_two_left_ends_is_stuck(rt: HostRuntime) -> Result<(), Fail> {
    // of the first these three ends are all that is needed, of the second all four are
    assert!(rt; is_stuck_at(between(rt.alloc())?, 3, [0, 1, 32_768, 0]));
    assert!(rt; is_stuck_at(crossed(rt.alloc())?, 4, [0, 2, 32_768, 32_769]));
    Ok(())
}
