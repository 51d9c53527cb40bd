//! A listener that has heard enough before the end, and one that finds no memory; and what a notice is told of maps.

use crate::table::ran;
use listeners::{Finding, FirstSet, Keep, Lines, Listener, Totals, pieces, words_of};
use shelf_io::MemSink;
use sight_names::Memory;
use sight_run::{Fate, NoNotice, Notice, Status, code};
use std::alloc::{AllocError, Global};
use std::cell::RefCell;
use std::test::Fail;
use std::thread::Threads;
use worked_maps::stages::{Stage, stage_of};

// The exit code of a run of the words of a line on the stage.
fn run_heard<R: Threads + Sync, N: Notice>(
    rt: &R,
    alloc: Global,
    stage: &mut Stage,
    line: &str,
    listeners: &mut Vec<Box<dyn Listener>>,
    notice: &N,
) -> Result<u8, AllocError> {
    let mut out = MemSink::new(alloc, Vec::new(alloc));
    match ran(
        rt,
        alloc,
        line,
        &mut stage.shelf,
        &mut out,
        listeners,
        notice,
    ) {
        Ok(status) => Ok(code(&status)),
        Err(refused) => Err(refused),
    }
}

/// Hears two findings, and finds no memory for a third.
#[derive(Drop)]
struct Forgetful {
    heard: Vec<Finding>,
}

impl Listener for Forgetful {
    ghost use Rattle.std.specs.Prelude.{None, []};
    ghost use Rattle.listeners.specs.Listening.{ListenerState};

    ghost listener_state = { λ f. record { heard = f.heard.items; writes = λ findings. []; quota = None } };

    fn hear(&mut self, finding: &Finding) -> Result<Keep, Memory> {
        if self.heard.len() == 2 {
            // so many are refused
            self.heard.reserve(usize::MAX)?;
        }
        self.heard.push(*finding)?;
        Ok(Keep::Stay)
    }

    fn words_at(&self, _at: u64, _buf: &mut [u8]) -> usize {
        0
    }
}

// Totals, the first set pair, and lines.
fn push_three(alloc: Global, listeners: &mut Vec<Box<dyn Listener>>) -> Result<(), AllocError> {
    listeners.push(Box::new(alloc, Totals::new(alloc))?)?;
    listeners.push(Box::new(alloc, FirstSet::new(alloc, 1))?)?;
    listeners.push(Box::new(alloc, Lines::new(alloc))?)?;
    Ok(())
}

// Whether pieces of the texts of these, from each byte on, are those of this text.
fn are_pieces(listeners: &[Box<dyn Listener>], text: &[u8]) -> bool {
    for at in 0..=text.len() {
        let mut piece = [0; 9];
        let given = pieces(listeners, at as u64, &mut piece);
        let wanted = text
            .get(at..text.len().min(at.saturating_add(9)))
            .unwrap_or(&[]);
        if piece.get(..given).unwrap_or(&[]) != wanted {
            return false;
        }
    }
    true
}

// Whether the text of the one that heard enough stands before those of the others in the report, and these are left.
fn begins_the_report<R: Threads + Sync>(
    rt: &R,
    alloc: Global,
    stage: &mut Stage,
    listeners: &mut Vec<Box<dyn Listener>>,
) -> Result<bool, AllocError> {
    push_three(alloc, listeners)?;
    let line = "build a MAP01 b --report r";
    let found = run_heard(rt, alloc, stage, line, listeners, &NoNotice)?;
    let report = stage.shelf.bytes("r").unwrap_or(b"");
    let left = b"total set 1 clear 5 listed 0\nset 0 2\n".as_slice();
    Ok(
        found == 0
            && listeners.len() == 2
            && report.strip_prefix(b"set 0 2\n") == Some(left)
            && are_pieces(listeners.as_slice(), left),
    )
}

// Whether the first one heard the third finding, which is that 0 and 2 don't see each other, and no file is made.
fn leaves_no_file<R: Threads + Sync>(
    rt: &R,
    alloc: Global,
    stage: &mut Stage,
    listeners: &mut Vec<Box<dyn Listener>>,
) -> Result<bool, AllocError> {
    push_two(alloc, listeners)?;
    let line = "build a MAP01 b --cert c --report r";
    let found = run_heard(rt, alloc, stage, line, listeners, &NoNotice)?;
    let mut text = [0; 16];
    Ok(
        found == 12
            && listeners.len() == 2
            && stage.shelf.bytes("b").is_none()
            && stage.shelf.bytes("c").is_none()
            && words_of(&listeners[0], 0, &mut text) == 8,
    )
}

// The one of these two that is asked for, of a run over U. What is owned is freed at one way out.
fn holds_of_u<R: Threads + Sync>(
    rt: &R,
    alloc: Global,
    finds_memory: bool,
) -> Result<bool, AllocError> {
    let mut stage = stage_of(alloc, "a=U")?;
    let mut listeners: Vec<Box<dyn Listener>> = Vec::new(alloc);
    let told = if finds_memory {
        begins_the_report(rt, alloc, &mut stage, &mut listeners)
    } else {
        leaves_no_file(rt, alloc, &mut stage, &mut listeners)
    };
    drop(listeners);
    drop(stage);
    told
}

#[test]
fn a_listener_that_has_heard_enough_goes_and_its_text_begins_the_report(
    rt: HostRuntime,
) -> Result<(), Fail> {
    assert!(rt; holds_of_u(&rt, rt.alloc(), true)?);
    Ok(())
}

#[test]
fn no_file_is_made_where_a_listener_finds_no_memory(rt: HostRuntime) -> Result<(), Fail> {
    assert!(rt; holds_of_u(&rt, rt.alloc(), false)?);
    Ok(())
}

// Lines, and one that finds no memory for the third finding.
fn push_two(alloc: Global, listeners: &mut Vec<Box<dyn Listener>>) -> Result<(), AllocError> {
    listeners.push(Box::new(alloc, Lines::new(alloc))?)?;
    let heard = Vec::new(alloc);
    listeners.push(Box::new(alloc, Forgetful { heard })?)?;
    Ok(())
}

/// Keeps what it is told: the names behind `over`, and the lines.
#[derive(Drop)]
struct Told {
    text: RefCell<String>,
}

impl Told {
    // A text for which there is no memory is missing then.
    fn add(&self, more: &str) {
        if let Ok(mut text) = self.text.try_borrow_mut() {
            let _ = text.push_str(more);
        }
    }
}

impl Notice for Told {
    fn pass_over(&self, name: &str) {
        self.add("over ");
        self.add(name);
        self.add("\n");
    }

    fn take_last(&self, name: &str) {
        self.add("last ");
        self.add(name);
        self.add("\n");
    }

    fn miss(&self, name: &str) {
        self.add("miss ");
        self.add(name);
        self.add("\n");
    }

    fn tell(&self, line: &str) {
        self.add(line);
    }

    fn refuse(&self, line: &str, _refusal: Status, _fate: &Fate) {
        self.add("refused ");
        self.add(line);
    }
}

// What a notice is told of a run of the words of a line over what is given.
fn told_of<R: Threads + Sync>(
    rt: &R,
    alloc: Global,
    given: &str,
    line: &str,
) -> Result<String, AllocError> {
    let mut stage = stage_of(alloc, given)?;
    let mut none: Vec<Box<dyn Listener>> = Vec::new(alloc);
    let told = Told {
        text: RefCell::new(String::new(alloc)),
    };
    run_heard(rt, alloc, &mut stage, line, &mut none, &told)?;
    Ok(told.text.into_inner())
}

/// What is given, the words, and what a notice is told.
const TOLD: [(&str, &str, &str); 5] = [
    // what is not read, before the lines
    (
        "a=PAIR +6:map02 +7:TEXTMAP U .8 - +8:MAP03 +14:E1M9 +15:textmap",
        "all a b",
        "over MAP02\nover E1M9\nMAP01 set 0 clear 3 listed 0 replaced 0 bytes\nMAP03 set 1 clear 5 listed 0 replaced 0 bytes\n",
    ),
    (
        "a=PAIR +0:map01 U",
        "all a b",
        "last MAP01\nMAP01 set 1 clear 5 listed 0 replaced 0 bytes\n",
    ),
    // which maps are refused
    (
        "a=PAIR =00 +6:MAP02 +7:TEXTMAP *20 +8:ENDMAP",
        "all a b",
        "MAP01 set 0 clear 3 listed 0 changed 0\nrefused MAP02 refused bad lump: namespace 0 kept clear\n",
    ),
    (
        "a=PAIR =00 +6:MAP02 +7:TEXTMAP *20 +8:ENDMAP",
        "verify a",
        "MAP01 wrong 0 missing 0\nrefused MAP02 refused bad lump: namespace 0\n",
    ),
    (
        "a=PAIR =00 +6:MAP02 +7:TEXTMAP *20 +8:ENDMAP",
        "maps a",
        "MAP01 doom lines 7 points 6 sectors 2 reject 1 of 1 set 0\nrefused MAP02 refused bad lump: namespace 0\n",
    ),
];

// Whether a notice is told what it has to be.
fn is_told<R: Threads + Sync>(
    rt: &R,
    alloc: Global,
    row: &(&str, &str, &str),
) -> Result<bool, AllocError> {
    let (given, line, wanted) = *row;
    let told = told_of(rt, alloc, given, line)?;
    Ok(told.as_str() == wanted)
}

#[test]
fn a_notice_is_told_what_is_not_read_and_which_maps_are_refused(
    rt: HostRuntime,
) -> Result<(), Fail> {
    for row in &TOLD {
        if !is_told(&rt, rt.alloc(), row)? {
            return Err(row.2.into());
        }
    }
    Ok(())
}
