//! A run of words, with the listeners that its report asks for.

ghost use Rattle.std.specs.Prelude.{◌≡◌, [], IfOk, OnErr, Some, map, string_bytes};
ghost use Rattle.listeners.specs.Reporters.{lines_state, new_reporters, totals_state};
ghost use Rattle.order_words.specs.Words.{order_of};
ghost use Rattle.map_answers.specs.SightStatus.Status.{IsProper};
ghost use Rattle.shelf_io.specs.Shelf.{Files, NoneFell};
ghost use Rattle.sight_run.specs.Made.{PutsMade};
ghost use Rattle.sight_run.specs.Run.{AllSettled, StatusCause, TextAfter, WordsSay};
ghost use Rattle.sight_run.specs.Words.{asked_of};
ghost use Rattle.program.specs.Words.{HearsGiven, Reports, RunsHeard, RunsWords, is_reported, listeners_where};

use listeners::{Lines, Listener, Totals};
use order_words::{Order, read_words};
use shelf_io::{Shelf, Sink};
use sight_names::{Memory, OrderFault};
use sight_run::{Hooks, Notice, Status, Watcher, run};
use sight_workers::OpenGate;
use std::alloc::Global;
use std::thread::Threads;

/// Whether the order is a build of one map with a report.
fn is_reported(order: &Order) -> bool
    ensures { result ≡ is_reported (Some order.now) }
{
    match order {
        Order::Build { report, .. } => report.is_some(),
        _ => false,
    }
}

/// Whether the words ask for a build of one map with a report.
fn asks_for_report(alloc: Global, words: &[String]) -> Result<bool, Memory>
    ensures { IfOk result (λ asks. asks ≡ is_reported (order_of (map string_bytes words.now))) }
{
    match read_words(alloc, words) {
        Ok(order) => Ok(is_reported(&order)),
        Err(OrderFault::Usage) => Ok(false),
        Err(OrderFault::Memory(ref memory)) => Err(*memory),
    }
}

/// Does what the words ask, and tells a build to these two.
fn run_told<R: Threads + Sync, S: Shelf, O: Sink, N: Notice>(
    rt: &R,
    alloc: Global,
    words: &[String],
    shelf: &mut S,
    out: &mut O,
    notice: &N,
    watcher: Option<&Watcher>,
    lines: Box<dyn Listener>,
    totals: Box<dyn Listener>,
) -> Result<Status, Memory>
    requires lines_new { listener_state lines ≡ lines_state [] }
    requires totals_new { listener_state totals ≡ totals_state [] }
    ensures ends { (files : Files) → (S.state shelf.old).files ≡ Some files →
        IfOk result (RunsHeard new_reporters (map string_bytes words.now) files (S.state shelf.old) (S.state shelf.new) (O.state out.old) (O.state out.new)) }
    ensures listeners { IfOk result (HearsGiven new_reporters (map string_bytes words.now) (S.state shelf.old).files) }
    ensures text { IfOk result (TextAfter (O.state out.old) (O.state out.new)) }
    ensures made { IfOk result (PutsMade (asked_of (map string_bytes words.now)) (O.state out.old) (O.state out.new)) }
    ensures words { IfOk result (WordsSay (asked_of (map string_bytes words.now))) }
    ensures cause { IfOk result (StatusCause (S.state shelf.old) (S.state shelf.new) (O.state out.old) (O.state out.new)) }
    ensures counts { NoneFell (S.state shelf.old) (S.state shelf.new) }
    ensures settled { IfOk result (AllSettled (S.state shelf.old) (S.state shelf.new)) }
    ensures proper { IfOk result IsProper }
    ensures shelf { OnErr result (S.state shelf.new ≡ S.state shelf.old) }
    ensures sink { OnErr result (O.state out.new ≡ O.state out.old) }
{
    let mut listeners: Vec<Box<dyn Listener>> = Vec::new(alloc);
    listeners.push(lines)?;
    listeners.push(totals)?;
    let hooks = Hooks {
        gate: &OpenGate,
        watcher,
    };
    Ok(run(rt, alloc, words, shelf, out, &mut listeners, &hooks, notice))
}

/// Does what the words ask. A build of one map with a report is told to the lines and the totals of that report; with no
/// report nobody would read what listeners hear, so there are none then. Who watches is told how far each build is.
pub fn run_words<R: Threads + Sync, S: Shelf, O: Sink, N: Notice>(
    rt: &R,
    alloc: Global,
    words: &[String],
    shelf: &mut S,
    out: &mut O,
    notice: &N,
    watcher: Option<&Watcher>,
) -> Result<Status, Memory>
    // What `run` promises, where the files are told, with the listeners that the order asks for.
    ensures ends { (files : Files) → (S.state shelf.old).files ≡ Some files →
        IfOk result (RunsWords (map string_bytes words.now) files (S.state shelf.old) (S.state shelf.new) (O.state out.old) (O.state out.new)) }
    // What a report holds, where its build is done: a line for each set and listed pair, and the totals.
    ensures report { (files : Files) → (S.state shelf.old).files ≡ Some files →
        IfOk result (Reports (map string_bytes words.now) files (S.state shelf.new).files) }
    // And what it promises also where the files aren't told: what the listeners heard, the text, the status and the counts, and that with
    // Done nothing is begun that hasn't its place.
    ensures listeners { IfOk result (HearsGiven (listeners_where (is_reported (order_of (map string_bytes words.now)))) (map string_bytes words.now) (S.state shelf.old).files) }
    ensures text { IfOk result (TextAfter (O.state out.old) (O.state out.new)) }
    ensures made { IfOk result (PutsMade (asked_of (map string_bytes words.now)) (O.state out.old) (O.state out.new)) }
    ensures words { IfOk result (WordsSay (asked_of (map string_bytes words.now))) }
    ensures cause { IfOk result (StatusCause (S.state shelf.old) (S.state shelf.new) (O.state out.old) (O.state out.new)) }
    ensures counts { NoneFell (S.state shelf.old) (S.state shelf.new) }
    ensures settled { IfOk result (AllSettled (S.state shelf.old) (S.state shelf.new)) }
    ensures proper { IfOk result IsProper }
    // Where there is no memory for the listeners, nothing is done.
    ensures shelf { OnErr result (S.state shelf.new ≡ S.state shelf.old) }
    ensures sink { OnErr result (O.state out.new ≡ O.state out.old) }
{
    if !asks_for_report(alloc, words)? {
        let mut none: Vec<Box<dyn Listener>> = Vec::new(alloc);
        let hooks = Hooks {
            gate: &OpenGate,
            watcher,
        };
        return Ok(run(rt, alloc, words, shelf, out, &mut none, &hooks, notice));
    }
    let lines: Box<dyn Listener> = Box::new(alloc, Lines::new(alloc))?;
    let totals: Box<dyn Listener> = Box::new(alloc, Totals::new(alloc))?;
    run_told(rt, alloc, words, shelf, out, notice, watcher, lines, totals)
}
