//! The program: what the words of a command line ask, of files of the machine or of the program itself, and the exit code.
#![tactic(auto)]

ghost use Rattle.std.specs.Prelude.{◌≡◌};
ghost use Rattle.std.specs.Process.{exit_status};
ghost use Rattle.map_answers.specs.SightStatus.Status.{exit_status_of};
ghost use Rattle.program.specs.Words.{ended_number};

pub mod answers;
mod help;
pub mod places;
pub mod progress;
pub mod runs;
pub mod step_line;
pub mod usage;
pub mod verbs;
mod words;

use answers::{answer, question_in};
use map_answers::sight_status::put_refusal;
use order_words::{Order, ReportFile, Source, Text, read_words};
use places::{WadAgain, byte_of, map_of};
use progress::{Progress, refuses_size};
use runs::run_words;
use shelf_io::{DiskShelf, Sink, StdSink, is_standard_output};
use sight_names::{MapFault, OrderFault};
pub use sight_run::{Steps, Watcher};
use sight_run::{Notice, Status, code};
use std::alloc::{AllocError, Global};
use std::env::Env;
use std::fs;
use std::io::IsTerminal;
use std::process::ExitCode;
use std::rt::Files;
use std::thread::Threads;
use usage::{print_diagnosis, print_synopsis};
use words::{NoWords, words_of};

/// The exit code of an audit that reports faults, which is that of one that refuses their map.
const REPORTED: u8 = 10;

fn exit_code(status: &Status) -> ExitCode
    ensures { exit_status result ≡ exit_status_of status.now }
{
    ExitCode::from(code(status))
}

/// How a run of words ended, and whether their order was an audit.
#[derive(Drop)]
struct Ended {
    status: Status,
    audits: bool,
}

fn code_of(ended: &Ended) -> ExitCode
    ensures { exit_status result ≡ ended_number ended.now.audits ended.now.status }
{
    match ended.status {
        Status::NotRight if ended.audits => ExitCode::from(REPORTED),
        _ => exit_code(&ended.status),
    }
}

/// The WAD that the order reads, nothing where it makes one.
fn source_of(order: &Order) -> Option<&Source> {
    match order {
        Order::Zero { wad, .. }
        | Order::Ray { wad, .. }
        | Order::Audit { wad, .. }
        | Order::Trace { wad, .. }
        | Order::Check { wad, .. }
        | Order::Verify { wad, .. }
        | Order::Build { wad, .. }
        | Order::Need { wad, .. }
        | Order::Sound { wad, .. }
        | Order::Why { wad, .. }
        | Order::Draw { wad, .. }
        | Order::All { wad, .. }
        | Order::Maps { wad, .. } => Some(wad),
        Order::Grid { .. } => None,
    }
}

fn is_given_standard_output(file: &Option<Text>) -> bool {
    match file {
        Some(file) => is_standard_output(file.as_str()),
        None => false,
    }
}

fn is_report_standard_output(report: &Option<ReportFile>) -> bool {
    match report {
        Some(report) => is_standard_output(report.file.as_str()),
        None => false,
    }
}

/// Whether some file that the order writes is the standard output.
fn writes_to_standard_output(order: &Order) -> bool {
    match order {
        Order::Zero { out, .. } | Order::Draw { out, .. } => is_standard_output(out.as_str()),
        Order::Audit { report, .. } | Order::Verify { report, .. } | Order::Maps { report, .. } =>
            is_report_standard_output(report),
        Order::Build {
            out,
            cert,
            report,
            ..
        } => {
            is_standard_output(out.as_str())
                || is_given_standard_output(cert)
                || is_given_standard_output(report)
        }
        Order::All { out, report, .. } => {
            is_standard_output(out.as_str()) || is_report_standard_output(report)
        }
        _ => false,
    }
}

/// Does what the words ask of the files of the machine. Where a limit of a map's size refused it, standard error names the option of
/// the larger ones, unless it was given. The words are read once more, so the order is theirs.
fn obey<R: Files + Print + Threads + Sync + AllocGlobal, O: Sink, P: Print>(
    rt: &R,
    alloc: Global,
    words: &[String],
    order: &Option<Order>,
    out: &mut O,
    progress: &Progress<P>,
    watcher: Option<&Watcher>,
) -> Ended {
    let mut audits = false;
    let mut is_all = false;
    let mut may_be_large = false;
    if let Some(order) = order {
        audits = matches!(order, Order::Audit { .. });
        is_all = matches!(
            order,
            Order::All { .. } | Order::Verify { .. } | Order::Maps { .. }
        );
        may_be_large = source_of(order).is_some_and(|wad| !wad.large);
    }
    let mut shelf = DiskShelf::new(rt);
    let status = match run_words(rt, alloc, words, &mut shelf, out, progress, watcher) {
        Ok(status) => status,
        Err(memory) => Status::Memory(memory),
    };
    shelf.discard();
    if let (true, Some(refusal)) = (is_of_file(&status), shelf.last_refusal()) {
        progress.name_refusal(&refusal.name, &refusal.error);
    }
    if is_all && matches!(status, Status::Done) {
        progress.end();
    }
    if may_be_large && (refuses_size(&status) || progress.has_refused_size()) {
        progress.name_larger_limits();
    }
    if let Some(order) = order {
        explain(rt, order, &status, progress);
    }
    Ended { status, audits }
}

/// Says more of maps of UDMF that are refused, where the WAD's file can be read once more: a pipe can't, and might wait for ever.
fn explain<R: Files + Print + AllocGlobal, P: Print>(
    rt: &R,
    order: &Order,
    status: &Status,
    progress: &Progress<P>,
) {
    let asks_for_end = matches!(status, Status::NoMap(MapFault::NoEnd));
    let at = byte_of(status);
    if at.is_none() && !asks_for_end && !progress.has_bad_bytes() {
        return;
    }
    let Some(source) = source_of(order) else {
        return;
    };
    let file = source.file.as_str();
    if !fs::metadata(rt, file).is_ok_and(|found| found.is_file()) {
        return;
    }
    if let Some(wad) = WadAgain::read(rt.alloc(), &mut DiskShelf::new(rt), file) {
        explain_by(rt.alloc(), &wad, order, at, asks_for_end, progress);
    }
}

fn explain_by<P: Print>(
    alloc: Global,
    wad: &WadAgain,
    order: &Order,
    at: Option<usize>,
    asks_for_end: bool,
    progress: &Progress<P>,
) {
    progress.name_bad_bytes(wad);
    if let (Some(map), Some(at)) = (map_of(order), at) {
        if let Some(place) = wad.place(map.as_str(), at) {
            progress.name_place(place);
        }
    }
    if asks_for_end {
        if let Ok(names) = wad.without_end(alloc, order) {
            for name in &names {
                progress.pass_over(name);
            }
        }
    }
}

/// Whether the status is of a file that isn't there or that the system refused.
fn is_of_file(status: &Status) -> bool {
    matches!(
        status,
        Status::NoFile(_) | Status::ReadFault(_) | Status::WriteFault(_)
    )
}

/// Whether a file that the order writes is the standard output. Its line goes to standard error then.
fn has_standard_output(order: &Option<Order>) -> bool {
    match order {
        Some(order) => writes_to_standard_output(order),
        None => false,
    }
}

/// Does what the words ask of the program itself or of files, and gives the exit code. It says the same as what is said of wrong
/// words to `err`, so a fault of standard error changes nothing. Who watches is told how far each build is.
pub fn run_order<R: Files + Print + Threads + Sync + AllocGlobal, E: Print + IsTerminal>(
    rt: &R,
    err: &E,
    words: &[String],
    watcher: Option<&Watcher>,
) -> ExitCode {
    let mut out = StdSink::new(rt);
    if let Some(question) = question_in(words) {
        return exit_code(&answer(&mut out, &question));
    }
    let alloc = rt.alloc();
    // where the order isn't known, the line of a run could end up behind the bytes of its file
    let order = match read_words(alloc, words) {
        Ok(order) => Some(order),
        Err(OrderFault::Usage) => None,
        Err(OrderFault::Memory(ref memory)) => return exit_code(&Status::Memory(*memory)),
    };
    let progress = Progress::new(err, alloc, err.is_terminal());
    let ended = if has_standard_output(&order) {
        let mut line = StdSink::new(err);
        obey(rt, alloc, words, &order, &mut line, &progress, watcher)
    } else {
        obey(rt, alloc, words, &order, &mut out, &progress, watcher)
    };
    if matches!(ended.status, Status::Usage) {
        print_diagnosis(err, words);
    }
    code_of(&ended)
}

/// Does what the words behind the program's name ask, and gives the exit code. Who watches is told how far each build is.
pub fn run_program<R: Env + Files + Print + Threads + Sync + AllocGlobal, E: Print + IsTerminal>(
    rt: &R,
    err: &E,
    watcher: Option<&Watcher>,
) -> ExitCode {
    match words_of(rt) {
        Ok(words) => run_order(rt, err, &words, watcher),
        Err(NoWords::Memory(ref memory)) => exit_code(&Status::Memory(*memory)),
        Err(NoWords::NotText) => {
            let status = put_refusal(rt.alloc(), &mut StdSink::new(rt), Status::Usage);
            let _ = err.println("a word isn't UTF-8");
            let _ = print_synopsis(err, None);
            exit_code(&status)
        }
    }
}
