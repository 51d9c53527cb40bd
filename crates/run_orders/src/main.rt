//! The program on each line of the standard input in turn, behind the exit code that is wanted, and then on the words behind its
//! own name. Where all codes are as wanted, it ends as the last of these runs does.
#![tactic(auto)]

use program::{run_order, run_program};
use std::io::IsTerminal;
use std::process::ExitCode;
use std::rt::Files;
use std::thread::Threads;
use worked_maps::stages::words_in;

// Whether the words behind the first one end with the exit code that it is.
fn ends_so<R: Files + Print + Threads + Sync + AllocGlobal, E: Print + IsTerminal>(
    rt: &R,
    err: &E,
    line: &str,
) -> bool {
    let (code, words) = line.split_once(' ').unwrap_or(("", line));
    let (Ok(code), Ok(words)) = (code.parse::<u8>(), words_in(rt.alloc(), words)) else {
        return false;
    };
    run_order(rt, err, &words, None) == ExitCode::from(code)
}

fn main(rt: HostRuntime) -> ExitCode {
    for line in rt.lines(rt.alloc()) {
        let Ok(line) = line else {
            return ExitCode::FAILURE;
        };
        if !ends_so(&rt, &rt.stderr(), &line) {
            return ExitCode::FAILURE;
        }
    }
    run_program(&rt, &rt.stderr(), None)
}
