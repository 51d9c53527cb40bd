//! Runs of the top call over files in memory.

use listeners::Listener;
use shelf_io::MemSink;
use sight_run::{Hooks, NoNotice, code, run};
use sight_workers::Gate;
use std::alloc::{AllocError, Global};
use std::thread::Threads;
use worked_maps::stages::{Stage, words_in};

/// Runs the words of the line on the stage, with no listeners, and gives the exit code. It says nothing of what `run` promises, so that the proof of no
/// test carries that along.
pub fn run_on<R: Threads + Sync, G: Gate + Sync>(
    rt: &R,
    alloc: Global,
    stage: &mut Stage,
    line: &str,
    gate: &G,
) -> Result<u8, AllocError> {
    let words = words_in(alloc, line)?;
    let mut out = MemSink::new(alloc, stage.puts.clone()?);
    let mut none: Vec<Box<dyn Listener>> = Vec::new(alloc);
    let hooks = Hooks {
        gate,
        watcher: None,
    };
    let status = run(
        rt,
        alloc,
        &words,
        &mut stage.shelf,
        &mut out,
        &mut none,
        &hooks,
        &NoNotice,
    );
    stage.text = out.held().to_vec(alloc)?;
    Ok(code(&status))
}
