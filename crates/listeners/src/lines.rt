//! A line for each set or listed pair.

ghost use Rattle.std.specs.Prelude.{◌≡◌, []};

use crate::finding::{Finding, Keep};
use crate::listener::Listener;
use crate::words::{ROOM, copy_from, note, put_finding_line};
use sight_names::Memory;
use std::alloc::Global;
use std::marker::Model;

/// Writes a line for each set or listed pair, as `set 0 2` or `listed 0 2`, and hears to the end. A contract sees it as what it heard.
#[derive(Drop)]
pub struct Lines {
    heard: Vec<Finding>,
    text: Vec<u8>,
}

impl Model for Lines {
    ghost use Rattle.std.specs.Prelude.{◌≡◌, List};
    ghost use Rattle.listeners.specs.declared.finding.Finding.{Finding as Found};
    ghost use Rattle.listeners.specs.Texts.{finding_lines};

    ghost Value = { List Found };

    ghost view = { λ l. l.heard.items };

    ghost invariant = { λ l. l.text.items ≡ finding_lines l.heard.items };
}

impl Lines {
    /// One that has heard nothing. It takes no memory.
    pub fn new(alloc: Global) -> Lines
        ensures { result ≡ [] }
    {
        Lines {
            heard: Vec::new(alloc),
            text: Vec::new(alloc),
        }
    }
}

impl Listener for Lines {
    ghost use Rattle.listeners.specs.Reporters.{lines_state};

    ghost listener_state = { lines_state };

    fn hear(&mut self, finding: &Finding) -> Result<Keep, Memory> {
        let mut line = [0; ROOM];
        let start = put_finding_line(finding, &mut line);
        note(&mut self.heard, &mut self.text, *finding, &line[start..])?;
        Ok(Keep::Stay)
    }

    fn words_at(&self, at: u64, buf: &mut [u8]) -> usize {
        copy_from(&self.text, at, buf)
    }
}
