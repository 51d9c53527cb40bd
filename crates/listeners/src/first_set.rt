//! The first set pairs, and no more.

ghost use Rattle.std.specs.Prelude.{◌≡◌, ◌≤◌, []};

use crate::finding::{Finding, Keep, Kind};
use crate::listener::Listener;
use crate::words::{ROOM, copy_from, note, put_set_line};
use sight_names::Memory;
use std::alloc::Global;
use std::marker::Model;

/// Writes a line for each set pair, as `set 0 2`, and is done after so many of them.
#[derive(Drop)]
pub struct FirstSet {
    heard: Vec<Finding>,
    text: Vec<u8>,
    quota: u32,
    left: u32,
}

impl Model for FirstSet {
    ghost use Rattle.std.specs.Prelude.{◌≡◌, ◌-◌};
    ghost use Rattle.listeners.specs.FirstSet.{FirstSetParts};
    ghost use Rattle.listeners.specs.Listening.{sets_in};
    ghost use Rattle.listeners.specs.Texts.{set_lines};

    ghost Value = { FirstSetParts };

    ghost view = { λ f. record { heard = f.heard.items; quota = f.quota } };

    ghost invariant = { λ f. (f.text.items ≡ set_lines f.heard.items) × (f.left ≡ f.quota - sets_in f.heard.items) };
}

impl FirstSet {
    /// One that has heard nothing, and is done after `k` set pairs. It takes no memory.
    pub fn new(alloc: Global, k: u32) -> FirstSet
        requires { 1 ≤ k }
        ensures { result ≡ record { heard = []; quota = k } }
    {
        FirstSet {
            heard: Vec::new(alloc),
            text: Vec::new(alloc),
            quota: k,
            left: k,
        }
    }
}

impl Listener for FirstSet {
    ghost use Rattle.listeners.specs.FirstSet.{state_of};

    ghost listener_state = { state_of };

    fn hear(&mut self, finding: &Finding) -> Result<Keep, Memory> {
        let mut line = [0; ROOM];
        let start = put_set_line(finding, &mut line);
        note(&mut self.heard, &mut self.text, *finding, &line[start..])?;
        if finding.kind != Kind::Set {
            return Ok(Keep::Stay);
        }
        let left = self.left;
        self.left = left.saturating_sub(1);
        if left == 1 {
            return Ok(Keep::Done);
        }
        Ok(Keep::Stay)
    }

    fn words_at(&self, at: u64, buf: &mut [u8]) -> usize {
        copy_from(&self.text, at, buf)
    }
}
