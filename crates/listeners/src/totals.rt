//! How many pairs are set, clear and listed.

ghost use Rattle.std.specs.Prelude.{◌≡◌, []};

use crate::finding::{Finding, Keep, Kind};
use crate::listener::Listener;
use crate::words::{ROOM, copy_from, put_total_line};
use sight_names::Memory;
use std::alloc::Global;
use std::marker::Model;

/// Counts the pairs, writes one line of the counts, as `total set 1 clear 5 listed 0`, and hears to the end. A contract sees it as what
/// it heard.
#[derive(Drop)]
pub struct Totals {
    heard: Vec<Finding>,
    set: u64,
    clear: u64,
    listed: u64,
}

impl Model for Totals {
    ghost use Rattle.std.specs.Prelude.{List};
    ghost use Rattle.listeners.specs.declared.finding.Finding.{Finding as Found};
    ghost use Rattle.listeners.specs.Counts.{AreCounts};

    ghost Value = { List Found };

    ghost view = { λ t. t.heard.items };

    ghost invariant = { λ t. AreCounts t.heard.items t.set t.clear t.listed };
}

impl Totals {
    /// One that has heard nothing. It takes no memory.
    pub fn new(alloc: Global) -> Totals
        ensures { result ≡ [] }
    {
        Totals {
            heard: Vec::new(alloc),
            set: 0,
            clear: 0,
            listed: 0,
        }
    }
}

impl Listener for Totals {
    ghost use Rattle.listeners.specs.Reporters.{totals_state};

    ghost listener_state = { totals_state };

    fn hear(&mut self, finding: &Finding) -> Result<Keep, Memory> {
        self.heard.push(*finding)?;
        match finding.kind {
            Kind::Set => self.set += 1,
            Kind::Clear => self.clear += 1,
            Kind::Listed => self.listed += 1,
        }
        Ok(Keep::Stay)
    }

    fn words_at(&self, at: u64, buf: &mut [u8]) -> usize {
        let mut line = [0; ROOM];
        let start = put_total_line(self.set, self.clear, self.listed, &mut line);
        copy_from(&line[start..], at, buf)
    }
}
