//! The lines of a plan by their lesser ends. Nothing rests on what they hold: by them a line is found soon, and where they
//! show none, as where memory for them is refused, all lines are looked at.

use sight_names::{Line, Plan};
use std::alloc::{AllocError, Global};

/// For each point the last line whose lesser end it is, and for each line the one before it. Numbers are greater by one,
/// and 0 is none.
#[derive(Drop)]
pub struct Chains {
    last: Vec<u16>,
    earlier: Vec<u16>,
}

/// Puts the line with this record number before the others with its lesser end.
fn link(last: &mut [u16], earlier: &mut [u16], line: Line, i: usize) {
    let point = line.a.min(line.b) as usize;
    if point < last.len() && i < earlier.len() && i < 65535 {
        earlier[i] = last[point];
        last[point] = i as u16 + 1;
    }
}

/// The chains of a plan's lines.
fn linked(alloc: Global, plan: &Plan) -> Result<Chains, AllocError> {
    let mut last = vec![in alloc; 0u16; plan.points().len()]?;
    let mut earlier = vec![in alloc; 0u16; plan.lines().len()]?;
    for (i, entry) in plan.lines().iter().enumerate() {
        if let Some(line) = entry {
            link(last.as_mut_slice(), earlier.as_mut_slice(), *line, i);
        }
    }
    Ok(Chains { last, earlier })
}

/// The chains of a plan's lines, or chains that lead to no line.
pub fn chains_of(alloc: Global, plan: &Plan) -> Chains {
    match linked(alloc, plan) {
        Ok(chains) => chains,
        Err(_) => {
            Chains {
                last: Vec::new(alloc),
                earlier: Vec::new(alloc),
            }
        }
    }
}

impl Chains {
    /// The number of the last line with this lesser end, and one more.
    pub fn start(&self, u: u16, v: u16) -> usize {
        match self.last.as_slice().get(u.min(v) as usize) {
            Some(at) => *at as usize,
            None => 0,
        }
    }

    /// The number of the line before this one in its chain, and one more.
    pub fn before(&self, i: usize) -> usize {
        match self.earlier.as_slice().get(i) {
            Some(at) => *at as usize,
            None => 0,
        }
    }
}
