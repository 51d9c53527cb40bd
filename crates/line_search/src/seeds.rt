//! Lines tried through each gate before anything is searched for. Which ones doesn't matter: each ray is judged before it counts.

use crate::cells::Cells;
use crate::cones::{Line, narrow};
use crate::tracks::Tracks;
use crate::words::word_at;
use gate_floods::gate_masks::gate::Gate;
use sight_names::Memory;
use std::alloc::Global;
use task_crew::Tasks;

/// How many lines are tried through each gate.
const TRIED: u32 = 2;

/// Through how many gates a task tries lines.
const GATES: usize = 64;

/// With which number the row of numbers in no order begins.
const FIRST: u64 = 0x9e37_79b9_7f4a_7c15;

/// The next number of a row of numbers in no order.
fn next_number(number: u64) -> u64 {
    let one = number ^ (number << 13);
    let two = one ^ (one >> 7);
    two ^ (two << 17)
}

/// The number without its last binary digits, so that it has 12.
fn shortened(across: i64, along: i64) -> (i64, i64) {
    let mut x = across;
    let mut y = along;
    for _ in 0..40 {
        if x < 4096 && x > -4096 && y < 4096 && y > -4096 {
            return (x, y);
        }
        x /= 2;
        y /= 2;
    }
    (x, y)
}

/// A direction through the gate that the number chooses.
fn direction(gate: &Gate, number: u64) -> (i64, i64) {
    let x = (gate.left_at.x as i64).wrapping_sub(gate.right_at.x as i64);
    let y = (gate.left_at.y as i64).wrapping_sub(gate.right_at.y as i64);
    let slant = (((number >> 16) % 1024) as i64).wrapping_sub(512);
    let (forward, along) = if (number >> 40) % 4 == 0 {
        (256i64, slant.wrapping_mul(4))
    } else {
        (512i64, slant)
    };
    shortened(
        y.wrapping_mul(forward).wrapping_add(x.wrapping_mul(along)),
        y.wrapping_mul(along).wrapping_sub(x.wrapping_mul(forward)),
    )
}

/// A line through the gate that the number chooses.
fn line_through(gate: &Gate, number: u64) -> Line {
    let near_left = ((number % 65_536 % 255) as i64).wrapping_add(1);
    let near_right = 256i64.wrapping_sub(near_left);
    // 256 times the point
    let x = near_left
        .wrapping_mul(gate.left_at.x as i64)
        .wrapping_add(near_right.wrapping_mul(gate.right_at.x as i64));
    let y = near_left
        .wrapping_mul(gate.left_at.y as i64)
        .wrapping_add(near_right.wrapping_mul(gate.right_at.y as i64));
    let (across, along) = direction(gate, number);
    Line {
        a: narrow(along.wrapping_mul(-256)),
        b: narrow(across.wrapping_mul(256)),
        c: along.wrapping_mul(x).wrapping_sub(across.wrapping_mul(y)),
    }
}

/// Tries the line that the number chooses through the gate, and notes it where it goes through.
fn try_line(
    cells: &Cells,
    gates: &[Gate],
    gate: usize,
    number: u64,
    tracks: &mut Tracks,
) -> Result<(), Memory> {
    let Some(one) = gates.get(gate) else {
        return Ok(());
    };
    let line = line_through(one, number);
    if line.level(one.left_at) > 0 && line.level(one.right_at) < 0 {
        tracks.follow(cells, gates, gate, line)?;
    }
    Ok(())
}

/// The number with which the row of numbers goes on at the first gate of each task, for so many gates.
pub fn numbers_for(alloc: Global, gates: usize) -> Result<Vec<u64>, Memory> {
    let mut numbers = Vec::new(alloc);
    let mut number = FIRST;
    for gate in 0..gates {
        if gate % GATES == 0 {
            numbers.push(number)?;
        }
        for _ in 0..TRIED {
            number = next_number(number);
        }
    }
    Ok(numbers)
}

/// Lines through all gates, as tasks, and the numbers that they begin with.
#[derive(Drop)]
pub struct Seeds<'a> {
    pub cells: &'a Cells,
    pub gates: &'a [Gate],
    pub numbers: &'a [u64],
}

impl<'a> Tasks for Seeds<'a> {
    type Tools = Tracks;

    type Done = Tracks;

    ghost can_do = { λ w i. Unit {0} };

    ghost is_done = { λ w i made. Unit {0} };

    fn tools(&self, alloc: Global) -> Tracks {
        Tracks::new(alloc)
    }

    fn work(&self, alloc: Global, tracks: &mut Tracks, number: usize) -> Result<Tracks, Memory> {
        let mut chosen = word_at(self.numbers, number);
        let from = number.saturating_mul(GATES).min(self.gates.len());
        let to = from.saturating_add(GATES).min(self.gates.len());
        tracks.clear();
        for gate in from..to {
            for _ in 0..TRIED {
                chosen = next_number(chosen);
                try_line(self.cells, self.gates, gate, chosen, tracks)?;
            }
        }
        tracks.copy(alloc)
    }
}
