//! What is known to see each other, and what may be seen behind each gate by that alone.
//!
//! Nothing is proved of it: it only grows, and what a search misses by it the rounds behind the first walk find.

use crate::bars::{Bar, bars_of};
use crate::floods::{GATES, Part};
use gate_floods::gate_masks::gates::Gates;
use line_search::words::{
    count_in, has_any, join_at, put_at, put_words, row_with, start_of, width_of, zeros,
};
use line_search::{first_of, short};
use sight_names::Memory;
use std::alloc::Global;

/// For each group a row of those that it is known to see, and for each gate a row of those that may be seen behind it by that: a
/// flood of gates through what its near group is known to see, less what its far group isn't known to see.
#[derive(Drop)]
pub struct Known {
    pub width: usize,
    count: u16,
    /// The rows of the groups, one behind the other.
    pub seen: Vec<u64>,
    /// The floods of the gates.
    pub floods: Vec<u64>,
    /// The rows of the gates.
    pub masks: Vec<u64>,
    /// What these got last.
    pub more: Vec<u64>,
    /// Whether that is anything, a bit for each gate.
    pub changed: Vec<u64>,
    pub bars: Vec<Bar>,
    /// Where those out of each group are.
    pub spans: Vec<Span>,
    /// Which groups are newly known to see any.
    pub fresh: Vec<bool>,
}

/// Where the gates out of a group are.
#[derive(Clone, Copy)]
pub struct Span {
    from: u32,
    to: u32,
}

/// Where the gates out of each of so many groups are.
fn spans_of(alloc: Global, gates: &Gates, count: u16) -> Result<Vec<Span>, Memory> {
    let mut spans = Vec::new(alloc);
    for group in 0..count {
        spans.push(Span {
            from: short(first_of(gates, group as u32)),
            to: short(first_of(gates, group as u32 + 1)),
        })?;
    }
    Ok(spans)
}

/// The bars of the gates out of this group.
#[inline(always)]
pub fn bars_out_of<'a>(bars: &'a [Bar], spans: &[Span], group: u16) -> &'a [Bar] {
    match spans.get(group as usize) {
        Some(span) => {
            let to = (span.to as usize).min(bars.len());
            &bars[(span.from as usize).min(to)..to]
        }
        None => &[],
    }
}

/// Notes the groups that are newly known to see any.
fn note_fresh(fresh: &mut [bool], new: &[u64], width: usize) {
    for group in 0..fresh.len() {
        fresh[group] = has_any(row_with(new, group, width));
    }
}

/// Whether it is noted of the group.
#[inline(always)]
pub fn is_fresh(fresh: &[bool], group: u16) -> bool {
    match fresh.get(group as usize) {
        Some(one) => *one,
        None => false,
    }
}

impl Known {
    /// Each of so many groups sees itself.
    pub fn of(alloc: Global, gates: &Gates, count: u16) -> Result<Known, Memory> {
        let number = gates.gates.len();
        let width = width_of(count);
        let mut known = Known {
            width,
            count,
            seen: zeros(alloc, start_of(count as usize, width))?,
            floods: zeros(alloc, start_of(number, width))?,
            masks: zeros(alloc, start_of(number, width))?,
            more: zeros(alloc, start_of(number, width))?,
            changed: zeros(alloc, number.div_ceil(64))?,
            bars: bars_of(alloc, gates.gates.as_slice())?,
            spans: spans_of(alloc, gates, count)?,
            fresh: vec![in alloc; false; count as usize]?,
        };
        for group in 0..count {
            put_at(
                known.seen.as_mut_slice(),
                start_of(group as usize, width),
                group,
            );
        }
        Ok(known)
    }

    /// What the group is known to see.
    #[inline(always)]
    pub fn row(&self, group: u16) -> &[u64] {
        row_with(self.seen.as_slice(), group as usize, self.width)
    }

    /// The groups in the order of how many they are known to see.
    pub fn order(&self, alloc: Global) -> Result<Vec<u16>, Memory> {
        let mut counted = Vec::new(alloc);
        for group in 0..self.count {
            counted.push((count_in(self.row(group)), group))?;
        }
        counted.sort_by_key(|pair| pair.0)?;
        let mut order = Vec::new(alloc);
        for pair in counted.as_slice() {
            order.push(pair.1)?;
        }
        Ok(order)
    }

    /// Takes in what the groups are newly known to see, and notes which do.
    pub fn join(&mut self, new: &[u64]) {
        join_at(self.seen.as_mut_slice(), 0, new);
        note_fresh(self.fresh.as_mut_slice(), new, self.width);
    }

    /// How many parts the gates come in.
    pub fn parts(&self) -> usize {
        self.bars.len().div_ceil(GATES)
    }

    /// Takes in the rows of the gates in all parts, one after the other.
    pub fn take(&mut self, parts: &[Part]) {
        let mut number: usize = 0;
        for one in parts {
            let begin = start_of(one.from, self.width);
            put_words(self.floods.as_mut_slice(), begin, one.floods.as_slice());
            put_words(self.masks.as_mut_slice(), begin, one.masks.as_slice());
            put_words(self.more.as_mut_slice(), begin, one.more.as_slice());
            if number < self.changed.len() {
                self.changed[number] = one.changed;
            }
            number = number.wrapping_add(1);
        }
    }
}
