//! Floods of gates as tasks: that of a gate depends on what is known alone. Nothing is proved of them.

ghost use Rattle.std.specs.Prelude.{ℕ};

use crate::bars::{Bar, may_follow};
use crate::known::{Known, bars_out_of, is_fresh};
use gate_floods::row_judge::words::part;
use line_search::words::{has_at, put_at, row_with, start_of, take_group, word_at, zeros};
use sight_names::Memory;
use std::alloc::Global;
use task_crew::Tasks;

/// How many gates a task floods: as many as a word has bits, which says of which of them the row changed.
pub const GATES: usize = 64;

/// The floods and rows of some gates, what the rows got last, and a bit for each gate that says whether that is anything.
#[derive(Drop)]
pub struct Part {
    pub from: usize,
    pub to: usize,
    pub floods: Vec<u64>,
    pub masks: Vec<u64>,
    pub more: Vec<u64>,
    pub changed: u64,
}

/// Goes on with a flood from one gate through these: what lies behind those that may follow it is flooded, and queued.
#[inline(always)]
fn flood_on(
    own: &Bar,
    bars: &[Bar],
    flood: &mut [u64],
    queue: &mut Vec<u16>,
) -> Result<(), Memory> {
    for next in bars {
        let place = next.far as usize / 64;
        let bit: u64 = 1 << (next.far % 64);
        if place < flood.len() && flood[place] & bit == 0 && may_follow(own, next) {
            flood[place] |= bit;
            queue.push(next.far)?;
        }
    }
    Ok(())
}

impl Part {
    /// Leaves to the gate at this place what of its flood its far group is known to see; what is new of that is noted.
    fn meet(&mut self, seen: &[u64], place: usize) {
        let begin = start_of(place, seen.len());
        let floods = part(self.floods.as_slice(), begin, seen.len());
        let masks = self.masks.as_mut_slice();
        let more = self.more.as_mut_slice();
        if begin > masks.len() || masks.len() - begin < seen.len() {
            return;
        }
        if more.len() != masks.len() || floods.len() < seen.len() {
            return;
        }
        let mut any = 0;
        for word in 0..seen.len() {
            let now = floods[word] & seen[word];
            let new = now & !masks[begin + word];
            masks[begin + word] = now;
            more[begin + word] = new;
            any |= new;
        }
        if any != 0 {
            self.changed |= 1 << (place % 64);
        }
    }
}

/// Floods of all gates, which go on by what the groups are newly known to see.
#[derive(Drop)]
pub struct Floods<'a> {
    pub known: &'a Known,
    pub new: &'a [u64],
}

impl<'a> Floods<'a> {
    /// The part of the gates with this number, as it was.
    fn part(&self, alloc: Global, number: usize) -> Result<Part, Memory> {
        let known = self.known;
        let count = known.bars.len();
        let from = number.saturating_mul(GATES).min(count);
        let to = from.saturating_add(GATES).min(count);
        let begin = start_of(from, known.width);
        let len = start_of(to.saturating_sub(from), known.width);
        Ok(Part {
            from,
            to,
            floods: Vec::from_slice(alloc, part(known.floods.as_slice(), begin, len))?,
            masks: Vec::from_slice(alloc, part(known.masks.as_slice(), begin, len))?,
            more: zeros(alloc, len)?,
            changed: 0,
        })
    }

    /// Goes on with the flood and the row of the gate with this number, if one of its two groups is newly known to see any.
    fn flood(&self, one: &mut Part, number: usize, queue: &mut Vec<u16>) -> Result<(), Memory> {
        let known = self.known;
        let Some(bar) = known.bars.get(number) else {
            return Ok(());
        };
        let place = number.saturating_sub(one.from);
        let begin = start_of(place, known.width);
        let begins = !has_at(one.floods.as_slice(), begin, bar.far);
        let near = is_fresh(known.fresh.as_slice(), bar.near);
        let far = is_fresh(known.fresh.as_slice(), bar.far);
        if begins {
            put_at(one.floods.as_mut_slice(), begin, bar.far);
            self.flood_from(one, bar, begin, bar.far, queue)?;
        } else if near {
            self.flood_more(one, bar, begin, queue)?;
        }
        if begins || near || far {
            one.meet(known.row(bar.far), place);
        }
        Ok(())
    }

    /// The flood that begins here has come to the group: it goes on from there through what the near group is known to see.
    fn flood_from(
        &self,
        one: &mut Part,
        own: &Bar,
        begin: usize,
        group: u16,
        queue: &mut Vec<u16>,
    ) -> Result<(), Memory> {
        let known = self.known;
        let seen = known.row(own.near);
        let bars = known.bars.as_slice();
        let spans = known.spans.as_slice();
        let to = begin.wrapping_add(known.width).min(one.floods.len());
        let flood = &mut one.floods.as_mut_slice()[begin.min(to)..to];
        queue.clear();
        queue.push(group)?;
        // no group is queued twice
        for _ in 0..65_536 {
            let Some(next) = queue.pop() else {
                return Ok(());
            };
            if has_at(seen, 0, next) {
                flood_on(own, bars_out_of(bars, spans, next), flood, queue)?;
            }
        }
        Ok(())
    }

    /// Goes on with the flood that begins here from all groups that the near group of its gate is newly known to see.
    fn flood_more(
        &self,
        one: &mut Part,
        bar: &Bar,
        begin: usize,
        queue: &mut Vec<u16>,
    ) -> Result<(), Memory> {
        let new = row_with(self.new, bar.near as usize, self.known.width);
        for place in 0..new.len() {
            let word = word_at(one.floods.as_slice(), begin.wrapping_add(place)) & new[place];
            if word != 0 {
                self.flood_word(one, bar, begin, place, word, queue)?;
            }
        }
        Ok(())
    }

    /// The same from the groups in this word, which stands at this place of a row.
    fn flood_word(
        &self,
        one: &mut Part,
        bar: &Bar,
        begin: usize,
        place: usize,
        mut word: u64,
        queue: &mut Vec<u16>,
    ) -> Result<(), Memory> {
        for _ in 0..64 {
            let Some(group) = take_group(&mut word, place) else {
                return Ok(());
            };
            self.flood_from(one, bar, begin, group, queue)?;
        }
        Ok(())
    }
}

impl<'a> Tasks for Floods<'a> {
    type Tools = Vec<u16>;

    type Done = Part;

    ghost can_do = { λ w i. Unit {0} };

    ghost is_done = { λ w i made. Unit {0} };

    fn tools(&self, alloc: Global) -> Vec<u16> {
        Vec::new(alloc)
    }

    fn work(&self, alloc: Global, queue: &mut Vec<u16>, number: usize) -> Result<Part, Memory> {
        let mut one = self.part(alloc, number)?;
        for gate in one.from..one.to {
            self.flood(&mut one, gate, queue)?;
        }
        Ok(one)
    }
}
