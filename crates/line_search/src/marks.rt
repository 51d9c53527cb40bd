//! Which gates that searches met are to be looked at again once more is known. Nothing is proved of them.

use crate::cells::NONE;
use crate::scene::Scene;
use crate::traces::{Met, Trace};
use crate::words::{join_at, take_number, word_at};
use gate_floods::row_judge::words::part;
use sight_names::Memory;
use std::alloc::Global;

/// More than any trace's gates.
const STEPS: u64 = 1_000_000_000_000;

/// Which gates of a trace are to be looked at again, with the buffers for that.
#[derive(Drop)]
pub struct Marks {
    pub live: Vec<bool>,
    /// What masks of gates that were met got.
    more: Vec<u64>,
    /// The words of a row in which some of that is wanted.
    places: Vec<usize>,
    /// These words of what is wanted, at first, and then behind each gate on the way.
    rows: Vec<u64>,
    /// The gates on the way.
    way: Vec<u32>,
}

impl Marks {
    /// None.
    pub fn new(alloc: Global) -> Marks {
        Marks {
            live: Vec::new(alloc),
            more: Vec::new(alloc),
            places: Vec::new(alloc),
            rows: Vec::new(alloc),
            way: Vec::new(alloc),
        }
    }

    /// Marks what of the trace is to be looked at again, since masks got more of what is wanted. Whether anything is.
    pub fn mark(
        &mut self,
        scene: &Scene<'_>,
        trace: &Trace,
        wanted: &[u64],
    ) -> Result<bool, Memory> {
        self.gather_all(scene, trace)?;
        self.choose(wanted)?;
        if self.places.is_empty() {
            return Ok(false);
        }
        self.live.clear();
        self.live.resize(trace.met.len(), false)?;
        self.mark_all(scene, trace.met.as_slice())
    }

    /// Goes through the gates that were met, but through those behind an open one only where something new is wanted behind it.
    fn mark_all(&mut self, scene: &Scene<'_>, met: &[Met]) -> Result<bool, Memory> {
        let mut some = false;
        let mut number: u32 = 0;
        self.way.clear();
        for _ in 0..STEPS {
            let Some(one) = met.get(number as usize) else {
                return Ok(some);
            };
            let mask = scene.mask(one.gate);
            if one.is_open() && self.leads_on(mask)? {
                number = self.first_behind(met, one, number)?;
            } else {
                if !one.is_open() && self.is_opened(mask) {
                    some = true;
                    self.mark_way(number);
                }
                number = self.next_of(met, number);
            }
        }
        Ok(some)
    }

    /// Gathers what the masks of the gates that were met got.
    fn gather_all(&mut self, scene: &Scene<'_>, trace: &Trace) -> Result<(), Memory> {
        self.more.clear();
        self.more.resize(scene.width, 0)?;
        for place in 0..trace.tested.len().min(scene.changed.len()) {
            self.gather(scene, place, trace.tested[place] & scene.changed[place]);
        }
        Ok(())
    }

    /// The same of the gates in this word.
    fn gather(&mut self, scene: &Scene<'_>, place: usize, mut word: u64) {
        for _ in 0..64 {
            let Some(gate) = take_number(&mut word, place) else {
                return;
            };
            join_at(self.more.as_mut_slice(), 0, scene.more_of(gate));
        }
    }

    /// Chooses the words in which some of that is wanted.
    fn choose(&mut self, wanted: &[u64]) -> Result<(), Memory> {
        self.places.clear();
        self.rows.clear();
        let more = self.more.as_slice();
        for place in 0..wanted.len().min(more.len()) {
            let word = wanted[place] & more[place];
            if word != 0 {
                self.places.push(place)?;
                self.rows.push(word)?;
            }
        }
        Ok(())
    }

    /// Whether something new is wanted behind an open gate with this mask; the row of that is made.
    #[inline(always)]
    fn leads_on(&mut self, mask: &[u64]) -> Result<bool, Memory> {
        let count = self.places.len();
        let from = self.way.len().saturating_mul(count);
        let to = from.saturating_add(count);
        let end = to.saturating_add(count);
        if self.rows.len() < end {
            self.rows.resize(end, 0)?;
        }
        let places = self.places.as_slice();
        let rows = self.rows.as_mut_slice();
        if to > rows.len() || rows.len() - to < places.len() || from > to {
            return Ok(false);
        }
        let mut any = 0;
        for number in 0..places.len() {
            let word = rows[from + number] & word_at(mask, places[number]);
            rows[to + number] = word;
            any |= word;
        }
        Ok(any != 0)
    }

    /// Whether something that is wanted can be seen now behind a closed gate with this mask.
    #[inline(always)]
    fn is_opened(&self, mask: &[u64]) -> bool {
        let from = self.way.len().saturating_mul(self.places.len());
        let row = part(self.rows.as_slice(), from, self.places.len());
        for number in 0..row.len().min(self.places.len()) {
            if row[number] & word_at(mask, self.places[number]) != 0 {
                return true;
            }
        }
        false
    }

    /// The first gate that was met behind this one, or else the next one.
    #[inline(always)]
    fn first_behind(&mut self, met: &[Met], one: &Met, number: u32) -> Result<u32, Memory> {
        if one.child == NONE {
            return Ok(self.next_of(met, number));
        }
        self.way.push(number)?;
        Ok(one.child)
    }

    /// The next gate that was met behind the same one, or else behind one before that on the way.
    #[inline(always)]
    fn next_of(&mut self, met: &[Met], number: u32) -> u32 {
        let mut last = number;
        for _ in 0..met.len() {
            let Some(one) = met.get(last as usize) else {
                return NONE;
            };
            if one.next != NONE {
                return one.next;
            }
            let Some(before) = self.way.pop() else {
                return NONE;
            };
            last = before;
        }
        NONE
    }

    /// Marks the gate and all on the way to it. What is before a marked one is marked too.
    fn mark_way(&mut self, number: u32) {
        let live = self.live.as_mut_slice();
        let way = self.way.as_slice();
        put_live(live, number);
        for place in 0..way.len() {
            if !put_live(live, way[way.len() - 1 - place]) {
                return;
            }
        }
    }
}

/// Marks the gate with this number. Whether it wasn't marked before.
#[inline(always)]
fn put_live(live: &mut [bool], number: u32) -> bool {
    let place = number as usize;
    if place >= live.len() || live[place] {
        return false;
    }
    live[place] = true;
    true
}
