//! The gates that searches met. Nothing is proved of them.

use crate::cells::{NONE, short};
use crate::words::put_bit;
use sight_names::Memory;
use std::alloc::Global;

/// Stands for the first gate met behind one that the search didn't go through.
const SHUT: u32 = 4_294_967_294;

/// A gate that a search met, the next one met behind the same one, and the first one met behind itself.
#[derive(Clone, Copy)]
pub struct Met {
    pub next: u32,
    pub child: u32,
    pub gate: u32,
}

/// The gates that the searches of a group met, and a bit for each gate that is among them.
#[derive(Drop)]
pub struct Trace {
    pub met: Vec<Met>,
    pub tested: Vec<u64>,
}

/// A gate met before, and the first one that is met behind it now.
#[derive(Clone, Copy)]
struct Entered {
    entry: u32,
    child: u32,
}

/// What a search adds to a trace: gates that it met first, which are numbered behind those of the trace, and gates of the trace
/// that it went through first.
#[derive(Drop)]
pub struct Growth {
    met: Vec<Met>,
    entered: Vec<Entered>,
}

/// How far a search is among the gates met behind one: that one, the next one of them, if they are known, and the last one.
#[derive(Clone, Copy)]
pub struct Level {
    entry: u32,
    pub next: u32,
    last: u32,
}

impl Met {
    /// Whether a search went through the gate.
    #[inline(always)]
    pub fn is_open(&self) -> bool {
        self.child != SHUT
    }
}

impl Trace {
    /// Nothing met.
    pub fn new(alloc: Global) -> Trace {
        Trace {
            met: Vec::new(alloc),
            tested: Vec::new(alloc),
        }
    }

    /// Before the gates that are met first.
    pub fn top(&self) -> Level {
        Level {
            entry: NONE,
            next: if self.met.is_empty() { NONE } else { 0 },
            last: NONE,
        }
    }

    /// Before the gates that are met behind this one.
    #[inline(always)]
    pub fn behind(&self, entry: u32) -> Level {
        let next = match self.met.get(entry as usize) {
            Some(one) if one.is_open() => one.child,
            _ => NONE,
        };
        Level {
            entry,
            next,
            last: NONE,
        }
    }

    /// Takes in what a search adds, of so many words of gates. No room is left over, since a map has many traces.
    pub fn grow(&mut self, more: Growth, words: usize) -> Result<(), Memory> {
        let Growth { met, entered } = more;
        if met.is_empty() && entered.is_empty() {
            return Ok(());
        }
        self.tested.resize(words, 0)?;
        self.note_tested(met.as_slice());
        self.note_entered(entered.as_slice());
        self.add(met)
    }

    /// Adds gates that are met for the first time.
    fn add(&mut self, met: Vec<Met>) -> Result<(), Memory> {
        if self.met.is_empty() {
            self.met = met;
        } else {
            self.met.reserve_exact(met.len())?;
            self.met.extend_from_slice(met.as_slice())?;
        }
        Ok(())
    }

    /// Puts the bits of the gates.
    fn note_tested(&mut self, met: &[Met]) {
        for one in met {
            put_bit(self.tested.as_mut_slice(), one.gate as usize);
        }
    }

    /// Notes which gates a search went through first. Of one that stands there twice the later one tells.
    fn note_entered(&mut self, entered: &[Entered]) {
        for one in entered {
            if let Some(met) = self.met.get_mut(one.entry as usize) {
                met.child = one.child;
            }
        }
    }
}

impl Growth {
    /// Nothing.
    pub fn new(alloc: Global) -> Growth {
        Growth {
            met: Vec::new(alloc),
            entered: Vec::new(alloc),
        }
    }

    /// Lets all go.
    pub fn clear(&mut self) {
        self.met.clear();
        self.entered.clear();
    }

    /// The same with no room left over.
    pub fn copy(&self, alloc: Global) -> Result<Growth, Memory> {
        Ok(Growth {
            met: Vec::from_slice(alloc, self.met.as_slice())?,
            entered: Vec::from_slice(alloc, self.entered.as_slice())?,
        })
    }

    /// Notes a gate that is met for the first time: then its number.
    #[inline(always)]
    pub fn note(
        &mut self,
        before: &Trace,
        level: &mut Level,
        gate: u32,
        open: bool,
    ) -> Result<u32, Memory> {
        let base = short(before.met.len());
        let number = base.wrapping_add(short(self.met.len()));
        self.met.push(Met {
            next: NONE,
            child: if open { NONE } else { SHUT },
            gate,
        })?;
        self.link(base, level, number)?;
        level.last = number;
        Ok(number)
    }

    /// Lets what comes before the gate with this number tell of it: the one met last, or the first one behind which it was met.
    #[inline(always)]
    fn link(&mut self, base: u32, level: &Level, number: u32) -> Result<(), Memory> {
        // a number below the base comes to a place that is none
        let last = level.last.wrapping_sub(base) as usize;
        let entry = level.entry.wrapping_sub(base) as usize;
        if let Some(one) = self.met.get_mut(last) {
            one.next = number;
        } else if let Some(one) = self.met.get_mut(entry) {
            one.child = number;
        } else if level.entry != NONE {
            self.entered.push(Entered {
                entry: level.entry,
                child: number,
            })?;
        }
        Ok(())
    }

    /// Goes on to the next gate that was met before, and through it if it is to be looked at again: then its number.
    #[inline(always)]
    pub fn meet_again(
        &mut self,
        before: &Trace,
        level: &mut Level,
        live: &[bool],
    ) -> Result<Option<u32>, Memory> {
        let number = level.next;
        let Some(one) = before.met.get(number as usize) else {
            return Ok(None);
        };
        level.next = one.next;
        if !is_live(live, number) {
            return Ok(None);
        }
        if !one.is_open() {
            self.entered.push(Entered {
                entry: number,
                child: NONE,
            })?;
        }
        Ok(Some(number))
    }
}

/// Whether the gate with this number is to be looked at again.
#[inline(always)]
fn is_live(live: &[bool], number: u32) -> bool {
    match live.get(number as usize) {
        Some(one) => *one,
        None => false,
    }
}
