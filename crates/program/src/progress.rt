//! What is told of the maps while maps of a WAD are built, judged or listed, and behind a run.

use crate::places::{BadByte, TextPlace, WadAgain, byte_of};
use crate::usage::print_larger_limits;
use sight_run::{Bound, Fate, Notice, Status};
use std::alloc::{AllocError, Global};
use std::cell::{Cell, RefCell};
use std::io;

/// Shows which maps are done, where a terminal shows it, and always which ones are refused, aren't read or aren't there. What can't
/// be shown, or finds no memory, changes nothing.
#[derive(Drop)]
pub struct Progress<P: Print> {
    to: P,
    alloc: Global,
    is_terminal: bool,
    has_told: Cell<bool>,
    has_refused_size: Cell<bool>,
    has_kept: Cell<bool>,
    bad_bytes: RefCell<Vec<BadByte>>,
}

/// Whether a limit of a map's size refused it.
pub fn refuses_size(status: &Status) -> bool {
    matches!(
        status,
        Status::Limit(Bound::Points | Bound::Lines | Bound::Sectors)
    )
}

impl<P: Print> Progress<P> {
    pub fn new(to: P, alloc: Global, is_terminal: bool) -> Progress<P> {
        Progress {
            to,
            alloc,
            is_terminal,
            has_told: Cell::new(false),
            has_refused_size: Cell::new(false),
            has_kept: Cell::new(false),
            bad_bytes: RefCell::new(Vec::new(alloc)),
        }
    }

    /// Says so where it was told of no map, and where a map that is refused keeps bits that may be wrong by now.
    pub fn end(&self) {
        if !self.has_told.get() {
            let _ = self
                .to
                .println("no map of Doom's, Hexen's or UDMF's format");
        }
        if self.has_kept.get() {
            let _ = self.to.println(
                "doomsight: a kept table may be wrong by now; --refused clear writes a clear one",
            );
        }
    }

    /// Whether it was told of a map that a limit of its size refuses.
    pub fn has_refused_size(&self) -> bool {
        self.has_refused_size.get()
    }

    /// Names a file that the system refused, with the system's words.
    pub fn name_refusal(&self, name: &str, error: &io::Error) {
        let _ = println!(self.to; "{name}: {error}");
    }

    /// Names the option of the larger limits.
    pub fn name_larger_limits(&self) {
        let _ = print_larger_limits(&self.to);
    }

    /// Whether it was told of a map that is refused for a byte of its text.
    pub fn has_bad_bytes(&self) -> bool {
        match self.bad_bytes.try_borrow() {
            Ok(bad) => !bad.is_empty(),
            Err(_) => false,
        }
    }

    /// Says where these bytes stand, map by map.
    pub fn name_bad_bytes(&self, wad: &WadAgain) {
        if let Ok(bad) = self.bad_bytes.try_borrow() {
            for one in bad.iter() {
                let map = one.map.as_str();
                if let Some(TextPlace { row, column }) = wad.place(map, one.at) {
                    let _ = println!(self.to; "{map} TEXTMAP: row {row}, column {column}");
                }
            }
        }
    }

    /// Says where the byte of a text stands for which the map of the order is refused.
    pub fn name_place(&self, place: TextPlace) {
        let TextPlace { row, column } = place;
        let _ = println!(self.to; "TEXTMAP: row {row}, column {column}");
    }

    // Keeps the byte for which the map is refused whose name stands at the front of its line.
    fn keep_bad_byte(&self, line: &str, at: usize) -> Result<(), AllocError> {
        let (map, _) = line.split_once(' ').unwrap_or((line, ""));
        let map = String::from_str(self.alloc, map)?;
        if let Ok(mut bad) = self.bad_bytes.try_borrow_mut() {
            bad.push(BadByte { map, at })?;
        }
        Ok(())
    }
}

impl<P: Print> Notice for Progress<P> {
    fn pass_over(&self, name: &str) {
        let _ = println!(self.to; "{name}: a UDMF map without ENDMAP, which isn't read");
    }

    fn take_last(&self, name: &str) {
        let _ = println!(self.to; "{name}: stands several times, and the last one is taken");
    }

    fn miss(&self, name: &str) {
        let _ = println!(self.to; "{name}: no such map");
    }

    fn tell(&self, line: &str) {
        self.has_told.set(true);
        if self.is_terminal {
            let _ = self.to.write_all(line.as_bytes());
        }
    }

    fn refuse(&self, line: &str, refusal: Status, fate: &Fate) {
        self.has_told.set(true);
        if refuses_size(&refusal) {
            self.has_refused_size.set(true);
        }
        if matches!(fate, Fate::KeptSet) {
            self.has_kept.set(true);
        }
        if let Some(at) = byte_of(&refusal) {
            let _ = self.keep_bad_byte(line, at);
        }
        let _ = self.to.write_all(line.as_bytes());
    }
}
