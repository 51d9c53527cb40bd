//! What is wrong with words that are no order: the first word behind which no words make an order of those up to it.
//! `order_words` has the last word on which words are an order; a test holds the two together.

use crate::help::{put_synopses, put_synopsis};
use crate::verbs::{Choice, OPTIONS, Place, VERBS, Verb, entry_of, option_named, verb_named};
use order_words::{budget, may_name_file, may_name_map, ray, refused, rooms, sector, workers};
use shelf_io::StdSink;
use sight_names::Failed;
use std::io;

/// Why a word can't stand where it does.
#[derive(Clone, Copy)]
pub enum Why {
    NoVerb,
    NoFile,
    NoMap,
    NoRay,
    NoSector,
    NoRooms,
    NoBudget,
    NoWorkers,
    NoMaps,
    NoRefused,
    TooMany,
    NoOption,
    NotTaken,
    Twice,
    TakesNone,
    WantsValue,
}

/// What is wrong with words.
#[derive(Clone, Copy)]
pub enum Fault {
    /// The word of this number, counted from 0.
    Word { at: usize, why: Why },
    /// No word is wrong, but one is missing behind them, which synopses call so.
    Missing(&'static str),
}

/// What is wrong with words, nothing where they are an order, and the verb among them.
#[derive(Clone, Copy)]
pub struct Diagnosis {
    pub fault: Option<Fault>,
    pub verb: Option<&'static Verb>,
}

// Which options stand among the words so far.
#[derive(Clone, Copy)]
struct Given {
    only: bool,
    refused: bool,
    cert: bool,
    report: bool,
    budget: bool,
    workers: bool,
    hexen: bool,
    large: bool,
    faults: bool,
    heat: bool,
    exact: bool,
    json: bool,
}

impl Given {
    fn has(&self, choice: Choice) -> bool {
        match choice {
            Choice::Only => self.only,
            Choice::Refused => self.refused,
            Choice::Cert => self.cert,
            Choice::Report => self.report,
            Choice::Budget => self.budget,
            Choice::Workers => self.workers,
            Choice::Hexen => self.hexen,
            Choice::Large => self.large,
            Choice::Faults => self.faults,
            Choice::Heat => self.heat,
            Choice::Exact => self.exact,
            Choice::Json => self.json,
        }
    }

    fn note(&mut self, choice: Choice) {
        match choice {
            Choice::Only => self.only = true,
            Choice::Refused => self.refused = true,
            Choice::Cert => self.cert = true,
            Choice::Report => self.report = true,
            Choice::Budget => self.budget = true,
            Choice::Workers => self.workers = true,
            Choice::Hexen => self.hexen = true,
            Choice::Large => self.large = true,
            Choice::Faults => self.faults = true,
            Choice::Heat => self.heat = true,
            Choice::Exact => self.exact = true,
            Choice::Json => self.json = true,
        }
    }

    // What is drawn is of the map alone.
    fn is_of_map(&self) -> bool {
        self.faults || self.heat
    }

    // How a report is spelled is told, but no report is asked for yet. A verb that writes none spells its line so.
    fn wants_report(&self, verb: &Verb) -> bool {
        self.json && !self.report && verb.takes(Choice::Report)
    }

    // How pairs of sectors are decided is told.
    fn tells_how(&self) -> bool {
        self.budget || self.exact
    }
}

// How it is decided is of two sectors, and faults or heat are of the map alone, so no verb takes two of these; nor is there a
// budget where every pair is decided.
fn takes_all(verb: &Verb, given: Given) -> bool {
    OPTIONS.iter().all(|entry| !given.has(entry.choice) || verb.takes(entry.choice))
        && !(given.is_of_map() && given.tells_how())
        && !(given.faults && given.heat)
        && !(given.budget && given.exact)
}

// How many words may stand behind the verb: with faults or heat, none that may be left out.
fn most_words(verb: &Verb, given: Given) -> usize {
    let spare = if given.is_of_map() {
        verb.spare.iter().copied().max().unwrap_or(0)
    } else {
        0
    };
    verb.places.len().saturating_sub(spare)
}

// So many words stand behind the verb, which may be all: how pairs are decided wants each of them.
fn may_end(verb: &Verb, filled: usize, given: Given) -> bool {
    let left = verb.places.len().saturating_sub(filled);
    left == 0 || !given.tells_how() && verb.spare.contains(&left)
}

fn unless(fits: bool, why: Why) -> Result<(), Why> {
    if fits { Ok(()) } else { Err(why) }
}

fn fits_place(place: Place, word: &str) -> Result<(), Why> {
    match place {
        Place::Wad | Place::Out | Place::Cert => unless(may_name_file(word), Why::NoFile),
        Place::Map => unless(may_name_map(word), Why::NoMap),
        Place::Ray => unless(ray(word).is_some(), Why::NoRay),
        Place::First | Place::Second => unless(sector(word).is_some(), Why::NoSector),
        Place::Rooms => unless(rooms(word).is_some(), Why::NoRooms),
    }
}

fn may_name_maps(word: &str) -> bool {
    word.split(',').all(|name| may_name_map(name))
}

fn fits_choice(choice: Choice, word: &str) -> Result<(), Why> {
    match choice {
        Choice::Only => unless(may_name_maps(word), Why::NoMaps),
        Choice::Refused => unless(refused(word).is_some(), Why::NoRefused),
        Choice::Cert | Choice::Report => unless(may_name_file(word), Why::NoFile),
        Choice::Budget => unless(budget(word).is_some(), Why::NoBudget),
        Choice::Workers => unless(workers(word).is_some(), Why::NoWorkers),
        Choice::Hexen
        | Choice::Large
        | Choice::Faults
        | Choice::Heat
        | Choice::Exact
        | Choice::Json => Err(Why::TakesNone),
    }
}

// The name of a long option, and the value behind its `=`.
fn parts_of(body: &str) -> (&str, Option<&str>) {
    match body.split_once('=') {
        Some((name, value)) => (name, Some(value)),
        None => (body, None),
    }
}

// What was read so far, where no word was wrong.
#[derive(Clone, Copy)]
struct Reader {
    verb: Option<&'static Verb>,
    // How many places behind the verb have their word.
    filled: usize,
    given: Given,
    // The option whose value comes next.
    waiting: Option<Choice>,
    // `--` stood there: no option comes any more.
    is_closed: bool,
}

impl Reader {
    fn new() -> Reader {
        Reader {
            verb: None,
            filled: 0,
            given: Given {
                only: false,
                refused: false,
                cert: false,
                report: false,
                budget: false,
                workers: false,
                hexen: false,
                large: false,
                faults: false,
                heat: false,
                exact: false,
                json: false,
            },
            waiting: None,
            is_closed: false,
        }
    }

    // The verb takes all options so far; while there is none, some verb does.
    fn check_options(&self) -> Result<(), Why> {
        let given = self.given;
        let is_taken = match self.verb {
            Some(verb) => takes_all(verb, given) && self.filled <= most_words(verb, given),
            None => VERBS.iter().any(|verb| takes_all(verb, given)),
        };
        unless(is_taken, Why::NotTaken)
    }

    fn take_choice(&mut self, choice: Choice, value: Option<&str>) -> Result<(), Why> {
        unless(!self.given.has(choice), Why::Twice)?;
        self.given.note(choice);
        self.check_options()?;
        match value {
            Some(value) => fits_choice(choice, value),
            None => {
                if !choice.is_flag() {
                    self.waiting = Some(choice);
                }
                Ok(())
            }
        }
    }

    fn take_option(&mut self, word: &str) -> Result<(), Why> {
        unless(self.waiting.is_none(), Why::WantsValue)?;
        if word == "--" {
            self.is_closed = true;
            return Ok(());
        }
        let (name, value) = match word.strip_prefix("--") {
            Some(body) => parts_of(body),
            None => return Err(Why::NoOption),
        };
        match option_named(name) {
            Some(entry) => self.take_choice(entry.choice, value),
            None => Err(Why::NoOption),
        }
    }

    fn take_value(&mut self, word: &str) -> Result<(), Why> {
        match self.verb {
            None => {
                self.verb = verb_named(word);
                unless(self.verb.is_some(), Why::NoVerb)?;
                self.check_options()
            }
            Some(verb) => match verb.places.get(self.filled) {
                Some(place) if self.filled < most_words(verb, self.given) => {
                    self.filled = self.filled.saturating_add(1);
                    fits_place(*place, word)
                }
                _ => Err(Why::TooMany),
            },
        }
    }

    fn take(&mut self, word: &str) -> Result<(), Why> {
        if !self.is_closed && word.starts_with('-') && word != "-" {
            return self.take_option(word);
        }
        match self.waiting {
            Some(choice) => {
                self.waiting = None;
                fits_choice(choice, word)
            }
            None => self.take_value(word),
        }
    }

    // What synopses call the word that is missing, nothing where none is.
    fn missing(&self) -> Option<&'static str> {
        if let Some(choice) = self.waiting {
            return Some(entry_of(choice).map_or("", |entry| entry.value));
        }
        match self.verb {
            Some(verb) if may_end(verb, self.filled, self.given) => {
                if self.given.wants_report(verb) {
                    Some("--report")
                } else {
                    None
                }
            }
            Some(verb) => Some(
                verb.places
                    .get(self.filled)
                    .map_or("", |place| place.name()),
            ),
            None => Some("VERB"),
        }
    }
}

/// What is wrong with the words.
pub fn diagnose(words: &[String]) -> Diagnosis {
    let mut reader = Reader::new();
    for (at, word) in words.iter().enumerate() {
        if let Err(why) = reader.take(word.as_str()) {
            return Diagnosis {
                fault: Some(Fault::Word { at, why }),
                verb: reader.verb,
            };
        }
    }
    Diagnosis {
        fault: reader.missing().map(Fault::Missing),
        verb: reader.verb,
    }
}

fn reason(why: Why) -> &'static str {
    match why {
        Why::NoVerb => "no verb",
        Why::NoFile => "no name of a file",
        Why::NoMap => "no name of a map, 1 to 8 printing characters",
        Why::NoRay => "no ray of five parts, as 2R,5L,0,1,-32",
        Why::NoSector => "no sector, 0 to 65535",
        Why::NoRooms => "no number of rooms, 1 to 18",
        Why::NoBudget => "no budget, 1 to 4294967296, full or enough",
        Why::NoWorkers => "no number of workers, 1 to 64",
        Why::NoMaps => "no names of maps between commas, as MAP01,MAP02",
        Why::NoRefused => "neither keep, clear nor stop",
        Why::TooMany => "one word too many",
        Why::NoOption => "no option",
        Why::NotTaken => "not with these options",
        Why::Twice => "given twice",
        Why::TakesNone => "this option takes no value",
        Why::WantsValue => "the option before it has no value",
    }
}

/// Prints the synopsis of the verb, or of each verb.
pub fn print_synopsis<P: Print>(to: &P, verb: Option<&Verb>) -> Result<(), Failed> {
    let mut out = StdSink::new(to);
    match verb {
        Some(verb) => put_synopsis(&mut out, verb),
        None => put_synopses(&mut out),
    }
}

/// Names the option of the larger limits.
pub fn print_larger_limits<P: Print>(to: &P) -> io::Result<()> {
    to.println("doomsight: try --large (16,383 points, 32,768 lines, 16,384 sectors)")
}

fn print_fault<P: Print>(to: &P, words: &[String], fault: Fault) -> io::Result<()> {
    match fault {
        Fault::Word { at, why } => {
            let number = at.saturating_add(1);
            let word = match words.get(at) {
                Some(word) => word.as_str(),
                None => "",
            };
            let reason = reason(why);
            println!(to; "word {number}, {word:?}: {reason}")
        }
        Fault::Missing(name) => println!(to; "{name} is missing"),
    }
}

/// Prints what is wrong with words that are no order, and a synopsis. What can't be printed is left out.
pub fn print_diagnosis<P: Print>(to: &P, words: &[String]) {
    let found = diagnose(words);
    if let Some(fault) = found.fault {
        let _ = print_fault(to, words, fault);
    }
    let _ = print_synopsis(to, found.verb);
}
