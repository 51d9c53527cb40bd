//! What is said of the verbs and of their options, out of their table. Each line has at most 80 columns.

use crate::verbs::{Choice, Entry, OPTIONS, VERBS, Verb, entry_of};
use shelf_io::Sink;
use sight_names::Failed;

/// As many columns has a line of a terminal.
const COLUMNS: usize = 80;

/// As many columns the verbs take in front of what they are for.
const VERB_COLUMNS: usize = 7;

/// As many columns the options take in front of what they mean.
const OPTION_COLUMNS: usize = 24;

const BLANKS: &str = "                        ";

/// Puts the parts one behind the other.
pub fn put_parts<O: Sink>(out: &mut O, parts: &[&str]) -> Result<(), Failed> {
    for part in parts {
        out.put(part.as_bytes())?;
    }
    Ok(())
}

fn length_of(parts: &[&str]) -> usize {
    let mut length = 0usize;
    for part in parts {
        length = length.saturating_add(part.len());
    }
    length
}

// Puts the parts together behind a blank, or on a new line where this one is full. The first number is that of the columns
// which are taken before, the other of those after.
fn put_piece<O: Sink>(out: &mut O, taken: usize, parts: &[&str]) -> Result<usize, Failed> {
    let length = length_of(parts);
    let behind = taken.saturating_add(1).saturating_add(length);
    if behind <= COLUMNS {
        out.put(b" ")?;
        put_parts(out, parts)?;
        Ok(behind)
    } else {
        out.put(b"\n    ")?;
        put_parts(out, parts)?;
        Ok(length.saturating_add(4))
    }
}

// Puts an option in brackets. A budget stands beside the word in whose place it is.
fn put_choice<O: Sink>(
    out: &mut O,
    taken: usize,
    verb: &Verb,
    entry: &Entry,
) -> Result<usize, Failed> {
    let budget = match entry_of(Choice::Budget) {
        Some(budget) if entry.choice == Choice::Exact && verb.takes(Choice::Budget) => budget,
        _ => {
            return put_piece(
                out,
                taken,
                &["[--", entry.name, entry.gap(), entry.value, "]"],
            );
        }
    };
    let parts = [
        "[--",
        entry.name,
        " | --",
        budget.name,
        budget.gap(),
        budget.value,
        "]",
    ];
    put_piece(out, taken, &parts)
}

// Whether the option is put among the words that may be left out, or with the one in whose place it stands.
fn stands_elsewhere(verb: &Verb, choice: Choice) -> bool {
    match choice {
        Choice::Budget => verb.takes(Choice::Exact),
        Choice::Exact | Choice::Faults | Choice::Heat => !verb.spare.is_empty(),
        _ => false,
    }
}

// Puts what stands behind words that may be left out: how two sectors are decided, which wants all of them, and
// faults and heat, which want none.
fn put_behind_spare<O: Sink>(out: &mut O, taken: usize, verb: &Verb) -> Result<usize, Failed> {
    let mut taken = taken;
    for entry in OPTIONS.iter() {
        if entry.choice == Choice::Exact && verb.takes(Choice::Exact) {
            taken = put_choice(out, taken, verb, entry)?;
        }
    }
    for _ in 1..verb.spare.len() {
        out.put(b"]")?;
        taken = taken.saturating_add(1);
    }
    if verb.takes(Choice::Faults) {
        taken = put_piece(out, taken, &["| --faults"])?;
    }
    if verb.takes(Choice::Heat) {
        taken = put_piece(out, taken, &["| --heat"])?;
    }
    out.put(b"]")?;
    Ok(taken.saturating_add(1))
}

// Puts the words behind the verb, those in brackets that may be left out.
fn put_places<O: Sink>(out: &mut O, taken: usize, verb: &Verb) -> Result<usize, Failed> {
    let mut taken = taken;
    for (at, place) in verb.places.iter().enumerate() {
        let left = verb.places.len().saturating_sub(at);
        let open = if verb.spare.contains(&left) { "[" } else { "" };
        taken = put_piece(out, taken, &[open, place.name()])?;
    }
    if verb.spare.is_empty() {
        Ok(taken)
    } else {
        put_behind_spare(out, taken, verb)
    }
}

/// Puts the words and the options that a verb takes.
pub fn put_synopsis<O: Sink>(out: &mut O, verb: &Verb) -> Result<(), Failed> {
    let head = ["doomsight ", verb.name];
    put_parts(out, &head)?;
    let mut taken = put_places(out, length_of(&head), verb)?;
    for entry in OPTIONS.iter() {
        if verb.takes(entry.choice) && !stands_elsewhere(verb, entry.choice) {
            taken = put_choice(out, taken, verb, entry)?;
        }
    }
    out.put(b"\n")
}

/// Puts the synopsis of each verb.
pub fn put_synopses<O: Sink>(out: &mut O) -> Result<(), Failed> {
    for verb in VERBS.iter() {
        put_synopsis(out, verb)?;
    }
    Ok(())
}

// Puts a line of two columns, of which the first has this width.
fn put_row<O: Sink>(out: &mut O, width: usize, left: &[&str], right: &str) -> Result<(), Failed> {
    out.put(b"  ")?;
    put_parts(out, left)?;
    let gap = width.saturating_sub(length_of(left));
    put_parts(out, &[BLANKS.get(..gap).unwrap_or(" "), right, "\n"])
}

fn put_option<O: Sink>(out: &mut O, entry: &Entry) -> Result<(), Failed> {
    put_row(
        out,
        OPTION_COLUMNS,
        &["--", entry.name, entry.gap(), entry.value],
        entry.about,
    )
}

/// Puts a line for each verb, with what it is for.
pub fn put_purposes<O: Sink>(out: &mut O) -> Result<(), Failed> {
    for verb in VERBS.iter() {
        put_row(out, VERB_COLUMNS, &[verb.name], verb.purpose)?;
    }
    Ok(())
}

/// Puts a line for each option, with what it means.
pub fn put_options<O: Sink>(out: &mut O) -> Result<(), Failed> {
    for entry in OPTIONS.iter() {
        put_option(out, entry)?;
    }
    put_row(
        out,
        OPTION_COLUMNS,
        &["-h, --help"],
        "this help, or behind a verb that of the verb",
    )?;
    put_row(out, OPTION_COLUMNS, &["-V, --version"], "the version")
}

/// Puts the synopsis of a verb, what it does, and a line for each of its options.
pub fn put_verb<O: Sink>(out: &mut O, verb: &Verb) -> Result<(), Failed> {
    put_synopsis(out, verb)?;
    put_parts(out, &["\n", verb.about, "\n\n"])?;
    for entry in OPTIONS.iter() {
        if verb.takes(entry.choice) {
            put_option(out, entry)?;
        }
    }
    Ok(())
}
