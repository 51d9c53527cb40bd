//! What the program says of itself: its version, its verbs and options, and what one verb does.

use crate::help::{put_options, put_parts, put_purposes, put_verb};
use crate::verbs::{Verb, verb_named};
use shelf_io::Sink;
use sight_names::Failed;
use sight_run::{Role, Status};

/// The version of the program.
pub const VERSION: &str = "1.1.0";

/// What words ask of the program itself.
#[derive(Clone, Copy)]
pub enum Question {
    Version,
    /// What it does, or what this verb does.
    Help(Option<&'static Verb>),
}

fn first_verb(words: &[String]) -> Option<&'static Verb> {
    match words.first() {
        Some(word) => verb_named(word.as_str()),
        None => None,
    }
}

/// What the words ask: `help` as the first of them, or the first that is `--help`, `-h`, `--version` or `-V` and stands before
/// any `--`. Where the first word, or the one behind `help`, is a verb, help is for that verb.
pub fn question_in(words: &[String]) -> Option<Question> {
    if words.first().is_some_and(|word| word.as_str() == "help") {
        return Some(Question::Help(first_verb(words.get(1..).unwrap_or(&[]))));
    }
    for word in words {
        match word.as_str() {
            "--" => return None,
            "--help" | "-h" => return Some(Question::Help(first_verb(words))),
            "--version" | "-V" => return Some(Question::Version),
            _ => {}
        }
    }
    None
}

fn put_help<O: Sink>(out: &mut O) -> Result<(), Failed> {
    put_parts(
        out,
        &[
            "doomsight ",
            VERSION,
            ": builds and checks the REJECT table of a Doom map.\n\ndoomsight VERB WORDS.. [OPTIONS]\n\n",
        ],
    )?;
    put_purposes(out)?;
    out.put(b"\n")?;
    put_options(out)?;
    put_parts(
        out,
        &["\ndoomsight VERB --help says which words and options a verb takes.\n"],
    )
}

fn put_answer<O: Sink>(out: &mut O, question: &Question) -> Result<(), Failed> {
    match question {
        Question::Version => put_parts(out, &["doomsight ", VERSION, "\n"]),
        Question::Help(None) => put_help(out),
        Question::Help(Some(verb)) => put_verb(out, verb),
    }
}

/// Puts the answer, and gives the status that the program ends with.
pub fn answer<O: Sink>(out: &mut O, question: &Question) -> Status {
    match put_answer(out, question) {
        Ok(()) => Status::Done,
        Err(Failed) => Status::WriteFault(Role::Text),
    }
}
