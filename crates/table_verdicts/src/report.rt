//! The report's line of one map, in words.

ghost use Rattle.std.specs.Prelude.{◌≡◌, ◌++◌, IfOk, OnOk, IsTrue, string_bytes};
ghost use Rattle.wad_dir.specs.AllMaps.Maps.{is_map_name};
ghost use Rattle.table_verdicts.specs.Report.{counts_words, first_words, pair_words, said_words, short_words, shown_words, verdict_line};

use crate::verdict::{FirstWrong, MapVerdict, Shown, Verdict};
use map_answers::sight_status::{Status, push_count, push_count_line, push_reason, push_text};
use pair_answer::why_answers::push_ray;
use std::alloc::{AllocError, Global};
use wad_dir::all_maps::text_of;

/// Adds a ray, or that a face belongs to both.
fn push_shown(alloc: Global, line: &mut String, by: Shown) -> Result<(), AllocError>
    ensures { OnOk result (string_bytes line.new ≡ string_bytes line.old ++ shown_words by) }
{
    match by {
        Shown::Ray(ray) => {
            push_text(line, " by ")?;
            push_ray(alloc, line, ray)
        }
        Shown::Touch => push_text(line, " touch"),
    }
}

/// Adds the two sectors of a pair.
fn push_pair(alloc: Global, line: &mut String, first: FirstWrong) -> Result<(), AllocError>
    ensures { OnOk result (string_bytes line.new ≡ string_bytes line.old ++ pair_words first) }
{
    push_count(alloc, line, " first ", u64::from(first.pair.a))?;
    push_count(alloc, line, " ", u64::from(first.pair.b))
}

/// Adds the first wrong pair, where there is one.
fn push_first(alloc: Global, line: &mut String, first: Option<FirstWrong>) -> Result<(), AllocError>
    ensures { OnOk result (string_bytes line.new ≡ string_bytes line.old ++ first_words first) }
{
    match first {
        Some(first) => {
            push_pair(alloc, line, first)?;
            push_shown(alloc, line, first.by)
        }
        None => push_text(line, ""),
    }
}

/// Adds how many bits are wrong and missing.
fn push_counts(alloc: Global, line: &mut String, wrong: u64, missing: u64) -> Result<(), AllocError>
    ensures { OnOk result (string_bytes line.new ≡ string_bytes line.old ++ counts_words wrong missing) }
{
    push_count(alloc, line, " wrong ", wrong)?;
    push_count(alloc, line, " missing ", missing)
}

/// Adds how many bytes there are, and how many there have to be.
fn push_short(alloc: Global, line: &mut String, found: u64, expected: u64) -> Result<(), AllocError>
    ensures { OnOk result (string_bytes line.new ≡ string_bytes line.old ++ short_words found expected) }
{
    push_count(alloc, line, " short ", found)?;
    push_count_line(alloc, line, " of ", expected)
}

/// Adds what is said of a map's REJECT.
fn push_said(
    alloc: Global,
    line: &mut String,
    said: &Result<Verdict, Status>,
) -> Result<(), AllocError>
    ensures { OnOk result (string_bytes line.new ≡ string_bytes line.old ++ said_words said.now) }
{
    match said {
        Ok(Verdict::Short { found, expected }) => push_short(alloc, line, *found, *expected),
        Ok(Verdict::Judged(findings)) => {
            push_counts(alloc, line, findings.wrong, findings.missing)?;
            push_first(alloc, line, findings.first)?;
            push_text(line, "\n")
        }
        Err(refusal) => {
            push_text(line, " refused ")?;
            push_reason(alloc, line, *refusal)
        }
    }
}

/// The report's line of a map.
pub fn line_of(alloc: Global, verdict: &MapVerdict) -> Result<String, AllocError>
    requires { IsTrue (is_map_name verdict.now.name) }
    ensures { IfOk result (λ line. string_bytes line ≡ verdict_line verdict.now) }
{
    let mut line = String::from_str(alloc, text_of(&verdict.name))?;
    push_said(alloc, &mut line, &verdict.said)?;
    Ok(line)
}
