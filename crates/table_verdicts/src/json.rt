//! The report's line of one map, in either spelling.

ghost use Rattle.std.specs.Prelude.{◌≡◌, ◌++◌, IfOk, OnOk, IsTrue, string_bytes};
ghost use Rattle.std.specs.Str.{trim_end};
ghost use Rattle.map_answers.specs.SightStatus.Texts.{reason_words};
ghost use Rattle.row_spelling.specs.Quoted.{quoted};
ghost use Rattle.wad_dir.specs.AllMaps.Maps.{is_map_name};
ghost use Rattle.table_verdicts.specs.Report.{counts_json, first_json, pair_json, ray_json, refused_json, said_json, short_json, shown_json, verdict_json, verdict_row};

use crate::report::line_of;
use crate::verdict::{FirstWrong, MapVerdict, Shown, Verdict};
use map_answers::sight_status::{Status, push_count, push_reason, push_text};
use pair_answer::why_answers::push_ray;
use row_spelling::{Spelling, push_quoted};
use sight_names::Ray;
use std::alloc::{AllocError, Global};
use wad_dir::all_maps::text_of;

/// Adds a ray as a string.
fn push_ray_text(alloc: Global, line: &mut String, ray: Ray) -> Result<(), AllocError>
    ensures { OnOk result (string_bytes line.new ≡ string_bytes line.old ++ ray_json ray) }
{
    push_text(line, "\"")?;
    push_ray(alloc, line, ray)?;
    push_text(line, "\"")
}

/// Adds a ray, or that a face belongs to both.
fn push_shown(alloc: Global, line: &mut String, by: Shown) -> Result<(), AllocError>
    ensures { OnOk result (string_bytes line.new ≡ string_bytes line.old ++ shown_json by) }
{
    match by {
        Shown::Ray(ray) => push_ray_text(alloc, line, ray),
        Shown::Touch => push_text(line, "\"touch\""),
    }
}

/// Adds the two sectors of a pair.
fn push_pair(alloc: Global, line: &mut String, first: FirstWrong) -> Result<(), AllocError>
    ensures { OnOk result (string_bytes line.new ≡ string_bytes line.old ++ pair_json first) }
{
    push_count(alloc, line, ",\"first\":[", u64::from(first.pair.a))?;
    push_count(alloc, line, ",", u64::from(first.pair.b))?;
    push_text(line, "],\"by\":")
}

/// Adds the first wrong pair, where there is one.
fn push_first(alloc: Global, line: &mut String, first: Option<FirstWrong>) -> Result<(), AllocError>
    ensures { OnOk result (string_bytes line.new ≡ string_bytes line.old ++ first_json first) }
{
    match first {
        Some(first) => {
            push_pair(alloc, line, first)?;
            push_shown(alloc, line, first.by)
        }
        None => push_text(line, ""),
    }
}

/// Adds how many bits are wrong and missing.
fn push_counts(alloc: Global, line: &mut String, wrong: u64, missing: u64) -> Result<(), AllocError>
    ensures { OnOk result (string_bytes line.new ≡ string_bytes line.old ++ counts_json wrong missing) }
{
    push_count(alloc, line, ",\"wrong\":", wrong)?;
    push_count(alloc, line, ",\"missing\":", missing)
}

/// Adds how many bytes there are, and how many there have to be.
fn push_short(alloc: Global, line: &mut String, found: u64, expected: u64) -> Result<(), AllocError>
    ensures { OnOk result (string_bytes line.new ≡ string_bytes line.old ++ short_json found expected) }
{
    push_count(alloc, line, ",\"short\":", found)?;
    push_count(alloc, line, ",\"of\":", expected)
}

/// Adds the words of a refusal, without the end of that line.
fn push_cause(alloc: Global, line: &mut String, refusal: Status) -> Result<(), AllocError>
    ensures { OnOk result (string_bytes line.new ≡ string_bytes line.old ++ quoted (trim_end (reason_words refusal))) }
{
    let mut cause = String::new(alloc);
    push_reason(alloc, &mut cause, refusal)?;
    push_quoted(line, cause.trim_end())
}

/// Adds why a map is refused.
pub fn push_refused(alloc: Global, line: &mut String, refusal: Status) -> Result<(), AllocError>
    ensures { OnOk result (string_bytes line.new ≡ string_bytes line.old ++ refused_json refusal) }
{
    push_text(line, ",\"refused\":")?;
    push_cause(alloc, line, refusal)
}

/// Adds what is said of a map's REJECT.
fn push_said(
    alloc: Global,
    line: &mut String,
    said: &Result<Verdict, Status>,
) -> Result<(), AllocError>
    ensures { OnOk result (string_bytes line.new ≡ string_bytes line.old ++ said_json said.now) }
{
    match said {
        Ok(Verdict::Short { found, expected }) => push_short(alloc, line, *found, *expected),
        Ok(Verdict::Judged(findings)) => {
            push_counts(alloc, line, findings.wrong, findings.missing)?;
            push_first(alloc, line, findings.first)
        }
        Err(refusal) => push_refused(alloc, line, *refusal),
    }
}

/// What is said of a map as a JSON object.
fn object_of(alloc: Global, verdict: &MapVerdict) -> Result<String, AllocError>
    requires { IsTrue (is_map_name verdict.now.name) }
    ensures { IfOk result (λ line. string_bytes line ≡ verdict_json verdict.now) }
{
    let mut line = String::from_str(alloc, "{\"map\":")?;
    push_quoted(&mut line, text_of(&verdict.name))?;
    push_said(alloc, &mut line, &verdict.said)?;
    push_text(&mut line, "}\n")?;
    Ok(line)
}

/// The report's line of a map.
pub fn row_of(alloc: Global, spelling: Spelling, verdict: &MapVerdict) -> Result<String, AllocError>
    requires { IsTrue (is_map_name verdict.now.name) }
    ensures { IfOk result (λ line. string_bytes line ≡ verdict_row spelling verdict.now) }
{
    match spelling {
        Spelling::Text => line_of(alloc, verdict),
        Spelling::Json => object_of(alloc, verdict),
    }
}
