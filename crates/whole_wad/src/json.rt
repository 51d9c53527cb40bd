//! The report's line of one map, in either spelling.

ghost use Rattle.std.specs.Prelude.{◌≡◌, ◌++◌, IfOk, OnOk, IsTrue, string_bytes};
ghost use Rattle.std.specs.Str.{trim_end};
ghost use Rattle.map_answers.specs.SightStatus.Texts.{reason_words};
ghost use Rattle.row_spelling.specs.Quoted.{quoted};
ghost use Rattle.wad_dir.specs.AllMaps.Maps.{is_map_name};
ghost use Rattle.whole_wad.specs.Report.{fate_json, made_json, map_json, map_row, totals_json};

use crate::fate::Fate;
use crate::outcomes::MapOutcome;
use crate::report::line_of;
use crate::tables::MapTable;
use map_answers::sight_status::{Status, push_count, push_reason, push_text};
use map_answers::{Counts, counts_of};
use row_spelling::{Spelling, push_quoted};
use std::alloc::{AllocError, Global};
use wad_dir::all_maps::text_of;

/// Adds how many pairs are set, clear and listed.
fn push_totals(alloc: Global, line: &mut String, counts: Counts) -> Result<(), AllocError>
    ensures { OnOk result (string_bytes line.new ≡ string_bytes line.old ++ totals_json counts) }
{
    push_count(alloc, line, ",\"set\":", counts.set)?;
    push_count(alloc, line, ",\"clear\":", counts.clear)?;
    push_count(alloc, line, ",\"listed\":", counts.listed)
}

/// Adds why a map is refused, without the end of that line.
fn push_cause(alloc: Global, line: &mut String, refusal: Status) -> Result<(), AllocError>
    ensures { OnOk result (string_bytes line.new ≡ string_bytes line.old ++ quoted (trim_end (reason_words refusal))) }
{
    let mut cause = String::new(alloc);
    push_reason(alloc, &mut cause, refusal)?;
    push_quoted(line, cause.trim_end())
}

/// Adds what is said of a map's table, or of its refusal.
fn push_made(
    alloc: Global,
    line: &mut String,
    made: &Result<MapTable, Status>,
) -> Result<(), AllocError>
    ensures { OnOk result (string_bytes line.new ≡ string_bytes line.old ++ made_json made.now) }
{
    match made {
        Ok(made) => push_totals(
            alloc,
            line,
            counts_of(&made.table, made.listed.as_slice().len()),
        ),
        Err(refusal) => {
            push_text(line, ",\"refused\":")?;
            push_cause(alloc, line, *refusal)
        }
    }
}

/// Adds what becomes of its REJECT.
fn push_fate(alloc: Global, line: &mut String, fate: &Fate) -> Result<(), AllocError>
    ensures { OnOk result (string_bytes line.new ≡ string_bytes line.old ++ fate_json fate.now) }
{
    match fate {
        Fate::Changed(bits) => push_count(alloc, line, ",\"changed\":", *bits),
        Fate::Replaced(len) => push_count(alloc, line, ",\"replaced\":", *len),
        Fate::KeptSet => push_text(line, ",\"kept\":\"set\""),
        Fate::KeptClear => push_text(line, ",\"kept\":\"clear\""),
        Fate::Cleared(_) => push_text(line, ",\"cleared\":true"),
    }
}

/// What comes of a map as a JSON object.
fn object_of(alloc: Global, outcome: &MapOutcome) -> Result<String, AllocError>
    requires { IsTrue (is_map_name outcome.now.name) }
    ensures { IfOk result (λ line. string_bytes line ≡ map_json outcome.now) }
{
    let mut line = String::from_str(alloc, "{\"map\":")?;
    push_quoted(&mut line, text_of(&outcome.name))?;
    push_made(alloc, &mut line, &outcome.made)?;
    push_fate(alloc, &mut line, &outcome.fate)?;
    push_text(&mut line, "}\n")?;
    Ok(line)
}

/// The report's line of what comes of a map.
pub fn row_of(alloc: Global, spelling: Spelling, outcome: &MapOutcome) -> Result<String, AllocError>
    requires { IsTrue (is_map_name outcome.now.name) }
    ensures { IfOk result (λ line. string_bytes line ≡ map_row spelling outcome.now) }
{
    match spelling {
        Spelling::Text => line_of(alloc, outcome),
        Spelling::Json => object_of(alloc, outcome),
    }
}
