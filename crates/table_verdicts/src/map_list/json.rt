//! The line of one map, in either spelling.

ghost use Rattle.std.specs.Prelude.{◌≡◌, ◌++◌, IfOk, OnOk, IsTrue, string_bytes};
ghost use Rattle.wad_dir.specs.AllMaps.Maps.{is_map_name};
ghost use Rattle.table_verdicts.specs.MapList.Lines.{entry_json, entry_row, format_json, reject_json, entry_said_json, set_json, size_json};

use crate::json::push_refused;
use crate::map_list::entry::{ListedFormat, MapEntry, MapSizes, Said};
use crate::map_list::line::line_of;
use crate::map_list::unit::push_unit;
use map_answers::sight_status::{push_count, push_text};
use row_spelling::{Spelling, push_quoted};
use std::alloc::{AllocError, Global};
use wad_dir::all_maps::text_of;

/// Adds the format of a map, and its unit where that isn't a whole map unit.
fn push_format(line: &mut String, format: ListedFormat) -> Result<(), AllocError>
    ensures { OnOk result (string_bytes line.new ≡ string_bytes line.old ++ format_json format) }
{
    match format {
        ListedFormat::Doom => push_text(line, ",\"format\":\"doom\""),
        ListedFormat::Hexen => push_text(line, ",\"format\":\"hexen\""),
        ListedFormat::Udmf { places: 0 } => push_text(line, ",\"format\":\"udmf\""),
        ListedFormat::Udmf { places } => {
            push_text(line, ",\"format\":\"udmf\",\"unit\":\"")?;
            push_unit(line, places)?;
            push_text(line, "\"")
        }
    }
}

/// Adds how many lines, points and sectors a map has.
fn push_sizes(alloc: Global, line: &mut String, sizes: &MapSizes) -> Result<(), AllocError>
    ensures { OnOk result (string_bytes line.new ≡ string_bytes line.old ++ size_json sizes.now) }
{
    push_count(alloc, line, ",\"lines\":", sizes.lines)?;
    push_count(alloc, line, ",\"points\":", sizes.points)?;
    push_count(alloc, line, ",\"sectors\":", sizes.sectors)
}

/// Adds how many bits are set, where they are counted.
fn push_set(alloc: Global, line: &mut String, set: Option<u64>) -> Result<(), AllocError>
    ensures { OnOk result (string_bytes line.new ≡ string_bytes line.old ++ set_json set) }
{
    match set {
        Some(set) => push_count(alloc, line, ",\"set\":", set),
        None => push_text(line, ""),
    }
}

/// Adds what a map's REJECT holds.
fn push_reject(alloc: Global, line: &mut String, sizes: &MapSizes) -> Result<(), AllocError>
    ensures { OnOk result (string_bytes line.new ≡ string_bytes line.old ++ reject_json sizes.now) }
{
    push_count(alloc, line, ",\"reject\":", sizes.found)?;
    push_count(alloc, line, ",\"of\":", sizes.expected)?;
    push_set(alloc, line, sizes.set)
}

/// Adds what is listed of a map.
fn push_said(alloc: Global, line: &mut String, said: &Said) -> Result<(), AllocError>
    ensures { OnOk result (string_bytes line.new ≡ string_bytes line.old ++ entry_said_json said.now) }
{
    match said {
        Said::Read(sizes) => {
            push_format(line, sizes.format)?;
            push_sizes(alloc, line, sizes)?;
            push_reject(alloc, line, sizes)
        }
        Said::Refused(refusal) => push_refused(alloc, line, *refusal),
    }
}

/// What is listed of a map as a JSON object.
fn object_of(alloc: Global, entry: &MapEntry) -> Result<String, AllocError>
    requires { IsTrue (is_map_name entry.now.name) }
    ensures { IfOk result (λ line. string_bytes line ≡ entry_json entry.now) }
{
    let mut line = String::from_str(alloc, "{\"map\":")?;
    push_quoted(&mut line, text_of(&entry.name))?;
    push_said(alloc, &mut line, &entry.said)?;
    push_text(&mut line, "}\n")?;
    Ok(line)
}

/// The line of a map.
pub fn row_of(alloc: Global, spelling: Spelling, entry: &MapEntry) -> Result<String, AllocError>
    requires { IsTrue (is_map_name entry.now.name) }
    ensures { IfOk result (λ line. string_bytes line ≡ entry_row spelling entry.now) }
{
    match spelling {
        Spelling::Text => line_of(alloc, entry),
        Spelling::Json => object_of(alloc, entry),
    }
}
