//! The line of one map, in words.

ghost use Rattle.std.specs.Prelude.{◌≡◌, ◌++◌, IfOk, OnOk, IsTrue, string_bytes};
ghost use Rattle.wad_dir.specs.AllMaps.Maps.{is_map_name};
ghost use Rattle.table_verdicts.specs.MapList.Lines.{entry_line, format_words, reject_words, entry_said_words, set_words, size_words};

use crate::map_list::entry::{ListedFormat, MapEntry, MapSizes, Said};
use crate::map_list::unit::push_unit;
use map_answers::sight_status::{push_count, push_reason, push_text};
use std::alloc::{AllocError, Global};
use wad_dir::all_maps::text_of;

/// Adds the format of a map, and its unit where that isn't a whole map unit.
fn push_format(line: &mut String, format: ListedFormat) -> Result<(), AllocError>
    ensures { OnOk result (string_bytes line.new ≡ string_bytes line.old ++ format_words format) }
{
    match format {
        ListedFormat::Doom => push_text(line, " doom"),
        ListedFormat::Hexen => push_text(line, " hexen"),
        ListedFormat::Udmf { places: 0 } => push_text(line, " udmf"),
        ListedFormat::Udmf { places } => {
            push_text(line, " udmf unit ")?;
            push_unit(line, places)
        }
    }
}

/// Adds how many lines, points and sectors a map has.
fn push_sizes(alloc: Global, line: &mut String, sizes: &MapSizes) -> Result<(), AllocError>
    ensures { OnOk result (string_bytes line.new ≡ string_bytes line.old ++ size_words sizes.now) }
{
    push_count(alloc, line, " lines ", sizes.lines)?;
    push_count(alloc, line, " points ", sizes.points)?;
    push_count(alloc, line, " sectors ", sizes.sectors)
}

/// Adds how many bits are set, where they are counted.
fn push_set(alloc: Global, line: &mut String, set: Option<u64>) -> Result<(), AllocError>
    ensures { OnOk result (string_bytes line.new ≡ string_bytes line.old ++ set_words set) }
{
    match set {
        Some(set) => push_count(alloc, line, " set ", set),
        None => push_text(line, ""),
    }
}

/// Adds what a map's REJECT holds.
fn push_reject(alloc: Global, line: &mut String, sizes: &MapSizes) -> Result<(), AllocError>
    ensures { OnOk result (string_bytes line.new ≡ string_bytes line.old ++ reject_words sizes.now) }
{
    push_count(alloc, line, " reject ", sizes.found)?;
    push_count(alloc, line, " of ", sizes.expected)?;
    push_set(alloc, line, sizes.set)
}

/// Adds what is listed of a map.
fn push_said(alloc: Global, line: &mut String, said: &Said) -> Result<(), AllocError>
    ensures { OnOk result (string_bytes line.new ≡ string_bytes line.old ++ entry_said_words said.now) }
{
    match said {
        Said::Read(sizes) => {
            push_format(line, sizes.format)?;
            push_sizes(alloc, line, sizes)?;
            push_reject(alloc, line, sizes)?;
            push_text(line, "\n")
        }
        Said::Refused(refusal) => {
            push_text(line, " refused ")?;
            push_reason(alloc, line, *refusal)
        }
    }
}

/// The line of a map.
pub fn line_of(alloc: Global, entry: &MapEntry) -> Result<String, AllocError>
    requires { IsTrue (is_map_name entry.now.name) }
    ensures { IfOk result (λ line. string_bytes line ≡ entry_line entry.now) }
{
    let mut line = String::from_str(alloc, text_of(&entry.name))?;
    push_said(alloc, &mut line, &entry.said)?;
    Ok(line)
}
