//! The lines that tell of pictures.

ghost use Rattle.std.specs.Prelude.{◌≡◌, ◌++◌, IfOk, OnOk, codes, string_bytes};
ghost use Rattle.sight_names.specs.Texts.{side_text};
ghost use Rattle.map_answers.specs.SightStatus.Texts.{flaw_words, two};
ghost use Rattle.draw_answers.specs.Heat.{heat_line_of};
ghost use Rattle.draw_answers.specs.Lines.{blind_line_of as the_blind_line, faultless_line, flaw_line, of_words, pair_front, drawing_pair_line, plan_line_of as the_plan_line, row_line_of as the_row_line};

use map_answers::sight_status::{
    Flaw, push_clash, push_count, push_count_line, push_number, push_text,
};
use sight_names::{Pair, Side};
use std::alloc::{AllocError, Global};

/// The line of a plan with so many lines and sectors.
pub fn plan_line(alloc: Global, map: &str, lines: u64, sectors: u16) -> Result<String, AllocError>
    ensures { IfOk result (λ line. string_bytes line ≡ the_plan_line map.now lines sectors) }
{
    let mut line = String::from_str(alloc, "drawn ")?;
    line.push_str(map)?;
    push_count(alloc, &mut line, " lines ", lines)?;
    push_count_line(alloc, &mut line, " sectors ", u64::from(sectors))?;
    Ok(line)
}

/// The line of the row of sector `a`, in which so many bits are set and so many clear.
pub fn row_line(
    alloc: Global,
    map: &str,
    a: u16,
    set: u64,
    clear: u64,
) -> Result<String, AllocError>
    ensures { IfOk result (λ line. string_bytes line ≡ the_row_line map.now a set clear) }
{
    let mut line = String::from_str(alloc, "drawn ")?;
    line.push_str(map)?;
    push_count(alloc, &mut line, " row ", u64::from(a))?;
    push_count(alloc, &mut line, " set ", set)?;
    push_count_line(alloc, &mut line, " clear ", clear)?;
    Ok(line)
}

/// The line of a picture by counts of which this is the greatest.
pub fn heat_line(alloc: Global, map: &str, most: u16) -> Result<String, AllocError>
    ensures { IfOk result (λ line. string_bytes line ≡ heat_line_of map.now most) }
{
    let mut line = String::from_str(alloc, "drawn ")?;
    line.push_str(map)?;
    push_count_line(alloc, &mut line, " heat most ", u64::from(most))?;
    Ok(line)
}

/// A pair's line as far as the pair.
fn begun(alloc: Global, map: &str, pair: Pair) -> Result<String, AllocError>
    ensures { IfOk result (λ line. string_bytes line ≡ pair_front map.now pair) }
{
    let mut line = String::from_str(alloc, "drawn ")?;
    line.push_str(map)?;
    line.push_str(" pair ")?;
    push_number(alloc, &mut line, u64::from(pair.a))?;
    push_count(alloc, &mut line, " ", u64::from(pair.b))?;
    Ok(line)
}

/// A pair's line that ends with a word.
pub fn word_line(alloc: Global, map: &str, pair: Pair, word: &str) -> Result<String, AllocError>
    ensures { IfOk result (λ line. string_bytes line ≡ drawing_pair_line map.now pair word.now) }
{
    let mut line = begun(alloc, map, pair)?;
    push_text(&mut line, word)?;
    Ok(line)
}

/// Adds out of which sector of the pair is seen, unless it is the first.
fn push_of(alloc: Global, line: &mut String, pair: Pair, sector: u16) -> Result<(), AllocError>
    ensures { OnOk result (string_bytes line.new ≡ string_bytes line.old ++ of_words pair sector) }
{
    if sector == pair.a {
        Ok(())
    } else {
        push_count(alloc, line, " of ", u64::from(sector))
    }
}

/// The line of a pair of which so many triangles that sight out of this sector enters and so many stops are shown.
pub fn blind_line(
    alloc: Global,
    map: &str,
    pair: Pair,
    sector: u16,
    entered: usize,
    stops: usize,
) -> Result<String, AllocError>
    ensures { IfOk result (λ line. string_bytes line ≡ the_blind_line map.now pair sector entered stops) }
{
    let mut line = begun(alloc, map, pair)?;
    push_count(alloc, &mut line, " blind ", entered as u64)?;
    push_count(alloc, &mut line, " stops ", stops as u64)?;
    push_of(alloc, &mut line, pair, sector)?;
    line.push_str("\n")?;
    Ok(line)
}

/// The line of a map without a fault.
pub fn no_fault_line(alloc: Global, map: &str) -> Result<String, AllocError>
    ensures { IfOk result (λ line. string_bytes line ≡ faultless_line map.now) }
{
    let mut line = String::from_str(alloc, "drawn ")?;
    line.push_str(map)?;
    line.push_str(" faults none\n")?;
    Ok(line)
}

/// Adds the words of an open side.
fn push_open(alloc: Global, line: &mut String, side: Side) -> Result<(), AllocError>
    ensures { OnOk result (string_bytes line.new ≡ string_bytes line.old ++ (codes "open " ++ side_text side ++ codes "\n")) }
{
    line.push_str("open ")?;
    line.push_str(&side.to_string(alloc)?)?;
    line.push_str("\n")
}

/// Adds the words of a flaw.
fn push_flaw(alloc: Global, line: &mut String, which: Flaw) -> Result<(), AllocError>
    ensures { OnOk result (string_bytes line.new ≡ string_bytes line.old ++ flaw_words which) }
{
    match which {
        Flaw::Line(fault) => push_clash(alloc, line, fault),
        Flaw::Open(side) => push_open(alloc, line, side),
    }
}

/// The line of a map's flaw.
pub fn fault_line(alloc: Global, map: &str, which: Flaw) -> Result<String, AllocError>
    ensures { IfOk result (λ line. string_bytes line ≡ flaw_line map.now which) }
{
    let mut line = String::from_str(alloc, "drawn ")?;
    line.push_str(map)?;
    line.push_str(" faults ")?;
    push_flaw(alloc, &mut line, which)?;
    Ok(line)
}
