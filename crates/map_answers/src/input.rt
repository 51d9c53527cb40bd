//! Reading the bytes of a file: the WAD, and the map of a name in it.

ghost use Rattle.std.specs.Prelude.{◌≡◌, ◌+◌, ◌≤◌, ◌<◌, length, IfOk, IfErr, All};
ghost use Rattle.std.specs.Option.{ForSome};
ghost use Rattle.sight_names.specs.Map.{map_of};
ghost use Rattle.wad_dir.specs.Map.{entry_names, spot_of};
ghost use Rattle.wad_dir.specs.Wad.{file_of, names_of_lumps, wad_of};
ghost use Rattle.map_answers.specs.SightStatus.Answer.{MakesAnswer};
ghost use Rattle.map_answers.specs.Input.{of_wad, of_spot, of_text, of_text_lump, of_four_lumps, lump_at, map_at, map_named, found_in};
ghost use Rattle.map_answers.specs.SightStatus.Status.{IsOfBytes};
ghost use Rattle.map_answers.specs.Noise.{HasDampers, linedefs_by, linedefs_in};
ghost use Rattle.sound_reach.specs.Dampers.{dampers_of};
ghost use Rattle.udmf_map.specs.Lumps.{lump_bytes, lumps_of_text as lumps_of_text_lem};
ghost use Rattle.map_answers.specs.Views.{located_map, IsInputWhole};

use crate::sight_status::{Bound, Status};
use map_lumps::read_lumps;
use sight_names::{Items, LumpFault, Plan, Reading, WadFault};
use sound_reach::dampers;
use std::alloc::Global;
use udmf_map::{FourLumps, TextFault, lumps_of_text};
use wad_dir::{MapSpot, Wad, find_map, lump, read_wad};

/// What an order reads: the bytes of a file, its directory, where the map's lumps stand in it, the map, and for each of its
/// lines whether the line blocks sound.
#[derive(Drop)]
pub struct Input {
    pub bytes: Vec<u8>,
    pub wad: Wad,
    pub spot: MapSpot,
    pub plan: Plan,
    pub dampers: Items<bool>,
}

/// The directory of the bytes of a file, or why they are no WAD.
pub fn directory(alloc: Global, bytes: &[u8]) -> Result<Wad, Status>
    ensures inside { IfOk result (λ wad. All (λ entry. entry.at + entry.size ≤ length bytes.now) wad.entries) }
    ensures names { IfOk result (λ wad. names_of_lumps (file_of bytes.now wad) ≡ entry_names wad.entries) }
    ensures refusals { IfErr result IsOfBytes }
    ensures read { MakesAnswer (file_of bytes.now) result (of_wad (wad_of bytes.now)) }
{
    match read_wad(alloc, bytes) {
        Ok(wad) => Ok(wad),
        Err(WadFault::Memory(ref memory)) => Err(Status::Memory(*memory)),
        Err(WadFault::TooManyLumps) => Err(Status::Limit(Bound::Lumps)),
        Err(fault) => Err(Status::NotWad(fault)),
    }
}

fn spot(wad: &Wad, name: &str) -> Result<MapSpot, Status>
    ensures refusals { IfErr result IsOfBytes }
    ensures spot { result ≡ of_spot (spot_of (entry_names wad.now.entries) name.now) }
    ensures linedefs { IfOk result (λ spot. spot.linedefs < length wad.now.entries) }
    ensures sidedefs { IfOk result (λ spot. spot.sidedefs < length wad.now.entries) }
    ensures vertexes { IfOk result (λ spot. spot.vertexes < length wad.now.entries) }
    ensures sectors { IfOk result (λ spot. spot.sectors < length wad.now.entries) }
    ensures reject { IfOk result (λ spot. ForSome spot.reject (λ k. k < length wad.now.entries)) }
{
    match find_map(wad, name) {
        Ok(spot) => Ok(spot),
        Err(fault) => Err(Status::NoMap(fault)),
    }
}

/// The map that four lumps spell, or the first check that fails.
pub fn plan_of(
    alloc: Global,
    reading: Reading,
    linedefs: &[u8],
    sidedefs: &[u8],
    vertexes: &[u8],
    sectors: &[u8],
) -> Result<Plan, Status>
    ensures refusals { IfErr result IsOfBytes }
    ensures map { MakesAnswer map_of result (of_four_lumps reading linedefs.now sidedefs.now vertexes.now sectors.now) }
{
    match read_lumps(alloc, reading, linedefs, sidedefs, vertexes, sectors) {
        Ok(plan) => Ok(plan),
        Err(LumpFault::Memory(ref memory)) => Err(Status::Memory(*memory)),
        Err(LumpFault::TooManySectors { .. }) => Err(Status::Limit(Bound::Sectors)),
        Err(LumpFault::TooManyLines { .. }) => Err(Status::Limit(Bound::Lines)),
        Err(LumpFault::TooManyPoints { .. }) => Err(Status::Limit(Bound::Points)),
        Err(fault) => Err(Status::BadLump(fault)),
    }
}

/// The bytes of this lump.
pub fn lump_of<'a>(bytes: &'a [u8], wad: &Wad, k: u32) -> &'a [u8]
    requires inside { All (λ entry. entry.at + entry.size ≤ length bytes.now) wad.now.entries }
    requires place { k < length wad.now.entries }
    ensures { result.now ≡ lump_at (file_of bytes.now wad.now) k }
{
    lump(bytes, &wad.entries.as_slice()[k as usize])
}

/// The map that four lumps spell, and the lines that block sound; or the first check that fails.
fn read_four(
    alloc: Global,
    reading: Reading,
    linedefs: &[u8],
    sidedefs: &[u8],
    vertexes: &[u8],
    sectors: &[u8],
) -> Result<(Plan, Items<bool>), Status>
    ensures refusals { IfErr result IsOfBytes }
    ensures map { MakesAnswer (λ r. map_of r.0) result (of_four_lumps reading linedefs.now sidedefs.now vertexes.now sectors.now) }
    ensures dampers { IfOk result (λ r. r.1 ≡ dampers_of reading.format linedefs.now) }
    ensures each { IfOk result (λ r. length r.1 ≡ length r.0.lines) }
{
    let plan = plan_of(alloc, reading, linedefs, sidedefs, vertexes, sectors)?;
    match dampers(alloc, linedefs, reading.format) {
        Ok(dampers) => Ok((plan, Items::of(dampers))),
        Err(memory) => Err(Status::Memory(memory)),
    }
}

/// The four lumps that a text of UDMF stands for, or its first fault.
fn text_lumps(alloc: Global, text: &[u8]) -> Result<FourLumps, Status>
    ensures refusals { IfErr result IsOfBytes }
    ensures lumps { MakesAnswer lump_bytes result (of_text (lumps_of_text_lem text.now)) }
{
    match lumps_of_text(alloc, text) {
        Ok(lumps) => Ok(lumps),
        Err(TextFault::Memory(ref memory)) => Err(Status::Memory(*memory)),
        Err(TextFault::TooManyVertices { .. }) => Err(Status::Limit(Bound::Vertices)),
        Err(TextFault::TooManySides { .. }) => Err(Status::Limit(Bound::Sides)),
        Err(fault) => Err(Status::BadText(fault)),
    }
}

/// The map that a text of UDMF spells, and the lines that block sound; or the first check that fails.
fn read_text(alloc: Global, reading: Reading, text: &[u8]) -> Result<(Plan, Items<bool>), Status>
    ensures refusals { IfErr result IsOfBytes }
    ensures map { MakesAnswer (λ r. map_of r.0) result (of_text_lump reading text.now) }
    ensures dampers { IfOk result (λ r. r.1 ≡ dampers_of reading.format (linedefs_in (lumps_of_text_lem text.now))) }
    ensures each { IfOk result (λ r. length r.1 ≡ length r.0.lines) }
{
    let lumps = text_lumps(alloc, text)?;
    read_four(
        alloc,
        reading,
        &lumps.linedefs,
        &lumps.sidedefs,
        &lumps.vertexes,
        &lumps.sectors,
    )
}

fn read_at(
    alloc: Global,
    bytes: &[u8],
    wad: &Wad,
    large: bool,
    spot: &MapSpot,
) -> Result<(Plan, Items<bool>), Status>
    requires inside { All (λ entry. entry.at + entry.size ≤ length bytes.now) wad.now.entries }
    requires linedefs { spot.now.linedefs < length wad.now.entries }
    requires sidedefs { spot.now.sidedefs < length wad.now.entries }
    requires vertexes { spot.now.vertexes < length wad.now.entries }
    requires sectors { spot.now.sectors < length wad.now.entries }
    ensures refusals { IfErr result IsOfBytes }
    ensures map { MakesAnswer (λ r. map_of r.0) result (map_at large (file_of bytes.now wad.now) spot.now) }
    ensures dampers { IfOk result (λ r. r.1 ≡ dampers_of spot.now.format (linedefs_by spot.now.text (lump_at (file_of bytes.now wad.now) spot.now.linedefs))) }
    ensures each { IfOk result (λ r. length r.1 ≡ length r.0.lines) }
{
    let reading = Reading {
        format: spot.format,
        large,
    };
    let linedefs = lump_of(bytes, wad, spot.linedefs);
    if spot.text {
        return read_text(alloc, reading, linedefs);
    }
    read_four(
        alloc,
        reading,
        linedefs,
        lump_of(bytes, wad, spot.sidedefs),
        lump_of(bytes, wad, spot.vertexes),
        lump_of(bytes, wad, spot.sectors),
    )
}

/// The map of this name in the WAD of these bytes, by the usual limits or by the larger ones, or the first check that fails.
#[tactic(auto, unfolding(crate::specs::Input::map_named))]
pub fn plan_named(
    alloc: Global,
    bytes: &[u8],
    wad: &Wad,
    large: bool,
    name: &str,
) -> Result<Plan, Status>
    requires inside { All (λ entry. entry.at + entry.size ≤ length bytes.now) wad.now.entries }
    requires names { names_of_lumps (file_of bytes.now wad.now) ≡ entry_names wad.now.entries }
    ensures map { MakesAnswer map_of result (map_named large (file_of bytes.now wad.now) name.now) }
    ensures refusals { IfErr result IsOfBytes }
{
    let spot = spot(wad, name)?;
    let (plan, _) = read_at(alloc, bytes, wad, large, &spot)?;
    Ok(plan)
}

/// The map of this name in the bytes of a file, by the usual limits or by the larger ones, or the first check that fails.
#[tactic(auto, unfolding(crate::specs::Input::found_in))]
pub fn find_in(alloc: Global, bytes: Vec<u8>, large: bool, name: &str) -> Result<Input, Status>
    ensures found { MakesAnswer located_map result (found_in large name.now bytes.items) }
    ensures refusals { IfErr result IsOfBytes }
    ensures whole { IfOk result IsInputWhole }
    ensures dampers { IfOk result HasDampers }
{
    let wad = directory(alloc, &bytes)?;
    let spot = spot(&wad, name)?;
    let (plan, dampers) = read_at(alloc, &bytes, &wad, large, &spot)?;
    Ok(Input {
        bytes,
        wad,
        spot,
        plan,
        dampers,
    })
}
