//! The text of a map of UDMF as the four lumps that every call takes.

ghost use Rattle.std.specs.Prelude.{◌≡◌, ◌≢◌, IfErr, IfOk, Ok, OnErr, OnOk, pos};
ghost use Rattle.map_answers.specs.declared.sight_status.status.Status.TheVariants as status;
ghost use Rattle.udmf_map.specs.Lumps.{lump_bytes, lumps_of_text as lumps_of_text_lem, places_told};
ghost use Rattle.doomsight_c.specs.Faults.{fault_view, no_fault};
ghost use Rattle.doomsight_c.specs.Texts.{IsNoText, IsSpelledOut, PutsBytes, sizes_of_lumps, status_of_text as status_of_text_lem};

use crate::fault::{DoomsightFault, fault_of, two};
use crate::line::faults_tell_statuses;
use map_answers::sight_status::{Bound, Status};
use std::alloc::Global;
use udmf_map::{FourLumps, TextFault, lumps_of_text, text_places};

/// How many bytes each of the four lumps has. To C the fields are at the bytes 0, 8, 16 and 24 of 32.
#[repr(C)]
#[derive(Clone, Copy)]
pub struct DoomsightLumpSizes {
    pub linedefs: u64,
    pub sidedefs: u64,
    pub vertexes: u64,
    pub sectors: u64,
}

/// How the program ends with a text that is no map.
fn status_of_text(fault: TextFault) -> Status
    ensures { result ≡ status_of_text_lem fault }
{
    match fault {
        TextFault::Text { at } => Status::BadText(TextFault::Text { at }),
        TextFault::Namespace { at } => Status::BadText(TextFault::Namespace { at }),
        TextFault::Value { at } => Status::BadText(TextFault::Value { at }),
        TextFault::TooManyVertices { .. } => Status::Limit(Bound::Vertices),
        TextFault::TooManySides { .. } => Status::Limit(Bound::Sides),
        TextFault::Portal { line } => Status::BadText(TextFault::Portal { line }),
        TextFault::OffGrid { vertex } => Status::BadText(TextFault::OffGrid { vertex }),
        TextFault::Memory(memory) => Status::Memory(memory),
    }
}

/// The four lumps that a text stands for, or why there are none.
fn spelled_lumps(alloc: Global, text: &[u8]) -> Result<FourLumps, DoomsightFault>
    ensures lumps { IfOk result (λ l. lumps_of_text_lem text.now ≡ Ok (lump_bytes l)) }
    ensures refused { IfErr result (IsNoText (lumps_of_text_lem text.now)) }
    ensures code { IfErr result (λ f. f.code ≢ 0) }
{
    faults_tell_statuses();
    match lumps_of_text(alloc, text) {
        Ok(lumps) => Ok(lumps),
        Err(fault) => Err(fault_of(&status_of_text(fault))),
    }
}

/// Puts the front of the bytes into the buffer, as far as both go.
fn put_bytes(all: &[u8], room: &mut [u8])
    ensures { PutsBytes all.now room.old room.new }
{
    let count = if all.len() < room.len() {
        all.len()
    } else {
        room.len()
    };
    room[..count].copy_from_slice(&all[..count]);
}

/// Puts each lump into its buffer, and tells how many bytes there are of each.
fn put_lumps(
    lumps: &FourLumps,
    linedefs: &mut [u8],
    sidedefs: &mut [u8],
    vertexes: &mut [u8],
    sectors: &mut [u8],
) -> DoomsightLumpSizes
    ensures linedefs { PutsBytes lumps.now.linedefs.items linedefs.old linedefs.new }
    ensures sidedefs { PutsBytes lumps.now.sidedefs.items sidedefs.old sidedefs.new }
    ensures vertexes { PutsBytes lumps.now.vertexes.items vertexes.old vertexes.new }
    ensures sectors { PutsBytes lumps.now.sectors.items sectors.old sectors.new }
    ensures sizes { result ≡ sizes_of_lumps (lump_bytes lumps.now) }
{
    put_bytes(lumps.linedefs.as_slice(), linedefs);
    put_bytes(lumps.sidedefs.as_slice(), sidedefs);
    put_bytes(lumps.vertexes.as_slice(), vertexes);
    put_bytes(lumps.sectors.as_slice(), sectors);
    DoomsightLumpSizes {
        linedefs: lumps.linedefs.len() as u64,
        sidedefs: lumps.sidedefs.len() as u64,
        vertexes: lumps.vertexes.len() as u64,
        sectors: lumps.sectors.len() as u64,
    }
}

/// The lumps with the answer as a result.
fn try_udmf(
    alloc: Global,
    text: &[u8],
    linedefs: &mut [u8],
    sidedefs: &mut [u8],
    vertexes: &mut [u8],
    sectors: &mut [u8],
    sizes: &mut DoomsightLumpSizes,
) -> Result<(), DoomsightFault>
    ensures spelled { OnOk result (IsSpelledOut (lumps_of_text_lem text.now) linedefs.old linedefs.new sidedefs.old sidedefs.new vertexes.old vertexes.new sectors.old sectors.new sizes.new) }
    ensures refused { IfErr result (IsNoText (lumps_of_text_lem text.now)) }
    ensures code { IfErr result (λ f. f.code ≢ 0) }
    ensures kept { OnErr result ((linedefs.new ≡ linedefs.old) × (sidedefs.new ≡ sidedefs.old) × (vertexes.new ≡ vertexes.old) × (sectors.new ≡ sectors.old) × (sizes.new ≡ sizes.old)) }
{
    let lumps = spelled_lumps(alloc, text)?;
    *sizes = put_lumps(&lumps, linedefs, sidedefs, vertexes, sectors);
    Ok(())
}

/// The four lumps, of format 2, of the map that a text of UDMF spells, each as far as there is room for it, and how many
/// bytes each has. The answer is 0, or the code of why there are none; then nothing but the fault is written.
#[unsafe(no_mangle)]
pub extern "C" fn doomsight_udmf_buffers(
    alloc: Global,
    text: &[u8],
    linedefs: &mut [u8],
    sidedefs: &mut [u8],
    vertexes: &mut [u8],
    sectors: &mut [u8],
    sizes: &mut DoomsightLumpSizes,
    fault: &mut DoomsightFault,
) -> i32
    ensures spelled { result ≡ pos 0 → IsSpelledOut (lumps_of_text_lem text.now) linedefs.old linedefs.new sidedefs.old sidedefs.new vertexes.old vertexes.new sectors.old sectors.new sizes.new }
    ensures refused { result ≢ pos 0 → IsNoText (lumps_of_text_lem text.now) fault.new }
    ensures done { result ≡ pos 0 → fault.new ≡ no_fault }
    ensures code { result ≢ pos 0 → result ≡ pos fault.new.code }
    ensures kept { result ≢ pos 0 → (linedefs.new ≡ linedefs.old) × (sidedefs.new ≡ sidedefs.old) × (vertexes.new ≡ vertexes.old) × (sectors.new ≡ sectors.old) × (sizes.new ≡ sizes.old) }
{
    match try_udmf(alloc, text, linedefs, sidedefs, vertexes, sectors, sizes) {
        Ok(()) => {
            *fault = two(0, 0, 0, 0);
            0
        }
        Err(why) => {
            *fault = why;
            i32::from(why.code)
        }
    }
}

/// How many decimal places the unit has in which `doomsight_udmf_buffers` tells coordinates of this text: they are so many of
/// 10^-places of a map unit. It is 0 for bytes that are no text, and tells nothing of one that spells no map. The answer is 0, or
/// the code of want of memory; then nothing but the fault is written.
#[unsafe(no_mangle)]
pub extern "C" fn doomsight_udmf_places(
    alloc: Global,
    text: &[u8],
    places: &mut u8,
    fault: &mut DoomsightFault,
) -> i32
    ensures told { result ≡ pos 0 → places.new ≡ places_told text.now }
    ensures done { result ≡ pos 0 → fault.new ≡ no_fault }
    ensures refused { result ≢ pos 0 → fault.new ≡ fault_view (status.Memory tt) }
    ensures code { result ≢ pos 0 → result ≡ pos fault.new.code }
    ensures kept { result ≢ pos 0 → places.new ≡ places.old }
{
    match text_places(alloc, text) {
        Ok(found) => {
            *places = found;
            *fault = two(0, 0, 0, 0);
            0
        }
        Err(memory) => {
            *fault = fault_of(&Status::Memory(memory));
            i32::from(fault.code)
        }
    }
}

/// Writes 1, 2, 3 and 4 into the fields, in their order: what a header takes for their layout is read out of them.
#[unsafe(no_mangle)]
pub extern "C" fn doomsight_layout_of_lumps(sizes: &mut DoomsightLumpSizes)
    ensures { sizes.new ≡ record { linedefs = 1; sidedefs = 2; vertexes = 3; sectors = 4 } }
{
    *sizes = DoomsightLumpSizes {
        linedefs: 1,
        sidedefs: 2,
        vertexes: 3,
        sectors: 4,
    };
}
