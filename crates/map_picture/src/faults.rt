//! Rings round the points at which a map is at fault.

ghost use Rattle.std.specs.Prelude.{◌≡◌, ◌++◌, OnOk};
ghost use Rattle.map_picture.specs.Bytes.{clash_text, coordinate_text, fault_at_text, fault_place_text, fault_radius as the_fault_radius, fault_shape, fault_text, fault_texts, fault_title, fault_words, place_text};

use crate::frame::{Frame, across, down, sizes_of};
use crate::rings::push_circle;
use crate::units::push_in_units;
use crate::words::{push_count, push_text};
use sight_names::{LineFault, Pt};
use std::alloc::AllocError;

/// What is at fault at a point of a map.
#[derive(Clone, Copy)]
pub enum PointFault {
    /// Two lines have it in common, and it isn't an end of both.
    Clash(LineFault),
    /// Round it one comes from a side that names a sector to one that names none, or out of the hull.
    Torn,
    /// The line with this record number ends there, and no other.
    Loose(u16),
}

/// What is at fault, and where, if that is one point.
#[derive(Clone, Copy)]
pub struct FaultAt {
    pub fault: PointFault,
    pub at: Option<Pt>,
}

#[tactic(auto, unfolding(crate::specs::Bytes::clash_text))]
fn push_clash(out: &mut Vec<u8>, i: u16, j: u16, word: &str) -> Result<(), AllocError>
    ensures { OnOk result (out.new.items ≡ out.old.items ++ clash_text i j word.now) }
{
    push_count(out, "lines ", i as u64)?;
    push_count(out, " and ", j as u64)?;
    push_text(out, word)
}

fn push_words(out: &mut Vec<u8>, fault: PointFault) -> Result<(), AllocError>
    ensures { OnOk result (out.new.items ≡ out.old.items ++ fault_words fault) }
{
    match fault {
        PointFault::Clash(LineFault::Cross { i, j }) => push_clash(out, i, j, " cross"),
        PointFault::Clash(LineFault::Touch { i, j }) => push_clash(out, i, j, " touch"),
        PointFault::Clash(LineFault::Overlap { i, j }) => push_clash(out, i, j, " overlap"),
        PointFault::Torn => push_text(out, "torn corner"),
        PointFault::Loose(line) => push_count(out, "loose end of line ", line as u64),
    }
}

#[tactic(auto, unfolding(crate::specs::Bytes::coordinate_text))]
fn push_coordinate(out: &mut Vec<u8>, places: u8, word: &str, n: i32) -> Result<(), AllocError>
    ensures { OnOk result (out.new.items ≡ out.old.items ++ coordinate_text places word.now n) }
{
    push_text(out, word)?;
    push_in_units(out, places, n)
}

/// Where it is, in map units.
#[tactic(auto, unfolding(crate::specs::Bytes::place_text))]
pub fn push_place(out: &mut Vec<u8>, places: u8, at: Pt) -> Result<(), AllocError>
    ensures { OnOk result (out.new.items ≡ out.old.items ++ place_text places at) }
{
    push_coordinate(out, places, " at ", at.x)?;
    push_coordinate(out, places, ", ", at.y)
}

#[tactic(auto, unfolding(crate::specs::Bytes::fault_title))]
fn push_title(out: &mut Vec<u8>, places: u8, fault: PointFault, at: Pt) -> Result<(), AllocError>
    ensures { OnOk result (out.new.items ≡ out.old.items ++ fault_title places fault at) }
{
    push_text(out, "<g><title>")?;
    push_words(out, fault)?;
    push_place(out, places, at)?;
    push_text(out, "</title>")
}

/// Two circles, of which the wider one sets off the other.
#[tactic(auto, unfolding(crate::specs::Bytes::fault_shape))]
fn push_shape(out: &mut Vec<u8>, x: u64, y: u64, radius: u64) -> Result<(), AllocError>
    ensures { OnOk result (out.new.items ≡ out.old.items ++ fault_shape x y radius) }
{
    push_circle(out, "<circle class=\"i", x, y, radius)?;
    push_circle(out, "\"/><circle class=\"r", x, y, radius)?;
    push_text(out, "\"/></g>\n")
}

/// How wide the ring is: that of a loose end is about half as wide as the others, since a map may have many.
fn radius_of(margin: u64, fault: PointFault) -> u64
    ensures { result ≡ the_fault_radius margin fault }
{
    match fault {
        PointFault::Clash(_) => margin,
        PointFault::Torn => margin,
        PointFault::Loose(_) => margin / 2 + 1,
    }
}

/// A ring round the point.
fn push_ring(
    out: &mut Vec<u8>,
    frame: Frame,
    places: u8,
    fault: PointFault,
    at: Pt,
) -> Result<(), AllocError>
    ensures { OnOk result (out.new.items ≡ out.old.items ++ fault_text frame places fault at) }
{
    let radius = radius_of(sizes_of(frame).margin, fault);
    push_title(out, places, fault, at)?;
    push_shape(out, across(frame, at), down(frame, at), radius)
}

/// .. if there is one.
fn push_fault(out: &mut Vec<u8>, frame: Frame, places: u8, one: FaultAt) -> Result<(), AllocError>
    ensures { OnOk result (out.new.items ≡ out.old.items ++ fault_at_text frame places one) }
{
    match one.at {
        Some(at) => push_ring(out, frame, places, one.fault, at),
        None => Ok(()),
    }
}

/// A ring for each of these that is at one point.
pub fn push_faults(
    out: &mut Vec<u8>,
    frame: Frame,
    places: u8,
    faults: &[FaultAt],
) -> Result<(), AllocError>
    ensures { OnOk result (out.new.items ≡ out.old.items ++ fault_texts frame places faults.now) }
{
    for one in faults {
        push_fault(out, frame, places, *one)?;
    }
    Ok(())
}
