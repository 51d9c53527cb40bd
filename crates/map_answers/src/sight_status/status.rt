//! How a run ends.

ghost use Rattle.std.specs.Prelude.{◌≡◌};
ghost use Rattle.map_answers.specs.SightStatus.Status.{done_as, exit_status_of};

use sight_names::{
    CertFault, CheckFault, LineFault, LumpFault, MapFault, Memory, RayFault, Side, TableFault,
    TraceFault, WadFault,
};
use udmf_map::TextFault;

/// What a file is to an order, or the text that is put.
#[derive(Clone, Copy)]
pub enum Role {
    Wad,
    Cert,
    Report,
    Picture,
    Text,
}

/// What is above its limit.
#[derive(Clone, Copy)]
pub enum Bound {
    WadBytes,
    CertBytes,
    Lumps,
    Lines,
    Points,
    Sectors,
    /// Blocks of vertices in a text of UDMF.
    Vertices,
    /// .. and of sides.
    Sides,
    OutputBytes,
}

/// Why a map isn't sound.
#[derive(Clone, Copy)]
pub enum Flaw {
    /// Two lines share more than an end of both.
    Line(LineFault),
    /// The face of this side isn't closed.
    Open(Side),
}

/// Why the answer of an order that judges is no.
#[derive(Clone, Copy)]
pub enum Why {
    Ray(RayFault),
    Trace(TraceFault),
    Table(TableFault),
    Cert(CertFault),
    Check(CheckFault),
    /// The group that labels this triangle isn't the list of its face.
    Group(u16),
    /// No triangle is labelled with this group.
    Unused(u16),
    /// The map has no sector of this number.
    NoSector(u16),
}

/// How a run ends. A fault for which there is another status, such as want of memory, never stands in `NotWad`,
/// `BadLump`, `BadText` or `No`.
#[derive(Clone, Copy)]
pub enum Status {
    /// What the words ask was done.
    Done,
    /// It was done, and what was judged is told, but not all of it is right.
    NotRight,
    /// What was judged isn't so.
    No(Why),
    /// The words are no order.
    Usage,
    /// There is no file of that name.
    NoFile(Role),
    /// A read failed.
    ReadFault(Role),
    /// A create, an append or a put failed.
    WriteFault(Role),
    /// The bytes are no WAD.
    NotWad(WadFault),
    /// The WAD has no such map.
    NoMap(MapFault),
    /// The lumps are no map.
    BadLump(LumpFault),
    /// The text of UDMF is no map.
    BadText(TextFault),
    /// Something is above its limit.
    Limit(Bound),
    /// The map isn't sound.
    BadMap(Flaw),
    /// Two file names of the order are equal.
    SameName,
    /// A request for memory was refused.
    Memory(Memory),
}

/// How a run ends that does what is asked, by whether all that it judged is right.
pub fn done_as(right: bool) -> Status
    ensures { result ≡ done_as right }
{
    if right {
        Status::Done
    } else {
        Status::NotRight
    }
}

/// The exit status of the program.
pub fn code(status: &Status) -> u8
    ensures { result ≡ exit_status_of status.now }
{
    match status {
        Status::Done => 0,
        Status::NotRight => 1,
        Status::No(_) => 1,
        Status::Usage => 2,
        Status::NoFile(_) => 3,
        Status::ReadFault(_) => 4,
        Status::WriteFault(_) => 5,
        Status::NotWad(_) => 6,
        Status::NoMap(_) => 7,
        Status::BadLump(_) => 8,
        Status::BadText(_) => 8,
        Status::Limit(_) => 9,
        Status::BadMap(_) => 10,
        Status::SameName => 11,
        Status::Memory(_) => 12,
    }
}
