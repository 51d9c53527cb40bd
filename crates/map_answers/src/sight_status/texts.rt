//! The one line that a run puts.

ghost use Rattle.std.specs.Prelude.{◌≡◌, ◌++◌, string_bytes, codes, OnOk, IfOk};
ghost use Rattle.std.specs.Fmt.{decimal};
ghost use Rattle.sight_names.specs.Texts.{side_text};
ghost use Rattle.map_answers.specs.SightStatus.Texts.{bound_words, cert_words, check_words, clash_words, flaw_words, lump_words, lumps_words, map_words, mesh_words, no_words, ray_fault_words, reason_words, role_words, table_words, text_of, texts_words, trace_words, two, wad_words, why_words};
ghost use Rattle.map_answers.specs.SightStatus.Say.{Refused, IsSaidLine, SaidIfMade};

use crate::sight_status::status::{Bound, Flaw, Role, Status, Why};
use shelf_io::Sink;
use sight_names::{
    CertFault, CheckFault, LineFault, Lump, LumpFault, MapFault, MeshFault, RayFault, Side,
    TableFault, TraceFault, WadFault,
};
use std::alloc::{AllocError, Global};
use udmf_map::TextFault;

/// Puts a line, and gives the status that it tells, or the fault of the sink.
pub fn put_line<O: Sink>(out: &mut O, line: &[u8], status: Status) -> Status
    ensures { IsSaidLine status result (O.state out.old) (O.state out.new) line.now }
{
    match out.put(line) {
        Ok(()) => status,
        Err(_) => Status::WriteFault(Role::Text),
    }
}

fn write_line(role: Role) -> &'static str
    ensures { result.now ≡ codes "refused: write fault " ++ role_words role }
{
    match role {
        Role::Wad => "refused: write fault wad\n",
        Role::Cert => "refused: write fault cert\n",
        Role::Report => "refused: write fault report\n",
        Role::Picture => "refused: write fault picture\n",
        Role::Text => "refused: write fault text\n",
    }
}

fn role_name(role: Role) -> &'static str
    ensures { result.now ≡ role_words role }
{
    match role {
        Role::Wad => "wad\n",
        Role::Cert => "cert\n",
        Role::Report => "report\n",
        Role::Picture => "picture\n",
        Role::Text => "text\n",
    }
}

fn bound_name(bound: Bound) -> &'static str
    ensures { result.now ≡ bound_words bound }
{
    match bound {
        Bound::WadBytes => "wad bytes\n",
        Bound::CertBytes => "cert bytes\n",
        Bound::Lumps => "lumps\n",
        Bound::Lines => "lines\n",
        Bound::Points => "points\n",
        Bound::Sectors => "sectors\n",
        Bound::Vertices => "vertices\n",
        Bound::Sides => "sides\n",
        Bound::OutputBytes => "output bytes\n",
    }
}

/// Adds a text to a line.
pub fn push_text(line: &mut String, text: &str) -> Result<(), AllocError>
    ensures { OnOk result (string_bytes line.new ≡ string_bytes line.old ++ text.now) }
{
    line.push_str(text)
}

/// Adds a number to a line, in decimal digits.
pub fn push_number(alloc: Global, line: &mut String, n: u64) -> Result<(), AllocError>
    ensures { OnOk result (string_bytes line.new ≡ string_bytes line.old ++ decimal n) }
{
    line.push_str(&n.to_string(alloc)?)
}

/// Adds a text and a number to a line.
pub fn push_count(alloc: Global, line: &mut String, text: &str, n: u64) -> Result<(), AllocError>
    ensures { OnOk result (string_bytes line.new ≡ string_bytes line.old ++ (text.now ++ decimal n)) }
{
    line.push_str(text)?;
    push_number(alloc, line, n)
}

/// Adds a text, a number, and the end of the line.
pub fn push_count_line(
    alloc: Global,
    line: &mut String,
    text: &str,
    n: u64,
) -> Result<(), AllocError>
    ensures { OnOk result (string_bytes line.new ≡ string_bytes line.old ++ (text.now ++ decimal n ++ codes "\n")) }
{
    line.push_str(text)?;
    push_number(alloc, line, n)?;
    line.push_str("\n")
}

/// Adds a text, two numbers with a blank between them, and the end of the line.
pub fn push_pair_line(
    alloc: Global,
    line: &mut String,
    text: &str,
    i: u16,
    j: u16,
) -> Result<(), AllocError>
    ensures { OnOk result (string_bytes line.new ≡ string_bytes line.old ++ (text.now ++ two i j ++ codes "\n")) }
{
    line.push_str(text)?;
    push_number(alloc, line, u64::from(i))?;
    push_count_line(alloc, line, " ", u64::from(j))
}

fn push_side(alloc: Global, line: &mut String, side: Side) -> Result<(), AllocError>
    ensures { OnOk result (string_bytes line.new ≡ string_bytes line.old ++ side_text side) }
{
    line.push_str(&side.to_string(alloc)?)
}

// A text, a side, and the end of the line.
fn push_side_line(
    alloc: Global,
    line: &mut String,
    text: &str,
    side: Side,
) -> Result<(), AllocError>
    ensures { OnOk result (string_bytes line.new ≡ string_bytes line.old ++ (text.now ++ side_text side ++ codes "\n")) }
{
    line.push_str(text)?;
    push_side(alloc, line, side)?;
    line.push_str("\n")
}

// A text, a lump, and the end of the line.
fn push_lump_line(
    alloc: Global,
    line: &mut String,
    text: &str,
    lump: Lump,
) -> Result<(), AllocError>
    ensures { OnOk result (string_bytes line.new ≡ string_bytes line.old ++ (text.now ++ lump_words lump)) }
{
    line.push_str(text)?;
    line.push_str(&lump.to_string(alloc)?)?;
    line.push_str("\n")
}

// Each `push` below adds the words of a fault to a line.

fn push_wad(alloc: Global, line: &mut String, fault: WadFault) -> Result<(), AllocError>
    ensures { OnOk result (string_bytes line.new ≡ string_bytes line.old ++ wad_words fault) }
{
    match fault {
        WadFault::ShortHeader => line.push_str("short header\n"),
        WadFault::BadMagic => line.push_str("bad magic\n"),
        WadFault::BadCount => line.push_str("bad count\n"),
        WadFault::TooManyLumps => line.push_str("lumps\n"),
        WadFault::DirectoryOutside => line.push_str("directory outside\n"),
        WadFault::LumpOutside { entry } => push_count_line(
            alloc,
            line,
            "lump outside ",
            u64::from(entry),
        ),
        WadFault::Memory(_) => line.push_str("memory\n"),
    }
}

fn push_map(alloc: Global, line: &mut String, fault: MapFault) -> Result<(), AllocError>
    ensures { OnOk result (string_bytes line.new ≡ string_bytes line.old ++ map_words fault) }
{
    match fault {
        MapFault::NoMarker => line.push_str("no marker\n"),
        MapFault::Missing { lump } => push_lump_line(alloc, line, "missing ", lump),
        MapFault::NoEnd => line.push_str("missing ENDMAP\n"),
    }
}

fn push_lumps(alloc: Global, line: &mut String, fault: LumpFault) -> Result<(), AllocError>
    ensures { OnOk result (string_bytes line.new ≡ string_bytes line.old ++ lumps_words fault) }
{
    match fault {
        LumpFault::BadSize { lump } => push_lump_line(alloc, line, "size ", lump),
        LumpFault::TooManySectors { .. } => line.push_str("sectors\n"),
        LumpFault::TooManyLines { .. } => line.push_str("lines\n"),
        LumpFault::BadVertex { line: k } => push_count_line(
            alloc,
            line,
            "vertex of line ",
            u64::from(k),
        ),
        LumpFault::BadSide { line: k } => push_count_line(
            alloc,
            line,
            "side of line ",
            u64::from(k),
        ),
        LumpFault::BadSector { side } => push_count_line(
            alloc,
            line,
            "sector of side ",
            u64::from(side),
        ),
        LumpFault::TooManyPoints { .. } => line.push_str("points\n"),
        LumpFault::Memory(_) => line.push_str("memory\n"),
    }
}

fn push_texts(alloc: Global, line: &mut String, fault: TextFault) -> Result<(), AllocError>
    ensures { OnOk result (string_bytes line.new ≡ string_bytes line.old ++ texts_words fault) }
{
    match fault {
        TextFault::Text { at } => push_count_line(alloc, line, "text ", at as u64),
        TextFault::Namespace { at } => push_count_line(alloc, line, "namespace ", at as u64),
        TextFault::Value { at } => push_count_line(alloc, line, "value ", at as u64),
        TextFault::TooManyVertices { .. } => line.push_str("vertices\n"),
        TextFault::TooManySides { .. } => line.push_str("sides\n"),
        TextFault::Portal { line: k } => push_count_line(alloc, line, "portal of line ", k as u64),
        TextFault::OffGrid { vertex } => {
            push_count_line(alloc, line, "coordinate of vertex ", vertex as u64)
        }
        TextFault::Memory(_) => line.push_str("memory\n"),
    }
}

/// Adds the words of two lines that share more than an end of both.
pub fn push_clash(alloc: Global, line: &mut String, fault: LineFault) -> Result<(), AllocError>
    ensures { OnOk result (string_bytes line.new ≡ string_bytes line.old ++ clash_words fault) }
{
    match fault {
        LineFault::Cross { i, j } => push_pair_line(alloc, line, "cross ", i, j),
        LineFault::Touch { i, j } => push_pair_line(alloc, line, "touch ", i, j),
        LineFault::Overlap { i, j } => push_pair_line(alloc, line, "overlap ", i, j),
    }
}

fn push_flaw(alloc: Global, line: &mut String, flaw: Flaw) -> Result<(), AllocError>
    ensures { OnOk result (string_bytes line.new ≡ string_bytes line.old ++ flaw_words flaw) }
{
    match flaw {
        Flaw::Line(fault) => push_clash(alloc, line, fault),
        Flaw::Open(side) => push_side_line(alloc, line, "open ", side),
    }
}

fn push_ray(alloc: Global, line: &mut String, fault: RayFault) -> Result<(), AllocError>
    ensures { OnOk result (string_bytes line.new ≡ string_bytes line.old ++ ray_fault_words fault) }
{
    match fault {
        RayFault::Range => line.push_str("range\n"),
        RayFault::BadSide { side } => push_side_line(alloc, line, "side ", side),
        RayFault::NotSplit { line: k } => push_count_line(alloc, line, "not split ", u64::from(k)),
        RayFault::WrongWay { line: k } => push_count_line(alloc, line, "wrong way ", u64::from(k)),
        RayFault::Backwards => line.push_str("backwards\n"),
        RayFault::Blocked { line: k } => push_count_line(alloc, line, "blocked ", u64::from(k)),
    }
}

fn push_trace(alloc: Global, line: &mut String, fault: TraceFault) -> Result<(), AllocError>
    ensures { OnOk result (string_bytes line.new ≡ string_bytes line.old ++ trace_words fault) }
{
    match fault {
        TraceFault::BadRay(fault) => {
            line.push_str("no ray: ")?;
            push_ray(alloc, line, fault)
        }
        TraceFault::HitsSolid { line: k } => push_count_line(
            alloc,
            line,
            "no trace: solid ",
            u64::from(k),
        ),
        TraceFault::HitsPoint { point } => push_count_line(
            alloc,
            line,
            "no trace: point ",
            u64::from(point),
        ),
        TraceFault::Memory(_) => push_text(line, "no trace: memory\n"),
    }
}

fn push_table(alloc: Global, line: &mut String, fault: TableFault) -> Result<(), AllocError>
    ensures { OnOk result (string_bytes line.new ≡ string_bytes line.old ++ table_words fault) }
{
    match fault {
        TableFault::WrongLength { found, expected } => {
            line.push_str("no table: ")?;
            push_number(alloc, line, found)?;
            line.push_str(" bytes, ")?;
            push_number(alloc, line, expected)?;
            line.push_str(" expected\n")
        }
        TableFault::Memory(_) => line.push_str("no table: memory\n"),
    }
}

fn push_cert(alloc: Global, line: &mut String, fault: CertFault) -> Result<(), AllocError>
    ensures { OnOk result (string_bytes line.new ≡ string_bytes line.old ++ cert_words fault) }
{
    match fault {
        CertFault::BadMagic => line.push_str("magic\n"),
        CertFault::BadVersion => line.push_str("version\n"),
        CertFault::Short { at } => push_count_line(alloc, line, "short ", at),
        CertFault::OutOfRange { at } => push_count_line(alloc, line, "range ", at),
        CertFault::NotSorted { at } => push_count_line(alloc, line, "order ", at),
        CertFault::Trailing { at } => push_count_line(alloc, line, "trailing ", at),
        CertFault::Memory(_) => line.push_str("memory\n"),
    }
}

fn push_mesh(alloc: Global, line: &mut String, fault: MeshFault) -> Result<(), AllocError>
    ensures { OnOk result (string_bytes line.new ≡ string_bytes line.old ++ mesh_words fault) }
{
    match fault {
        MeshFault::Flat { triangle } => push_count_line(alloc, line, "flat ", u64::from(triangle)),
        MeshFault::Twice { triangle } => push_count_line(
            alloc,
            line,
            "twice ",
            u64::from(triangle),
        ),
        MeshFault::NoMate { triangle } => push_count_line(
            alloc,
            line,
            "mate ",
            u64::from(triangle),
        ),
        MeshFault::NoTriangle { side } => push_side_line(alloc, line, "side ", side),
        MeshFault::Meets { triangle, line: k } => push_pair_line(
            alloc, line, "meets ", triangle, k,
        ),
        MeshFault::Inside { triangle, point } => push_pair_line(
            alloc, line, "inside ", triangle, point,
        ),
    }
}

fn push_why(alloc: Global, line: &mut String, why: Option<RayFault>) -> Result<(), AllocError>
    ensures { OnOk result (string_bytes line.new ≡ string_bytes line.old ++ why_words why) }
{
    match why {
        Some(fault) => push_ray(alloc, line, fault),
        None => line.push_str("other sectors\n"),
    }
}

fn push_check(alloc: Global, line: &mut String, fault: CheckFault) -> Result<(), AllocError>
    ensures { OnOk result (string_bytes line.new ≡ string_bytes line.old ++ check_words fault) }
{
    match fault {
        CheckFault::Mesh(fault) => {
            line.push_str("no mesh: ")?;
            push_mesh(alloc, line, fault)
        }
        CheckFault::Ray { a, b, why } => {
            line.push_str("no ray ")?;
            push_number(alloc, line, u64::from(a))?;
            line.push_str(" ")?;
            push_number(alloc, line, u64::from(b))?;
            line.push_str(": ")?;
            push_why(alloc, line, why)
        }
        CheckFault::Tree { source, node } => {
            line.push_str("no tree ")?;
            push_number(alloc, line, u64::from(source))?;
            push_count_line(alloc, line, " node ", node)
        }
        CheckFault::ListedSet { a, b } => push_pair_line(alloc, line, "no listed ", a, b),
        CheckFault::Unproved { a, b } => push_pair_line(alloc, line, "no unproved ", a, b),
        CheckFault::Uncovered { a, b } => push_pair_line(alloc, line, "no uncovered ", a, b),
    }
}

fn push_no(alloc: Global, line: &mut String, why: Why) -> Result<(), AllocError>
    ensures { OnOk result (string_bytes line.new ≡ string_bytes line.old ++ no_words why) }
{
    match why {
        Why::Ray(fault) => {
            line.push_str("no ray: ")?;
            push_ray(alloc, line, fault)
        }
        Why::Trace(fault) => push_trace(alloc, line, fault),
        Why::Table(fault) => push_table(alloc, line, fault),
        Why::Cert(fault) => {
            line.push_str("no cert: ")?;
            push_cert(alloc, line, fault)
        }
        Why::Check(fault) => push_check(alloc, line, fault),
        Why::Group(triangle) => push_count_line(alloc, line, "no face ", u64::from(triangle)),
        Why::Unused(group) => push_count_line(alloc, line, "no group ", u64::from(group)),
        Why::NoSector(a) => push_count_line(alloc, line, "no sector ", u64::from(a)),
    }
}

/// Adds what the line of a map's refusal says behind `refused: `.
pub fn push_reason(alloc: Global, line: &mut String, status: Status) -> Result<(), AllocError>
    ensures { OnOk result (string_bytes line.new ≡ string_bytes line.old ++ reason_words status) }
{
    match status {
        Status::BadLump(fault) => {
            push_text(line, "bad lump: ")?;
            push_lumps(alloc, line, fault)
        }
        Status::BadText(fault) => {
            push_text(line, "bad lump: ")?;
            push_texts(alloc, line, fault)
        }
        Status::Limit(bound) => {
            push_text(line, "limit: ")?;
            push_text(line, bound_name(bound))
        }
        Status::BadMap(flaw) => {
            push_text(line, "bad map: ")?;
            push_flaw(alloc, line, flaw)
        }
        _ => push_text(line, "\n"),
    }
}

fn push_refused(alloc: Global, line: &mut String, status: Status) -> Result<(), AllocError>
    ensures { OnOk result (string_bytes line.new ≡ string_bytes line.old ++ (codes "refused: " ++ reason_words status)) }
{
    push_text(line, "refused: ")?;
    push_reason(alloc, line, status)
}

fn push_status(alloc: Global, line: &mut String, status: Status) -> Result<(), AllocError>
    ensures { OnOk result (string_bytes line.new ≡ string_bytes line.old ++ text_of status) }
{
    match status {
        Status::Done | Status::NotRight | Status::Memory(_) => Ok(()),
        Status::Usage => line.push_str("refused: usage\n"),
        Status::SameName => line.push_str("refused: same name\n"),
        Status::No(why) => push_no(alloc, line, why),
        Status::NoFile(role) => {
            push_text(line, "refused: no file ")?;
            push_text(line, role_name(role))
        }
        Status::ReadFault(role) => {
            push_text(line, "refused: read fault ")?;
            push_text(line, role_name(role))
        }
        Status::WriteFault(role) => {
            push_text(line, "refused: write fault ")?;
            push_text(line, role_name(role))
        }
        Status::NotWad(fault) => {
            push_text(line, "refused: not a wad: ")?;
            push_wad(alloc, line, fault)
        }
        Status::NoMap(fault) => {
            push_text(line, "refused: no map: ")?;
            push_map(alloc, line, fault)
        }
        Status::BadLump(_) => push_refused(alloc, line, status),
        Status::BadText(_) => push_refused(alloc, line, status),
        Status::Limit(_) => push_refused(alloc, line, status),
        Status::BadMap(_) => push_refused(alloc, line, status),
    }
}

/// The line of a refusal.
pub fn line_of(alloc: Global, status: &Status) -> Result<String, AllocError>
    ensures { IfOk result (λ line. string_bytes line ≡ text_of status.now) }
{
    let mut line = String::new(alloc);
    push_status(alloc, &mut line, *status)?;
    Ok(line)
}

// A refusal's line that has to be made takes memory.
fn make_and_put<O: Sink>(alloc: Global, out: &mut O, status: Status) -> Status
    ensures { SaidIfMade status result (O.state out.old) (O.state out.new) }
{
    match line_of(alloc, &status) {
        Ok(line) => put_line(out, line.as_bytes(), status),
        Err(refused) => Status::Memory(refused.into()),
    }
}

/// Puts the line of a refusal. Once a file may have been written, that takes no memory.
pub fn put_refusal<O: Sink>(alloc: Global, out: &mut O, status: Status) -> Status
    ensures { Refused status result (O.state out.old) (O.state out.new) }
{
    match status {
        Status::Memory(_) => status,
        Status::WriteFault(role) => put_line(out, write_line(role).as_bytes(), status),
        _ => make_and_put(alloc, out, status),
    }
}
