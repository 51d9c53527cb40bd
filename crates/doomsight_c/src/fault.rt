//! A refusal as the numbers that C reads.

ghost use Rattle.std.specs.Prelude.{◌≡◌};
ghost use Rattle.doomsight_c.specs.Faults.{bit_of_bool, bound_view, cert_view, check_view, fault_view, flaw_view, lump_number, lumps_view, mesh_view, no_view, of_ray as of_ray_lem, of_side as of_side_lem, ray_view, table_view, text_view, two_numbers as two_lem, wide as wide_lem};

use map_answers::sight_status::{Bound, Flaw, Status, Why, code};
use sight_names::{
    CertFault, CheckFault, LineFault, Lump, LumpFault, MeshFault, RayFault, Side, TableFault,
};
use udmf_map::TextFault;

/// Why a call refused. `code` is the exit status of the program; what the other numbers tell stands in the header. To C the
/// fields are at the bytes 0, 2, 4, 6, 8, 10, 16 and 24 of 32.
#[repr(C)]
#[derive(Clone, Copy)]
pub struct DoomsightFault {
    pub code: u16,
    pub kind: u16,
    pub a: u16,
    pub b: u16,
    pub line: u16,
    pub left: u16,
    pub at: u64,
    pub more: u64,
}

/// A kind with two numbers of 16 bits.
pub fn two(code: u16, kind: u16, a: u16, b: u16) -> DoomsightFault
    ensures { result ≡ two_lem code kind a b }
{
    DoomsightFault {
        code,
        kind,
        a,
        b,
        line: 0,
        left: 0,
        at: 0,
        more: 0,
    }
}

/// 1 for the left side of a line.
pub fn left_of(side: Side) -> u16
    ensures { result ≡ bit_of_bool side.left }
{
    if side.left { 1 } else { 0 }
}

fn of_side(code: u16, kind: u16, side: Side) -> DoomsightFault
    ensures { result ≡ of_side_lem code kind side }
{
    DoomsightFault {
        code,
        kind,
        a: 0,
        b: 0,
        line: side.line,
        left: left_of(side),
        at: 0,
        more: 0,
    }
}

fn of_ray(kind: u16, a: u16, b: u16, line: u16, left: u16) -> DoomsightFault
    ensures { result ≡ of_ray_lem kind a b line left }
{
    DoomsightFault {
        code: 1,
        kind,
        a,
        b,
        line,
        left,
        at: 0,
        more: 0,
    }
}

/// A kind with two numbers of 64 bits.
pub fn wide(code: u16, kind: u16, at: u64, more: u64) -> DoomsightFault
    ensures { result ≡ wide_lem code kind at more }
{
    DoomsightFault {
        code,
        kind,
        a: 0,
        b: 0,
        line: 0,
        left: 0,
        at,
        more,
    }
}

fn number_of_lump(lump: Lump) -> u16
    ensures { result ≡ lump_number lump }
{
    match lump {
        Lump::Linedefs => 0,
        Lump::Sidedefs => 1,
        Lump::Vertexes => 2,
        Lump::Sectors => 3,
    }
}

fn of_lumps(fault: LumpFault) -> DoomsightFault
    ensures { result ≡ lumps_view fault }
{
    match fault {
        LumpFault::BadSize { lump } => two(8, 1, number_of_lump(lump), 0),
        LumpFault::BadVertex { line } => two(8, 2, line, 0),
        LumpFault::BadSide { line } => two(8, 3, line, 0),
        LumpFault::BadSector { side } => two(8, 4, side, 0),
        _ => two(8, 0, 0, 0),
    }
}

fn of_text(fault: TextFault) -> DoomsightFault
    ensures { result ≡ text_view fault }
{
    match fault {
        TextFault::Text { at } => wide(8, 70, at as u64, 0),
        TextFault::Namespace { at } => wide(8, 71, at as u64, 0),
        TextFault::Value { at } => wide(8, 72, at as u64, 0),
        TextFault::Portal { line } => wide(8, 73, line as u64, 0),
        TextFault::OffGrid { vertex } => wide(8, 74, vertex as u64, 0),
        _ => two(8, 0, 0, 0),
    }
}

fn of_bound(bound: Bound) -> DoomsightFault
    ensures { result ≡ bound_view bound }
{
    match bound {
        Bound::Sectors => two(9, 5, 0, 0),
        Bound::Lines => two(9, 6, 0, 0),
        Bound::Points => two(9, 7, 0, 0),
        Bound::Vertices => two(9, 75, 0, 0),
        Bound::Sides => two(9, 76, 0, 0),
        _ => two(9, 0, 0, 0),
    }
}

fn of_flaw(flaw: Flaw) -> DoomsightFault
    ensures { result ≡ flaw_view flaw }
{
    match flaw {
        Flaw::Line(LineFault::Cross { i, j }) => two(10, 8, i, j),
        Flaw::Line(LineFault::Touch { i, j }) => two(10, 9, i, j),
        Flaw::Line(LineFault::Overlap { i, j }) => two(10, 10, i, j),
        Flaw::Open(side) => of_side(10, 11, side),
    }
}

fn of_table(fault: TableFault) -> DoomsightFault
    ensures { result ≡ table_view fault }
{
    match fault {
        TableFault::WrongLength { found, expected } => wide(1, 20, found, expected),
        TableFault::Memory(_) => two(1, 0, 0, 0),
    }
}

fn of_cert(fault: CertFault) -> DoomsightFault
    ensures { result ≡ cert_view fault }
{
    match fault {
        CertFault::BadMagic => two(1, 21, 0, 0),
        CertFault::BadVersion => two(1, 22, 0, 0),
        CertFault::Short { at } => wide(1, 23, at, 0),
        CertFault::OutOfRange { at } => wide(1, 24, at, 0),
        CertFault::NotSorted { at } => wide(1, 25, at, 0),
        CertFault::Trailing { at } => wide(1, 26, at, 0),
        CertFault::Memory(_) => two(1, 0, 0, 0),
    }
}

fn of_mesh(fault: MeshFault) -> DoomsightFault
    ensures { result ≡ mesh_view fault }
{
    match fault {
        MeshFault::Flat { triangle } => two(1, 30, triangle, 0),
        MeshFault::Twice { triangle } => two(1, 31, triangle, 0),
        MeshFault::NoMate { triangle } => two(1, 32, triangle, 0),
        MeshFault::NoTriangle { side } => of_side(1, 33, side),
        MeshFault::Meets { triangle, line } => two(1, 34, triangle, line),
        MeshFault::Inside { triangle, point } => two(1, 35, triangle, point),
    }
}

fn of_ray_fault(a: u16, b: u16, why: Option<RayFault>) -> DoomsightFault
    ensures { result ≡ ray_view a b why }
{
    match why {
        None => of_ray(40, a, b, 0, 0),
        Some(RayFault::Range) => of_ray(41, a, b, 0, 0),
        Some(RayFault::BadSide { side }) => of_ray(42, a, b, side.line, left_of(side)),
        Some(RayFault::NotSplit { line }) => of_ray(43, a, b, line, 0),
        Some(RayFault::WrongWay { line }) => of_ray(44, a, b, line, 0),
        Some(RayFault::Backwards) => of_ray(45, a, b, 0, 0),
        Some(RayFault::Blocked { line }) => of_ray(46, a, b, line, 0),
    }
}

fn of_check(fault: CheckFault) -> DoomsightFault
    ensures { result ≡ check_view fault }
{
    match fault {
        CheckFault::Mesh(fault) => of_mesh(fault),
        CheckFault::Ray { a, b, why } => of_ray_fault(a, b, why),
        CheckFault::Tree { source, node } => DoomsightFault {
            code: 1,
            kind: 50,
            a: source,
            b: 0,
            line: 0,
            left: 0,
            at: node,
            more: 0,
        },
        CheckFault::ListedSet { a, b } => two(1, 51, a, b),
        CheckFault::Unproved { a, b } => two(1, 52, a, b),
        CheckFault::Uncovered { a, b } => two(1, 53, a, b),
    }
}

fn of_no(why: Why) -> DoomsightFault
    ensures { result ≡ no_view why }
{
    match why {
        Why::Table(fault) => of_table(fault),
        Why::Cert(fault) => of_cert(fault),
        Why::Check(fault) => of_check(fault),
        Why::Group(triangle) => two(1, 54, triangle, 0),
        Why::Unused(group) => two(1, 55, group, 0),
        Why::NoSector(sector) => two(1, 56, sector, 0),
        _ => two(1, 0, 0, 0),
    }
}

/// The numbers of a refusal.
pub fn fault_of(status: &Status) -> DoomsightFault
    ensures { result ≡ fault_view status.now }
{
    match *status {
        Status::No(why) => of_no(why),
        Status::BadLump(fault) => of_lumps(fault),
        Status::BadText(fault) => of_text(fault),
        Status::Limit(bound) => of_bound(bound),
        Status::BadMap(flaw) => of_flaw(flaw),
        _ => two(u16::from(code(status)), 0, 0, 0),
    }
}
