//! The line that tells a fault.

ghost use Rattle.std.specs.Prelude.{◌≡◌, ◌≢◌, MatchOption};
ghost use Rattle.map_answers.specs.declared.sight_status.status.Status.{Status as StatusOf};
ghost use Rattle.map_answers.specs.declared.sight_status.status.Status.TheVariants as status;
ghost use Rattle.doomsight_c.specs.Faults.{fault_view};
ghost use Rattle.doomsight_c.specs.Lines.{IsOfLibrary, bound_in, cert_in, flaw_in, lump_in, lumps_in, mesh_in, no_in, pair_in, ray_in, ray_of as ray_meant, side_in, status_in, text_in};

use crate::fault::DoomsightFault;
use map_answers::sight_status::{Bound, Flaw, Status, Why};
use sight_names::{
    CertFault, CheckFault, LineFault, Lump, LumpFault, MeshFault, RayFault, Side, TableFault,
};
use udmf_map::TextFault;

fn side_of(fault: &DoomsightFault) -> Side
    ensures { result ≡ side_in fault.now }
{
    Side {
        line: fault.line,
        left: fault.left == 1,
    }
}

fn lump_of(number: u16) -> Lump
    ensures { result ≡ lump_in number }
{
    if number == 0 {
        return Lump::Linedefs;
    }
    if number == 1 {
        return Lump::Sidedefs;
    }
    if number == 2 {
        return Lump::Vertexes;
    }
    Lump::Sectors
}

fn of_text(fault: &DoomsightFault) -> Status
    ensures { result ≡ text_in fault.now }
{
    let at = fault.at as usize;
    if fault.kind == 70 {
        return Status::BadText(TextFault::Text { at });
    }
    if fault.kind == 71 {
        return Status::BadText(TextFault::Namespace { at });
    }
    if fault.kind == 72 {
        return Status::BadText(TextFault::Value { at });
    }
    if fault.kind == 73 {
        return Status::BadText(TextFault::Portal { line: at });
    }
    if fault.kind == 74 {
        return Status::BadText(TextFault::OffGrid { vertex: at });
    }
    Status::Usage
}

fn of_lumps(fault: &DoomsightFault) -> Status
    ensures { result ≡ lumps_in fault.now }
{
    if fault.kind == 1 {
        return Status::BadLump(LumpFault::BadSize {
            lump: lump_of(fault.a),
        });
    }
    if fault.kind == 2 {
        return Status::BadLump(LumpFault::BadVertex { line: fault.a });
    }
    if fault.kind == 3 {
        return Status::BadLump(LumpFault::BadSide { line: fault.a });
    }
    if fault.kind == 4 {
        return Status::BadLump(LumpFault::BadSector { side: fault.a });
    }
    of_text(fault)
}

fn of_bound(fault: &DoomsightFault) -> Status
    ensures { result ≡ bound_in fault.now }
{
    if fault.kind == 5 {
        return Status::Limit(Bound::Sectors);
    }
    if fault.kind == 6 {
        return Status::Limit(Bound::Lines);
    }
    if fault.kind == 7 {
        return Status::Limit(Bound::Points);
    }
    if fault.kind == 75 {
        return Status::Limit(Bound::Vertices);
    }
    if fault.kind == 76 {
        return Status::Limit(Bound::Sides);
    }
    Status::Usage
}

fn of_flaw(fault: &DoomsightFault) -> Status
    ensures { result ≡ flaw_in fault.now }
{
    if fault.kind == 8 {
        return Status::BadMap(Flaw::Line(LineFault::Cross {
            i: fault.a,
            j: fault.b,
        }));
    }
    if fault.kind == 9 {
        return Status::BadMap(Flaw::Line(LineFault::Touch {
            i: fault.a,
            j: fault.b,
        }));
    }
    if fault.kind == 10 {
        return Status::BadMap(Flaw::Line(LineFault::Overlap {
            i: fault.a,
            j: fault.b,
        }));
    }
    if fault.kind == 11 {
        return Status::BadMap(Flaw::Open(side_of(fault)));
    }
    Status::Usage
}

fn of_cert(fault: &DoomsightFault) -> Status
    ensures { result ≡ cert_in fault.now }
{
    if fault.kind == 21 {
        return Status::No(Why::Cert(CertFault::BadMagic));
    }
    if fault.kind == 22 {
        return Status::No(Why::Cert(CertFault::BadVersion));
    }
    if fault.kind == 23 {
        return Status::No(Why::Cert(CertFault::Short { at: fault.at }));
    }
    if fault.kind == 24 {
        return Status::No(Why::Cert(CertFault::OutOfRange { at: fault.at }));
    }
    if fault.kind == 25 {
        return Status::No(Why::Cert(CertFault::NotSorted { at: fault.at }));
    }
    if fault.kind == 26 {
        return Status::No(Why::Cert(CertFault::Trailing { at: fault.at }));
    }
    Status::Usage
}

fn of_mesh(fault: &DoomsightFault) -> Status
    ensures { result ≡ mesh_in fault.now }
{
    if fault.kind == 30 {
        return Status::No(Why::Check(CheckFault::Mesh(MeshFault::Flat { triangle: fault.a })));
    }
    if fault.kind == 31 {
        return Status::No(Why::Check(CheckFault::Mesh(MeshFault::Twice { triangle: fault.a })));
    }
    if fault.kind == 32 {
        return Status::No(Why::Check(CheckFault::Mesh(MeshFault::NoMate { triangle: fault.a })));
    }
    if fault.kind == 33 {
        return Status::No(Why::Check(CheckFault::Mesh(MeshFault::NoTriangle {
            side: side_of(fault),
        })));
    }
    if fault.kind == 34 {
        return Status::No(Why::Check(CheckFault::Mesh(MeshFault::Meets {
            triangle: fault.a,
            line: fault.b,
        })));
    }
    if fault.kind == 35 {
        return Status::No(Why::Check(CheckFault::Mesh(MeshFault::Inside {
            triangle: fault.a,
            point: fault.b,
        })));
    }
    of_cert(fault)
}

fn ray_of(fault: &DoomsightFault, why: Option<RayFault>) -> Status
    ensures { result ≡ ray_meant fault.now why }
{
    Status::No(Why::Check(CheckFault::Ray {
        a: fault.a,
        b: fault.b,
        why,
    }))
}

fn of_ray(fault: &DoomsightFault) -> Status
    ensures { result ≡ ray_in fault.now }
{
    if fault.kind == 40 {
        return ray_of(fault, None);
    }
    if fault.kind == 41 {
        return ray_of(fault, Some(RayFault::Range));
    }
    if fault.kind == 42 {
        return ray_of(
            fault,
            Some(RayFault::BadSide {
                side: side_of(fault),
            }),
        );
    }
    if fault.kind == 43 {
        return ray_of(fault, Some(RayFault::NotSplit { line: fault.line }));
    }
    if fault.kind == 44 {
        return ray_of(fault, Some(RayFault::WrongWay { line: fault.line }));
    }
    if fault.kind == 45 {
        return ray_of(fault, Some(RayFault::Backwards));
    }
    if fault.kind == 46 {
        return ray_of(fault, Some(RayFault::Blocked { line: fault.line }));
    }
    of_mesh(fault)
}

fn of_pair(fault: &DoomsightFault) -> Status
    ensures { result ≡ pair_in fault.now }
{
    let (a, b) = (fault.a, fault.b);
    if fault.kind == 51 {
        return Status::No(Why::Check(CheckFault::ListedSet { a, b }));
    }
    if fault.kind == 52 {
        return Status::No(Why::Check(CheckFault::Unproved { a, b }));
    }
    if fault.kind == 53 {
        return Status::No(Why::Check(CheckFault::Uncovered { a, b }));
    }
    of_ray(fault)
}

fn of_no(fault: &DoomsightFault) -> Status
    ensures { result ≡ no_in fault.now }
{
    if fault.kind == 20 {
        return Status::No(Why::Table(TableFault::WrongLength {
            found: fault.at,
            expected: fault.more,
        }));
    }
    if fault.kind == 50 {
        return Status::No(Why::Check(CheckFault::Tree {
            source: fault.a,
            node: fault.at,
        }));
    }
    if fault.kind == 54 {
        return Status::No(Why::Group(fault.a));
    }
    if fault.kind == 55 {
        return Status::No(Why::Unused(fault.a));
    }
    if fault.kind == 56 {
        return Status::No(Why::NoSector(fault.a));
    }
    of_pair(fault)
}

/// The status of the numbers of a fault; usage where they are none of the library's. None where they tell of want of memory:
/// that is made of a refusal alone, not of a number.
pub fn status_of(fault: &DoomsightFault) -> Option<Status>
    ensures { MatchOption result (status_in fault.now ≡ status.Memory tt) (λ s. s ≡ status_in fault.now) }
{
    if fault.code == 8 {
        return Some(of_lumps(fault));
    }
    if fault.code == 9 {
        return Some(of_bound(fault));
    }
    if fault.code == 10 {
        return Some(of_flaw(fault));
    }
    if fault.code == 12 {
        return None;
    }
    if fault.code == 1 {
        return Some(of_no(fault));
    }
    Some(Status::Usage)
}

/// The numbers of each refusal of the library tell it, and its code isn't 0.
pub fn faults_tell_statuses()
    ensures tell { (s : StatusOf) → IsOfLibrary s → status_in (fault_view s) ≡ s }
    ensures codes { (s : StatusOf) → IsOfLibrary s → (fault_view s).code ≢ 0 }
{}
