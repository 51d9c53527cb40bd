//! Worked certificates of versions 1 and 2 in pieces of every cut: the parts that they give, and the fault where they
//! are cut off.

ghost use Rattle.std.specs.Prelude.{◌≤◌, length};

use block_evidence::sight_tree::Tree;
use cert_format::cert_groups::AnyCert;
use cert_format::{Cert, Sizes, print};
use certificates::cert_parts::{Beginning, Part, Reader, beginning_of};
use certificates::{read, read_any};
use sight_names::{CertFault, Pair};
use std::alloc::{AllocError, Global};
use std::test::Fail;
use worked_maps::certs::digits_named;
use worked_maps::files::{bytes_of_digits, number};
use worked_maps::rows::part;

/// A certificate, how many sectors, points and lines its map has, and how many parts it has itself. The first two have eight triangles,
/// two rays, and a tree of five nodes.
const ROWS: &str = "\
U-CERT | 3 10 12 | 16
U-GROUPS | 3 10 12 | 16
SQUARE-CERT | 1 4 4 | 2
SQUARE-GROUPS | 1 4 4 | 2
ISLAND-CERT | 2 8 8 | 8
LISTED | 2 8 8 | 2
";

/// A certificate of version 2 with one group of two sectors, one triangle, and the listed pair of both sectors. Each word is a field.
const LISTED: &str = "\
44534354 0200 0200 0800 0800 0100 01000000 00000000 01000000 00000000
0200 0000 0100
0000 0200 0300 0000
0000 0100
";

// The fields of a certificate, with blanks between them.
fn fields_named(name: &str) -> &'static str {
    if name == "LISTED" {
        return LISTED;
    }
    digits_named(name)
}

fn number_at(words: &str, k: usize) -> u16 {
    words
        .split_whitespace()
        .nth(k)
        .unwrap_or("")
        .parse()
        .unwrap_or(0)
}

// Adds the parts that a piece gives, up to its end or to a fault.
fn add_parts(reader: &mut Reader, piece: &[u8], parts: &mut Vec<Part>) -> Result<(), CertFault> {
    let mut rest = piece;
    for _ in 0..=piece.len() {
        let (part, behind) = reader.next(rest)?;
        let Some(part) = part else {
            return Ok(());
        };
        parts.push(part)?;
        rest = behind;
    }
    Ok(())
}

// The reader behind what these bytes begin with, and the parts that it gives of them; or where the bytes end before their first part.
fn begun(
    alloc: Global,
    sizes: &Sizes,
    bytes: &[u8],
    parts: &mut Vec<Part>,
) -> Result<Result<Reader, u64>, CertFault> {
    match beginning_of(alloc, sizes, bytes) {
        Ok(Beginning::Cut { at }) => Ok(Err(at)),
        Ok(
            Beginning::Read {
                groups,
                reader,
                rest,
            },
        ) => {
            let _ = groups;
            let mut reader = reader;
            add_parts(&mut reader, rest, parts)?;
            Ok(Ok(reader))
        }
        Err(fault) => Err(fault),
    }
}

// Adds the parts that these pieces give. What comes before the first of them is kept.
fn push_parts(
    alloc: Global,
    sizes: &Sizes,
    pieces: &[&[u8]],
    kept: &mut Vec<u8>,
    parts: &mut Vec<Part>,
) -> Result<(), CertFault> {
    let mut course = Err(0);
    for piece in pieces {
        if let Ok(reader) = &mut course {
            add_parts(reader, piece, parts)?;
        } else {
            kept.extend_from_slice(piece)?;
            course = begun(alloc, sizes, kept, parts)?;
        }
    }
    match course {
        Ok(reader) => reader.end(),
        Err(at) => Err(CertFault::Short { at }),
    }
}

// The parts that these pieces give. What is kept of them is freed at one way out.
fn parts_in(alloc: Global, sizes: &Sizes, pieces: &[&[u8]]) -> Result<Vec<Part>, CertFault> {
    let mut parts = Vec::new(alloc);
    let mut kept = Vec::new(alloc);
    let pushed = push_parts(alloc, sizes, pieces, &mut kept, &mut parts);
    drop(kept);
    pushed?;
    Ok(parts)
}

// Adds a tree: its source, how many nodes it has, and then those.
fn add_tree(parts: &mut Vec<Part>, tree: &Tree) -> Result<(), AllocError> {
    parts.push(Part::Tree {
        source: tree.source,
        nodes: tree.nodes.len() as u64,
    })?;
    for node in tree.nodes.iter() {
        parts.push(Part::Node(node))?;
    }
    Ok(())
}

// The parts of a certificate that lists these pairs, in the order in which its bytes have them.
fn parts_with(alloc: Global, cert: &Cert, listed: &[Pair]) -> Result<Vec<Part>, AllocError> {
    let mut parts = Vec::new(alloc);
    for triangle in cert.triangles() {
        parts.push(Part::Triangle(*triangle))?;
    }
    for ray in cert.rays() {
        parts.push(Part::Ray(*ray))?;
    }
    for pair in listed {
        parts.push(Part::Listed(*pair))?;
    }
    for tree in cert.trees() {
        add_tree(&mut parts, tree)?;
    }
    Ok(parts)
}

// The same of version 1 or 2.
fn parts_of(alloc: Global, cert: &AnyCert) -> Result<Vec<Part>, AllocError> {
    match cert {
        AnyCert::One(one) => parts_with(alloc, one, one.listed()),
        AnyCert::Two(two, _) => parts_with(alloc, &two.cert, two.listed.as_slice()),
    }
}

// The bytes one by one.
fn singles<'a>(alloc: Global, bytes: &'a [u8]) -> Result<Vec<&'a [u8]>, AllocError> {
    let mut pieces = Vec::new(alloc);
    for k in 0..bytes.len() {
        pieces.push(&bytes[k..=k])?;
    }
    Ok(pieces)
}

// Whether pieces give these parts.
fn gives(alloc: Global, sizes: &Sizes, pieces: &[&[u8]], whole: &[Part]) -> bool {
    match parts_in(alloc, sizes, pieces) {
        Ok(parts) => parts.as_slice() == whole,
        Err(_) => false,
    }
}

// Whether pieces have this fault.
fn fails(alloc: Global, sizes: &Sizes, pieces: &[&[u8]], fault: CertFault) -> bool {
    let Err(other) = parts_in(alloc, sizes, pieces) else {
        return false;
    };
    other == fault
}

// Whether the bytes cut in two here give these parts.
fn is_right_cut(alloc: Global, sizes: &Sizes, bytes: &[u8], at: usize, whole: &[Part]) -> bool
    requires { at ≤ length bytes.now }
{
    let (front, back) = bytes.split_at(at);
    gives(alloc, sizes, &[front, back], whole)
}

// Whether they do so cut in two at each place, and one by one.
fn are_right_cuts(
    alloc: Global,
    sizes: &Sizes,
    bytes: &[u8],
    whole: &[Part],
) -> Result<bool, AllocError> {
    for at in 0..=bytes.len() {
        if !is_right_cut(alloc, sizes, bytes, at, whole) {
            return Ok(false);
        }
    }
    let pieces = singles(alloc, bytes)?;
    Ok(gives(alloc, sizes, &pieces, whole))
}

// Whether the bytes have this fault, in one piece and one by one.
fn is_fault(
    alloc: Global,
    sizes: &Sizes,
    bytes: &[u8],
    fault: CertFault,
) -> Result<bool, AllocError> {
    let pieces = singles(alloc, bytes)?;
    Ok(fails(alloc, sizes, &[bytes], fault) && fails(alloc, sizes, &pieces, fault))
}

// Whether each front of the bytes is short at the field in which it is cut off.
fn are_right_fronts(
    alloc: Global,
    sizes: &Sizes,
    bytes: &[u8],
    fields: &str,
) -> Result<bool, AllocError> {
    let mut at = 0usize;
    for field in fields.split_whitespace() {
        let end = at.wrapping_add(field.len() / 2);
        for len in at..end {
            let front = bytes.get(..len).unwrap_or(&[]);
            if !is_fault(alloc, sizes, front, CertFault::Short { at: at as u64 })? {
                return Ok(false);
            }
        }
        at = end;
    }
    Ok(at == bytes.len())
}

// Whether the bytes with one more behind them trail where it stands.
fn is_right_behind(alloc: Global, sizes: &Sizes, bytes: &[u8]) -> Result<bool, AllocError> {
    let mut more = bytes.to_vec(alloc)?;
    more.push(0)?;
    let fault = CertFault::Trailing {
        at: bytes.len() as u64,
    };
    is_fault(alloc, sizes, &more, fault)
}

// The sizes of a row's map.
fn sizes_in(row: &str) -> Sizes {
    Sizes {
        sectors: number_at(part(row, 1), 0),
        points: number_at(part(row, 1), 1),
        lines: number_at(part(row, 1), 2),
    }
}

// The parts of the certificate of version 1 or 2 that the bytes spell.
fn parts_spelled(alloc: Global, sizes: &Sizes, bytes: &[u8]) -> Result<Vec<Part>, CertFault> {
    let cert = read_any(alloc, sizes, bytes)?;
    Ok(parts_of(alloc, &cert)?)
}

// Whether pieces of every cut give these parts, and each front and a byte too many its fault.
fn are_right(
    alloc: Global,
    sizes: &Sizes,
    bytes: &[u8],
    whole: &[Part],
    fields: &str,
) -> Result<bool, AllocError> {
    Ok(
        are_right_cuts(alloc, sizes, bytes, whole)?
            && are_right_fronts(alloc, sizes, bytes, fields)?
            && is_right_behind(alloc, sizes, bytes)?,
    )
}

// Whether this holds of the row's certificate, which has so many parts.
fn is_right(alloc: Global, row: &str) -> Result<bool, Fail> {
    let fields = fields_named(part(row, 0));
    let sizes = sizes_in(row);
    let bytes = bytes_of_digits(alloc, fields)?;
    let whole = parts_spelled(alloc, &sizes, &bytes)?;
    let is_whole = whole.len() == number(part(row, 2));
    let told = are_right(alloc, &sizes, &bytes, &whole, fields);
    drop(whole);
    drop(bytes);
    Ok(is_whole && told?)
}

// Whether the certificate is read as one of version 1 just where it is one, and is spelled by its own bytes then.
fn is_read_as_one(alloc: Global, row: &str) -> Result<bool, Fail> {
    let bytes = bytes_of_digits(alloc, fields_named(part(row, 0)))?;
    let is_one = bytes.get(4) == Some(&1);
    match read(alloc, &sizes_in(row), &bytes) {
        Ok(cert) => Ok(is_one && print(alloc, &cert)?.as_slice() == bytes.as_slice()),
        Err(fault) => Ok(!is_one && fault == CertFault::BadVersion),
    }
}

// Whether this holds of a row, or else that its certificate is read as one of version 1 just where it is one.
fn holds(alloc: Global, row: &str, as_one: bool) -> Result<bool, Fail> {
    if as_one {
        is_read_as_one(alloc, row)
    } else {
        is_right(alloc, row)
    }
}

// Whether one of the two holds of each row; else the first of which it doesn't is the fault.
fn hold(alloc: Global, as_one: bool) -> Result<(), Fail> {
    for row in ROWS.lines() {
        if !holds(alloc, row, as_one)? {
            return Err(row.into());
        }
    }
    Ok(())
}

#[test]
fn pieces_of_every_cut_give_the_parts_and_a_front_is_short_at_its_field(
    rt: HostRuntime,
) -> Result<(), Fail> {
    hold(rt.alloc(), false)
}

#[test]
fn a_certificate_of_version_1_is_read_whole_and_no_other(rt: HostRuntime) -> Result<(), Fail> {
    hold(rt.alloc(), true)
}
