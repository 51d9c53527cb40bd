//! What is said of worked certificates: by a judge that is fed them in pieces of every cut, and by the check that judges their trees in
//! threads.

ghost use Rattle.std.specs.Prelude.{◌≡◌, ◌+◌, ◌<◌, ◌≤◌, ◌^◌, length, IfOk, IsTrue};
ghost use Rattle.sight_names.specs.Map.{map_of};
ghost use Rattle.sight_names.specs.Sound.{LinesMeetAtEnds};
ghost use Rattle.cert_format.specs.CertGroups.Grammar.{IsAnyInOrder, sizes_of_listing};

use crate::exact_rows::{CUT, JUDGED, UNREAD, WHOLE};
use crate::plans::plan_of;
use any_judge::Judge;
use cert_format::cert_groups::{AnyCert, print_any};
use cert_format::{Sizes, print};
use cert_judge::Judged;
use certificates::read_any;
use group_checker::check_workers::check_any_par;
use map_audit::audit_lines;
use reject_bits::Table;
use sight_names::{CertFault, Memory, Plan, TableFault};
use std::alloc::{AllocError, Global};
use std::test::Fail;
use std::thread::Threads;
use worked_maps::certs::digits_named;
use worked_maps::files::{bytes_of, bytes_of_digits};
use worked_maps::rows::part;

/// The words of a map, its table, the words of a certificate, and what is said of them.
///
/// Trees that are put behind that of sector 0 are those of sectors 1 and 2. The first has a sequence into each of the two triangles behind
/// both of its doors. The second comes to the door of sector 0 by four sequences; there the left ends (128,64) and (64,64) stand between
/// the right ends (192,64) of the first portal and (0,64) of the fifth, which are ends 0080 and 0480; end 0280 is the third one's (0,128).
const ROWS: &str = "\
U | 4400 | #U-CERT | Verdict(Yes(Totals { set: 1, clear: 5, listed: 0 }))
U | 4400 | #U-GROUPS | Verdict(Yes(Totals { set: 1, clear: 5, listed: 0 }))
ISLAND | 00 | #ISLAND-CERT | Verdict(Yes(Totals { set: 0, clear: 3, listed: 0 }))
# the pair (0, 2) is listed, and clear
U | 0000 | #U-CERT @20:1:01 @140:0:00000200 | Verdict(Yes(Totals { set: 0, clear: 5, listed: 1 }))
U | 0000 | #U-GROUPS @22:1:01 @154:0:00000200 | Verdict(Yes(Totals { set: 0, clear: 5, listed: 1 }))
# three trees
U | 4400 | #U-CERT @24:1:03 @161:0:0100_0400000000000000_00000000_0200_0500000000000000_00000000_03_0000_0080_0480 | Verdict(Yes(Totals { set: 1, clear: 5, listed: 0 }))
U | 4400 | #U-GROUPS @26:1:03 @175:0:0100_0400000000000000_00000000_0200_0500000000000000_00000000_03_0000_0080_0480 | Verdict(Yes(Totals { set: 1, clear: 5, listed: 0 }))
# no bytes of a certificate
U | 4400 | #U-CERT @4:1:04 | Unread(BadVersion)
U | 4400 | #U-CERT @160:1: | Unread(Short { at: 159 })
U | 4400 | #U-CERT @161:0:00 | Unread(Trailing { at: 161 })
U | 4400 | #U-GROUPS @174:1: | Unread(Short { at: 173 })
# two rays of one pair
U | 4400 | #U-CERT @116:1:00 @118:1:01 | Unread(NotSorted { at: 116 })
U | 4400 | #U-GROUPS @175:0:00 | Unread(Trailing { at: 175 })
U | 4400 | #U-GROUPS @36:1:03 | Unread(OutOfRange { at: 36 })
ISLAND | 00 | #ISLAND-CERT @34:1:00 | Unread(NotSorted { at: 34 })
# the mesh: a triangle too few, a side without a sector, and no triangle at all
U | 4400 | #U-CERT @12:1:07 @84:8: | Verdict(No(Check(Mesh(NoMate { triangle: 4 }))))
U | 4400 | #U-GROUPS @14:1:07 @98:8: | Verdict(No(Check(Mesh(NoMate { triangle: 4 }))))
SQUARE @64:2:ffff | 00 | #SQUARE-CERT | Verdict(No(Check(Mesh(NoTriangle { side: Side { line: 3, left: false } }))))
SQUARE | 00 | #SQUARE-GROUPS @12:1:00 @14:1:00 @30:20: | Verdict(No(Check(Mesh(NoTriangle { side: Side { line: 0, left: false } }))))
# a face whose group lacks a sector, and a group that no face has
ISLAND | 00 | #ISLAND-CERT @30:1:01 @34:2: | Verdict(No(Group { triangle: 0 }))
ISLAND | 00 | #ISLAND-CERT @12:1:02 @36:0:01000100 | Verdict(No(Unused { group: 1 }))
# a ray that misses its line, and one of another pair
U | 4400 | #U-CERT @132:8:38ffffffffffffff | Verdict(No(Check(Ray { a: 1, b: 2, why: Some(NotSplit { line: 3 }) })))
U | 4400 | #U-GROUPS @146:8:38ffffffffffffff | Verdict(No(Check(Ray { a: 1, b: 2, why: Some(NotSplit { line: 3 }) })))
U | 4400 | #U-CERT @96:20:03000380010000000000000060ffffffffffffff | Verdict(No(Check(Ray { a: 0, b: 1, why: None })))
U | 4400 | #U-GROUPS @110:20:03000380010000000000000060ffffffffffffff | Verdict(No(Check(Ray { a: 0, b: 1, why: None })))
# of one tree an end that isn't stuck; of the second of three a node too few; of the third an end that isn't stuck; of both; of the first and the second
U | 4400 | #U-CERT @157:1:03 | Verdict(No(Check(Tree { source: 0, node: 4 })))
U | 4400 | #U-GROUPS @171:1:03 | Verdict(No(Check(Tree { source: 0, node: 4 })))
U | 4400 | #U-CERT @24:1:03 @161:0:0100_0300000000000000_000000_0200_0500000000000000_00000000_03_0000_0080_0480 | Verdict(No(Check(Tree { source: 1, node: 3 })))
U | 4400 | #U-CERT @24:1:03 @161:0:0100_0400000000000000_00000000_0200_0500000000000000_00000000_03_0000_0080_0280 | Verdict(No(Check(Tree { source: 2, node: 4 })))
U | 4400 | #U-GROUPS @26:1:03 @175:0:0100_0400000000000000_00000000_0200_0500000000000000_00000000_03_0000_0080_0280 | Verdict(No(Check(Tree { source: 2, node: 4 })))
U | 4400 | #U-CERT @24:1:03 @161:0:0100_0300000000000000_000000_0200_0500000000000000_00000000_03_0000_0080_0280 | Verdict(No(Check(Tree { source: 1, node: 3 })))
U | 4400 | #U-GROUPS @171:1:03 @26:1:03 @175:0:0100_0300000000000000_000000_0200_0500000000000000_00000000_03_0000_0080_0480 | Verdict(No(Check(Tree { source: 0, node: 4 })))
# pairs: listed and set, set without a tree that keeps from it, clear without a ray
U | 4400 | #U-CERT @20:1:01 @140:0:00000200 | Verdict(No(Check(ListedSet { a: 0, b: 2 })))
U | 4400 | #U-GROUPS @22:1:01 @154:0:00000200 | Verdict(No(Check(ListedSet { a: 0, b: 2 })))
U | 4600 | #U-CERT | Verdict(No(Check(Unproved { a: 0, b: 1 })))
U | 4600 | #U-GROUPS | Verdict(No(Check(Unproved { a: 0, b: 1 })))
ISLAND | 02 | #ISLAND-CERT | Verdict(No(Check(Unproved { a: 0, b: 1 })))
U | 0000 | #U-CERT | Verdict(No(Check(Uncovered { a: 0, b: 2 })))
U | 0000 | #U-GROUPS | Verdict(No(Check(Uncovered { a: 0, b: 2 })))
";

// What a judge says of a front and of what is behind it.
fn judged_cut(
    alloc: Global,
    plan: &Plan,
    table: &Table,
    front: &[u8],
    back: &[u8],
) -> Result<Judged, Memory>
    requires table { table.now.n ≡ plan.now.sectors }
    requires few { length front.now + length back.now < 2 ^ 63 }
{
    let mut judge = Judge::new(alloc, plan, table);
    judge.feed(front)?;
    judge.feed(back)?;
    judge.end()
}

// What a judge says of the bytes one by one.
fn judged_singly(alloc: Global, plan: &Plan, table: &Table, bytes: &[u8]) -> Result<Judged, Memory>
    requires table { table.now.n ≡ plan.now.sectors }
{
    let mut judge = Judge::new(alloc, plan, table);
    for k in 0..bytes.len() {
        judge.feed(&bytes[k..=k])?;
    }
    judge.end()
}

// Whether two answers say the same.
fn are_same(alloc: Global, one: &Judged, other: &Judged) -> Result<bool, AllocError> {
    Ok(format!(in alloc; "{one:?}")? == format!(in alloc; "{other:?}")?)
}

// Whether the bytes cut in two here give this answer.
fn is_judged_cut(
    alloc: Global,
    plan: &Plan,
    table: &Table,
    bytes: &[u8],
    at: usize,
    answer: Judged,
) -> Result<bool, Memory>
    requires table { table.now.n ≡ plan.now.sectors }
    requires at { at ≤ length bytes.now }
{
    let (front, back) = bytes.split_at(at);
    match judged_cut(alloc, plan, table, front, back) {
        Ok(judged) => Ok(are_same(alloc, &judged, &answer)?),
        Err(memory) => Err(memory),
    }
}

// Whether each cut of the bytes in two gives this answer.
fn are_judged(
    alloc: Global,
    plan: &Plan,
    table: &Table,
    bytes: &[u8],
    answer: Judged,
) -> Result<bool, Memory>
    requires table { table.now.n ≡ plan.now.sectors }
{
    for at in 0..=bytes.len() {
        if !is_judged_cut(alloc, plan, table, bytes, at, answer)? {
            return Ok(false);
        }
    }
    Ok(true)
}

// A number of points or lines, of which a plan has few.
fn small(number: usize) -> u16 {
    u16::try_from(number).unwrap_or(0)
}

// The sizes of the map that the certificate is about.
fn sizes_in(cert: &AnyCert) -> Sizes
    ensures { result ≡ sizes_of_listing cert.now }
{
    match cert {
        AnyCert::One(one) => one.sizes,
        AnyCert::Two(_, sizes) => *sizes,
    }
}

// Whether it is about a map with as many sectors, points and lines.
fn is_about(plan: &Plan, cert: &AnyCert) -> bool
    ensures sectors { IsTrue result → (sizes_of_listing cert.now).sectors ≡ plan.now.sectors }
    ensures points { IsTrue result → (sizes_of_listing cert.now).points ≡ length plan.now.points }
    ensures lines { IsTrue result → (sizes_of_listing cert.now).lines ≡ length plan.now.lines }
{
    let sizes = sizes_in(cert);
    sizes.sectors == plan.sectors
        && sizes.points as usize == plan.points().len()
        && sizes.lines as usize == plan.lines().len()
}

// Whether the bytes are the one spelling of the certificate.
fn is_spelled(alloc: Global, cert: &AnyCert, bytes: &[u8]) -> Result<bool, Memory>
    requires { IsAnyInOrder cert.now }
{
    if let AnyCert::One(one) = cert {
        let printed = print(alloc, one)?;
        if printed.as_slice() != bytes {
            return Ok(false);
        }
    }
    let printed = print_any(alloc, cert)?;
    Ok(printed.as_slice() == bytes)
}

// What the check in threads says of a certificate that these bytes spell.
fn judged_in_threads<R: Threads + Sync>(
    rt: &R,
    alloc: Global,
    plan: &Plan,
    table: &Table,
    cert: &AnyCert,
    bytes: &[u8],
) -> Result<Judged, Fail>
    requires audited { LinesMeetAtEnds (map_of plan.now) }
    requires table { table.now.n ≡ plan.now.sectors }
    requires in_order { IsAnyInOrder cert.now }
{
    if !is_spelled(alloc, cert, bytes)? {
        return Err("another spelling".into());
    }
    if !is_about(plan, cert) {
        return Err("of another map".into());
    }
    let verdict = check_any_par(rt, alloc, plan, table, cert)?;
    Ok(Judged::Verdict(verdict))
}

// What reader and check say of the bytes.
fn judged_whole<R: Threads + Sync>(
    rt: &R,
    alloc: Global,
    plan: &Plan,
    table: &Table,
    bytes: &[u8],
) -> Result<Judged, Fail>
    requires audited { LinesMeetAtEnds (map_of plan.now) }
    requires table { table.now.n ≡ plan.now.sectors }
{
    let sizes = Sizes {
        sectors: plan.sectors,
        points: small(plan.points().len()),
        lines: small(plan.lines().len()),
    };
    match read_any(alloc, &sizes, bytes) {
        Ok(cert) => judged_in_threads(rt, alloc, plan, table, &cert, bytes),
        Err(fault) => Ok(Judged::Unread(fault)),
    }
}

// The same of any map.
fn judged_audited<R: Threads + Sync>(
    rt: &R,
    alloc: Global,
    plan: &Plan,
    table: &Table,
    bytes: &[u8],
) -> Result<Judged, Fail>
    requires { table.now.n ≡ plan.now.sectors }
{
    let Ok(()) = audit_lines(alloc, plan) else {
        return Err("lines don't meet at ends".into());
    };
    judged_whole(rt, alloc, plan, table, bytes)
}

// The table of so many sectors that digits spell.
fn table_of(alloc: Global, sectors: u16, digits: &str) -> Result<Table, TableFault> {
    let bytes = bytes_of_digits(alloc, digits)?;
    Table::of_bytes(alloc, sectors, &bytes)
}

// What a judge says of bytes that it is fed at once.
fn judged_at_once(alloc: Global, plan: &Plan, table: &Table, bytes: &[u8]) -> Result<Judged, Memory>
    requires table { table.now.n ≡ plan.now.sectors }
{
    let (front, back) = bytes.split_at(bytes.len());
    judged_cut(alloc, plan, table, front, back)
}

// What is said of the bytes. Those of version 3 are read in pieces alone.
fn answer_of<R: Threads + Sync>(
    rt: &R,
    alloc: Global,
    plan: &Plan,
    table: &Table,
    bytes: &[u8],
) -> Result<Judged, Fail>
    requires { table.now.n ≡ plan.now.sectors }
{
    if bytes.get(4) == Some(&3) {
        return Ok(judged_at_once(alloc, plan, table, bytes)?);
    }
    judged_audited(rt, alloc, plan, table, bytes)
}

/// A map's plan, a table of as many sectors, and the bytes of a certificate.
#[derive(Drop)]
struct Given {
    plan: Plan,
    table: Table,
    bytes: Vec<u8>,
}

// What a row gives: the words of a map, its table, and the words of a certificate.
fn given_in(alloc: Global, row: &str) -> Result<Given, Fail>
    ensures { IfOk result (λ g. g.table.n ≡ g.plan.sectors) }
{
    let bytes = bytes_of(alloc, part(row, 2))?;
    let plan = plan_of(alloc, part(row, 0))?;
    let table = table_of(alloc, plan.sectors, part(row, 1))?;
    if table.sectors() != plan.sectors {
        return Err("a table of another size".into());
    }
    Ok(Given { plan, table, bytes })
}

// Whether the answer is told by these words.
fn is_told(alloc: Global, answer: &Judged, words: &str) -> Result<bool, AllocError> {
    let told = format!(in alloc; "{answer:?}")?;
    Ok(told.as_str() == words)
}

// Whether what is given is judged as a row says, in threads and one by one, and where this is asked by every cut too.
fn is_judged<R: Threads + Sync>(
    rt: &R,
    alloc: Global,
    given: &Given,
    row: &str,
    every_cut: bool,
) -> Result<bool, Fail>
    requires { given.now.table.n ≡ given.now.plan.sectors }
{
    let (plan, table, bytes) = (&given.plan, &given.table, given.bytes.as_slice());
    let answer = answer_of(rt, alloc, plan, table, bytes)?;
    Ok(
        is_told(alloc, &answer, part(row, 3))?
            && are_same(alloc, &judged_singly(alloc, plan, table, bytes)?, &answer)?
            && (!every_cut || are_judged(alloc, plan, table, bytes, answer)?),
    )
}

// The same of what the row gives, which is freed at one way out.
fn is_row<R: Threads + Sync>(
    rt: &R,
    alloc: Global,
    row: &str,
    every_cut: bool,
) -> Result<bool, Fail> {
    let given = given_in(alloc, row)?;
    let told = is_judged(rt, alloc, &given, row, every_cut);
    drop(given);
    told
}

// Whether each row is so; else the first that isn't is the fault.
fn hold<R: Threads + Sync>(rt: &R, alloc: Global, rows: &str, every_cut: bool) -> Result<(), Fail> {
    for row in rows.lines() {
        if !row.starts_with('#') && !is_row(rt, alloc, row, every_cut)? {
            return Err(row.into());
        }
    }
    Ok(())
}

#[test]
fn certificates_are_judged_as_their_rows_say_in_threads_and_in_pieces(
    rt: HostRuntime,
) -> Result<(), Fail> {
    hold(&rt, rt.alloc(), ROWS, true)?;
    hold(&rt, rt.alloc(), CUT, true)
}

#[test]
fn certificates_of_version_3_are_judged_as_their_rows_say(rt: HostRuntime) -> Result<(), Fail> {
    hold(&rt, rt.alloc(), JUDGED, false)?;
    hold(&rt, rt.alloc(), UNREAD, false)
}

// Whether the bytes at once and one by one are short at this byte.
fn is_short(
    alloc: Global,
    plan: &Plan,
    table: &Table,
    bytes: &[u8],
    at: usize,
) -> Result<bool, Memory>
    requires table { table.now.n ≡ plan.now.sectors }
{
    let short = Judged::Unread(CertFault::Short { at: at as u64 });
    Ok(
        are_same(alloc, &judged_at_once(alloc, plan, table, bytes)?, &short)?
            && are_same(alloc, &judged_singly(alloc, plan, table, bytes)?, &short)?,
    )
}

// Whether each front of the bytes is short at the field in which it is cut off.
fn are_fronts_short(
    alloc: Global,
    plan: &Plan,
    table: &Table,
    bytes: &[u8],
    fields: &str,
) -> Result<bool, Memory>
    requires table { table.now.n ≡ plan.now.sectors }
{
    let mut at = 0usize;
    for field in fields.split_whitespace() {
        let end = at.wrapping_add(field.len() / 2);
        for len in at..end {
            let front = bytes.get(..len).unwrap_or(&[]);
            if !is_short(alloc, plan, table, front, at)? {
                return Ok(false);
            }
        }
        at = end;
    }
    Ok(at == bytes.len())
}

// Whether this holds of the row's certificate, which is named there.
fn is_whole_row(alloc: Global, row: &str) -> Result<bool, Fail> {
    let given = given_in(alloc, row)?;
    let (plan, table) = (&given.plan, &given.table);
    let fields = digits_named(part(row, 3));
    let told = are_fronts_short(alloc, plan, table, &given.bytes, fields);
    drop(given);
    Ok(told?)
}

#[test]
fn each_front_of_a_certificate_is_short_at_its_field(rt: HostRuntime) -> Result<(), Fail> {
    for row in WHOLE.lines() {
        if !is_whole_row(rt.alloc(), row)? {
            return Err(row.into());
        }
    }
    Ok(())
}
