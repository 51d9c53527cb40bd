//! Whether two of an order's files are one, as the shelf has it: there two names that differ may mean one file.

ghost use Rattle.std.specs.Prelude.{◌≡◌, ◌∷◌, ◌++◌, IfErr};
ghost use Rattle.std.specs.List.{list_any};
ghost use Rattle.std.specs.Str.{bytes_eq};
ghost use Rattle.map_answers.specs.SightStatus.Status.{IsProper};
ghost use Rattle.shelf_io.specs.Shelf.{NoneFell};
ghost use Rattle.sight_run.specs.Run.{Cause, IsOfFileNames, IsOfOrder};
ghost use Rattle.sight_run.specs.Words.{file_in, file_names, given, has_twice};

use map_answers::sight_status::{Role, Status};
use order_words::{Order, ReportFile, Text};
use shelf_io::{SameFault, Shelf};

/// Refuses these two names where they mean one file. Where that can't be found out, nothing is known of the WAD either.
fn refuse_same<S: Shelf>(shelf: &mut S, one: &str, other: &str) -> Result<(), Status>
    ensures files { (S.state shelf.new).files ≡ (S.state shelf.old).files }
    ensures begun { (S.state shelf.new).begun ≡ (S.state shelf.old).begun }
    ensures counts { NoneFell (S.state shelf.old) (S.state shelf.new) }
    ensures cause { Cause (S.state shelf.old) (S.state shelf.new) result }
    ensures names { IfErr result (IsOfFileNames (S.state shelf.old).files (bytes_eq one.now other.now)) }
{
    match shelf.is_one_file(one, other) {
        Ok(false) => Ok(()),
        Ok(true) => Err(Status::SameName),
        Err(SameFault::Failed) => Err(Status::ReadFault(Role::Wad)),
        Err(SameFault::Memory(ref memory)) => Err(Status::Memory(*memory)),
    }
}

/// Refuses the name and one that may be given.
fn refuse_given<S: Shelf>(shelf: &mut S, name: &str, other: &Option<Text>) -> Result<(), Status>
    ensures files { (S.state shelf.new).files ≡ (S.state shelf.old).files }
    ensures begun { (S.state shelf.new).begun ≡ (S.state shelf.old).begun }
    ensures counts { NoneFell (S.state shelf.old) (S.state shelf.new) }
    ensures cause { Cause (S.state shelf.old) (S.state shelf.new) result }
    ensures names { IfErr result (IsOfFileNames (S.state shelf.old).files (list_any (bytes_eq name.now) (given other.now))) }
{
    match other {
        Some(other) => refuse_same(shelf, name, other.as_str()),
        None => Ok(()),
    }
}

/// Refuses the name and one of two that may be given.
fn refuse_among<S: Shelf>(
    shelf: &mut S,
    name: &str,
    cert: &Option<Text>,
    report: &Option<Text>,
) -> Result<(), Status>
    ensures files { (S.state shelf.new).files ≡ (S.state shelf.old).files }
    ensures begun { (S.state shelf.new).begun ≡ (S.state shelf.old).begun }
    ensures counts { NoneFell (S.state shelf.old) (S.state shelf.new) }
    ensures cause { Cause (S.state shelf.old) (S.state shelf.new) result }
    ensures names { IfErr result (IsOfFileNames (S.state shelf.old).files (list_any (bytes_eq name.now) (given cert.now ++ given report.now))) }
{
    refuse_given(shelf, name, cert)?;
    refuse_given(shelf, name, report)
}

/// Refuses two of the files of a build of one map.
fn refuse_outputs<S: Shelf>(
    shelf: &mut S,
    wad: &str,
    out: &str,
    cert: &Option<Text>,
    report: &Option<Text>,
) -> Result<(), Status>
    ensures files { (S.state shelf.new).files ≡ (S.state shelf.old).files }
    ensures begun { (S.state shelf.new).begun ≡ (S.state shelf.old).begun }
    ensures counts { NoneFell (S.state shelf.old) (S.state shelf.new) }
    ensures cause { Cause (S.state shelf.old) (S.state shelf.new) result }
    ensures names { IfErr result (IsOfFileNames (S.state shelf.old).files (has_twice (wad.now ∷ out.now ∷ (given cert.now ++ given report.now)))) }
{
    refuse_same(shelf, wad, out)?;
    refuse_among(shelf, wad, cert, report)?;
    refuse_among(shelf, out, cert, report)?;
    match cert {
        Some(cert) => refuse_given(shelf, cert.as_str(), report),
        None => Ok(()),
    }
}

/// Refuses the name and that of a report that may be asked for.
fn refuse_report<S: Shelf>(
    shelf: &mut S,
    name: &str,
    report: &Option<ReportFile>,
) -> Result<(), Status>
    ensures files { (S.state shelf.new).files ≡ (S.state shelf.old).files }
    ensures begun { (S.state shelf.new).begun ≡ (S.state shelf.old).begun }
    ensures counts { NoneFell (S.state shelf.old) (S.state shelf.new) }
    ensures cause { Cause (S.state shelf.old) (S.state shelf.new) result }
    ensures names { IfErr result (IsOfFileNames (S.state shelf.old).files (list_any (bytes_eq name.now) (given (file_in report.now)))) }
{
    match report {
        Some(report) => refuse_same(shelf, name, report.file.as_str()),
        None => Ok(()),
    }
}

/// Refuses two of the files of a build of all maps.
fn refuse_of_all<S: Shelf>(
    shelf: &mut S,
    wad: &str,
    out: &str,
    report: &Option<ReportFile>,
) -> Result<(), Status>
    ensures files { (S.state shelf.new).files ≡ (S.state shelf.old).files }
    ensures begun { (S.state shelf.new).begun ≡ (S.state shelf.old).begun }
    ensures counts { NoneFell (S.state shelf.old) (S.state shelf.new) }
    ensures cause { Cause (S.state shelf.old) (S.state shelf.new) result }
    ensures names { IfErr result (IsOfFileNames (S.state shelf.old).files (has_twice (wad.now ∷ out.now ∷ given (file_in report.now)))) }
{
    refuse_same(shelf, wad, out)?;
    refuse_report(shelf, wad, report)?;
    refuse_report(shelf, out, report)
}

/// Refuses an order two of whose files are one.
pub fn refuse_one_file<S: Shelf>(shelf: &mut S, order: &Order) -> Result<(), Status>
    ensures files { (S.state shelf.new).files ≡ (S.state shelf.old).files }
    ensures begun { (S.state shelf.new).begun ≡ (S.state shelf.old).begun }
    ensures counts { NoneFell (S.state shelf.old) (S.state shelf.new) }
    ensures cause { Cause (S.state shelf.old) (S.state shelf.new) result }
    ensures names { IfErr result (IsOfFileNames (S.state shelf.old).files (has_twice (file_names order.now))) }
    ensures refusals { IfErr result (IsOfOrder order.now) }
    ensures proper { IfErr result IsProper }
{
    match order {
        Order::Zero { wad, out, .. } => refuse_same(shelf, wad.file.as_str(), out.as_str()),
        Order::Draw { wad, out, .. } => refuse_same(shelf, wad.file.as_str(), out.as_str()),
        Order::Check { wad, cert, .. } => refuse_same(shelf, wad.file.as_str(), cert.as_str()),
        Order::Verify {
            wad,
            report: Some(report),
            ..
        } => refuse_same(shelf, wad.file.as_str(), report.file.as_str()),
        Order::Maps {
            wad,
            report: Some(report),
            ..
        } => refuse_same(shelf, wad.file.as_str(), report.file.as_str()),
        Order::Audit {
            wad,
            report: Some(report),
            ..
        } => refuse_same(shelf, wad.file.as_str(), report.file.as_str()),
        Order::Build {
            wad,
            out,
            cert,
            report,
            ..
        } => refuse_outputs(shelf, wad.file.as_str(), out.as_str(), cert, report),
        Order::All {
            wad,
            out,
            report,
            ..
        } => refuse_of_all(shelf, wad.file.as_str(), out.as_str(), report),
        _ => Ok(()),
    }
}
