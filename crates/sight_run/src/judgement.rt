//! What a table and the certificate in a file give: the verdict, or why the bytes of the file spell no certificate.

ghost use Rattle.std.specs.Prelude.{◌≡◌, IfErr, IfOk, Some};
ghost use Rattle.sight_names.specs.Map.{map_of};
ghost use Rattle.sight_names.specs.Sound.{LinesMeetAtEnds};
ghost use Rattle.shelf_io.specs.Shelf.{Files, NoneFell, content_of};
ghost use Rattle.cert_format.specs.Sizes.{sizes_of_plan};
ghost use Rattle.certificates.specs.Grammar.{IsInOrder, sizes_of_certificate as sizes_in};
ghost use Rattle.map_answers.specs.SightStatus.Status.{IsOfCertFetch};
ghost use Rattle.sight_run.specs.Check.{JudgesFetched, of_cert_fetch};
ghost use Rattle.sight_run.specs.Judged.{IsJudgedOnMap, IsJudgementOnMap};
ghost use Rattle.sight_run.specs.Run.{Cause};

use any_judge::cert_file::judge_file;
use any_judge::check;
use cert_judge::Judged;
use certificates::Certificate;
use group_checker::AnyVerdict;
use map_answers::sight_status::{Bound, Role, Status};
use reject_bits::Table;
use shelf_io::Shelf;
use sight_names::{FetchFault, Memory, Plan};
use std::alloc::Global;
use whole_wad::has_sizes_of_map;

/// The verdict by a certificate for a map of the plan's sizes.
pub fn verdict_of(
    alloc: Global,
    plan: &Plan,
    table: &Table,
    cert: &Certificate,
) -> Result<AnyVerdict, Memory>
    requires audited { LinesMeetAtEnds (map_of plan.now) }
    requires table { table.now.n ≡ plan.now.sectors }
    requires sizes { sizes_in cert.now ≡ sizes_of_plan plan.now }
    requires in_order { IsInOrder cert.now }
    ensures { IfOk result (IsJudgedOnMap (map_of plan.now) table.now cert.now) }
{
    let _points = plan.points();
    match check(alloc, plan, table, cert) {
        Ok(verdict) => Ok(verdict),
        Err(memory) => Err(memory),
    }
}

/// What the certificate in that file gives, which is judged while it is read, or why the file isn't read to its end. All files stay.
pub fn judged_in<S: Shelf>(
    alloc: Global,
    shelf: &mut S,
    name: &str,
    plan: &Plan,
    table: &Table,
) -> Result<Judged, Status>
    requires audited { LinesMeetAtEnds (map_of plan.now) }
    requires table { table.now.n ≡ plan.now.sectors }
    ensures told { (files : Files) → (S.state shelf.old).files ≡ Some files → JudgesFetched (IsJudgementOnMap (map_of plan.now) table.now) result (of_cert_fetch (content_of (files name.now) 9223372036854775807)) }
    ensures files { (S.state shelf.new).files ≡ (S.state shelf.old).files }
    ensures begun { (S.state shelf.new).begun ≡ (S.state shelf.old).begun }
    ensures counts { NoneFell (S.state shelf.old) (S.state shelf.new) }
    ensures cause { Cause (S.state shelf.old) (S.state shelf.new) result }
    ensures refusals { IfErr result IsOfCertFetch }
{
    let _points = plan.points();
    has_sizes_of_map(plan);
    match judge_file(alloc, shelf, name, plan, table) {
        Ok(judged) => Ok(judged),
        Err(FetchFault::Absent) => Err(Status::NoFile(Role::Cert)),
        Err(FetchFault::Failed) => Err(Status::ReadFault(Role::Cert)),
        Err(FetchFault::TooLong) => Err(Status::Limit(Bound::CertBytes)),
        Err(FetchFault::Memory(ref memory)) => Err(Status::Memory(*memory)),
    }
}
