//! A table judged by a whole certificate of any version.

ghost use Rattle.std.specs.Prelude.{◌≡◌, ◌↔◌, IfOk};
ghost use Rattle.sight_names.specs.Map.{map_of};
ghost use Rattle.sight_names.specs.Sound.{LinesMeetAtEnds};
ghost use Rattle.cert_format.specs.Sizes.{sizes_of_plan};
ghost use Rattle.certificates.specs.Grammar.{IsInOrder, sizes_of_certificate};
ghost use Rattle.group_checker.specs.Judged.{IsYesAny};
ghost use Rattle.any_judge.specs.Accepted.{IsAccepted, TellsSight};
ghost use Rattle.any_judge.specs.Judged.{Judges};

use certificates::Certificate;
use exact_checker::check_exact;
use exact_checker::exact_workers::check_exact_par;
use group_checker::check_workers::check_any_par;
use group_checker::{AnyVerdict, check_any};
use reject_bits::Table;
use sight_names::{Memory, Plan};
use std::alloc::Global;
use std::thread::Threads;

/// Judges the table by a certificate of any version: yes with the totals exactly where the certificate is accepted, or the
/// first fault in order. On yes the table tells of sight, but for the pairs that the certificate lists.
pub fn check(
    alloc: Global,
    plan: &Plan,
    table: &Table,
    cert: &Certificate,
) -> Result<AnyVerdict, Memory>
    requires audited { LinesMeetAtEnds (map_of plan.now) }
    requires table { table.now.n ≡ plan.now.sectors }
    requires sizes { sizes_of_certificate cert.now ≡ sizes_of_plan plan.now }
    requires in_order { IsInOrder cert.now }
    ensures exact { IfOk result (Judges plan.now table.now cert.now) }
    ensures accepted { IfOk result (λ v. IsYesAny v ↔ IsAccepted (map_of plan.now) table.now.bytes cert.now) }
    ensures sight { IfOk result (λ v. IsYesAny v → TellsSight (map_of plan.now) table.now cert.now) }
{
    match cert {
        Certificate::Listing(listing) => check_any(alloc, plan, table, listing),
        Certificate::Exact(exact) => check_exact(alloc, plan, table, exact),
    }
}

/// The same, the trees in threads where some can be had.
pub fn check_par<R: Threads + Sync>(
    rt: &R,
    alloc: Global,
    plan: &Plan,
    table: &Table,
    cert: &Certificate,
) -> Result<AnyVerdict, Memory>
    requires audited { LinesMeetAtEnds (map_of plan.now) }
    requires table { table.now.n ≡ plan.now.sectors }
    requires sizes { sizes_of_certificate cert.now ≡ sizes_of_plan plan.now }
    requires in_order { IsInOrder cert.now }
    ensures exact { IfOk result (Judges plan.now table.now cert.now) }
    ensures accepted { IfOk result (λ v. IsYesAny v ↔ IsAccepted (map_of plan.now) table.now.bytes cert.now) }
    ensures sight { IfOk result (λ v. IsYesAny v → TellsSight (map_of plan.now) table.now cert.now) }
{
    match cert {
        Certificate::Listing(listing) => check_any_par(rt, alloc, plan, table, listing),
        Certificate::Exact(exact) => check_exact_par(rt, alloc, plan, table, exact),
    }
}
