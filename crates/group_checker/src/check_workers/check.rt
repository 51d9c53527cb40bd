//! The check with the trees judged in threads.

ghost use denote.Param.Send.{IsSync};
ghost use Rattle.std.specs.Prelude.{◌≡◌, ◌↔◌, length, IfOk};
ghost use Rattle.sight_names.specs.Map.{map_of};
ghost use Rattle.sight_names.specs.Sound.{LinesMeetAtEnds};
ghost use Rattle.cert_format.specs.CertGroups.Grammar.{IsAnyInOrder, sizes_of_listing};
ghost use Rattle.cert_checker.specs.AcceptedGroups.Accepted.{IsAcceptedAny};
ghost use Rattle.group_checker.specs.Judged.{IsYesAny, JudgesAny, TellsSightAny};

use crate::check_workers::join::join;
use crate::check_workers::parts::judge_parts;
use crate::{AnyVerdict, check_any_by};
use block_evidence::sight_tree::Tree;
use cert_checker::tree_judge::{Terrain, TreeJudges, TreeVerdict};
use cert_format::cert_groups::AnyCert;
use reject_bits::Table;
use sight_names::{Memory, Plan};
use std::alloc::Global;
use std::thread::Threads;

/// Judges of parts of the trees, in threads where some can be had. What they find is taken in the order of the trees.
#[derive(Drop)]
struct Judges<'a, R> {
    rt: &'a R,
}

impl<'a, R: Threads + Sync> TreeJudges for Judges<'a, R> {
    ghost can_judge = { λ j. IsSync R.row };

    fn judge_all(
        &self,
        alloc: Global,
        sectors: u16,
        terrain: &Terrain<'_>,
        trees: &[Tree],
    ) -> Result<TreeVerdict, Memory> {
        let parts = judge_parts(self.rt, alloc, sectors, terrain, trees)?;
        join(alloc, sectors, parts.as_slice())
    }
}

/// Judges the table by a certificate of version 1 or 2, its trees in threads where some can be had: yes with the totals
/// exactly where the certificate is accepted, or the first fault in order. On yes no rejected pair sees, and each clear pair
/// that isn't listed does.
pub fn check_any_par<R: Threads + Sync>(
    rt: &R,
    alloc: Global,
    plan: &Plan,
    table: &Table,
    cert: &AnyCert,
) -> Result<AnyVerdict, Memory>
    requires audited { LinesMeetAtEnds (map_of plan.now) }
    requires table { table.now.n ≡ plan.now.sectors }
    requires sectors { (sizes_of_listing cert.now).sectors ≡ plan.now.sectors }
    requires points { (sizes_of_listing cert.now).points ≡ length plan.now.points }
    requires lines { (sizes_of_listing cert.now).lines ≡ length plan.now.lines }
    requires in_order { IsAnyInOrder cert.now }
    ensures exact { IfOk result (JudgesAny plan.now table.now cert.now) }
    ensures accepted { IfOk result (λ v. IsYesAny v ↔ IsAcceptedAny (map_of plan.now) table.now.bytes cert.now) }
    ensures sight { IfOk result (λ v. IsYesAny v → TellsSightAny (map_of plan.now) table.now cert.now) }
{
    check_any_by(&Judges { rt }, alloc, plan, table, cert)
}
