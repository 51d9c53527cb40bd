//! A certificate judged part by part.

ghost use Rattle.std.specs.Prelude.{[], ◌∷◌, ◌++◌, List, IfOk};
ghost use Rattle.sight_names.specs.Plan.{PlanParts};
ghost use Rattle.certificates.specs.declared.cert_parts.part.Part.{Part as PartOf};
ghost use Rattle.cert_format.specs.declared.cert_groups.cert.AnyCert.{AnyCert};
ghost use Rattle.reject_bits.specs.Parts.{TableParts};
ghost use Rattle.group_checker.specs.Judged.{JudgesAny};
ghost use Rattle.certificates.specs.CertParts.Nodes.{TakesNodes};
ghost use Rattle.cert_judge.specs.Heard.{node_parts};
ghost use Rattle.cert_judge.specs.Judging.{HasHeard, HasHeardAll, IsListingComplete};
ghost use Rattle.cert_judge.specs.Version.{Groups as GroupsOf};

use crate::kept::Kept;
use crate::on_ground::Groups;
use certificates::cert_parts::Part;
use group_checker::AnyVerdict;
use reject_bits::Table;
use sight_names::{Memory, Plan};
use std::alloc::Global;

/// What has come of a certificate of version 1 or 2, judged as far as it goes. It keeps the groups, the mesh, the
/// rays, the listed pairs, what trees keep from and one path, and never a tree.
#[derive(Drop)]
pub struct Judging<'a> {
    alloc: Global,
    plan: &'a Plan,
    table: &'a Table,
    kept: Kept,
    /// The refusal, where a part found no memory.
    spent: Option<Memory>,
}

impl<'a> Judging<'a> {
    /// No part so far; in version 2 with the groups.
    pub fn new(alloc: Global, plan: &'a Plan, table: &'a Table, groups: Groups) -> Judging<'a>
        ensures { HasHeard plan.now table.now groups [] result }
    {
        Judging {
            alloc,
            plan,
            table,
            kept: Kept::new(alloc, groups),
            spent: None,
        }
    }

    /// The next nodes of the last tree, of so many that are to come, from the bytes: what of those is behind them, and how many
    /// are left. Others than the usual ones, and now and then one of these, are left to `hear`.
    pub fn hear_nodes<'b>(&mut self, bytes: &'b [u8], count: u64) -> (&'b [u8], u64)
        ensures { TakesNodes bytes.now count result.0.now result.1 (λ nodes. (p : PlanParts) (t : TableParts) (groups : GroupsOf) (parts : List PartOf) → HasHeard p t groups parts self.old → HasHeard p t groups (parts ++ node_parts nodes) self.new) }
    {
        if self.spent.is_some() {
            return (bytes, count);
        }
        self.kept.hear_nodes(bytes, count)
    }

    /// The next part of the certificate. A part that finds no memory spends the judging: it finds none from then on.
    pub fn hear(&mut self, part: Part) -> Result<(), Memory>
        ensures { (p : PlanParts) (t : TableParts) (groups : GroupsOf) (parts : List PartOf) → HasHeard p t groups parts self.old → HasHeard p t groups (parts ++ part ∷ []) self.new }
    {
        if let Some(memory) = self.spent {
            return Err(memory);
        }
        match self.kept.hear(self.alloc, self.plan, part) {
            Ok(()) => Ok(()),
            Err(memory) => {
                self.spent = Some(memory);
                Err(memory)
            }
        }
    }

    /// The verdict on the certificate whose parts all have been heard: that of the check of the whole certificate.
    pub fn verdict(self) -> Result<AnyVerdict, Memory>
        requires { IsListingComplete self }
        ensures { (p : PlanParts) (t : TableParts) (c : AnyCert) → HasHeardAll p t c self.entry → IfOk result (JudgesAny p t c) }
    {
        if let Some(memory) = self.spent {
            return Err(memory);
        }
        self.kept.verdict(self.alloc, self.plan, self.table)
    }
}
