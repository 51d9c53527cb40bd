//! The bytes of a certificate, read and judged as they come.

ghost use Rattle.std.specs.Prelude.{◌≡◌, ◌<◌, ◌≤◌, ℕ, List, [], ◌++◌, None, length, IsSome, IfSome, IfOk};
ghost use Rattle.sight_names.specs.Plan.{PlanParts};
ghost use Rattle.reject_bits.specs.Parts.{TableParts};
ghost use Rattle.cert_format.specs.Sizes.{sizes_of_plan};
ghost use Rattle.cert_format.specs.declared.cert_groups.cert.AnyCert.{AnyCert};
ghost use Rattle.cert_format.specs.CertGroups.Reading.{any_at};
ghost use Rattle.certificates.specs.CertParts.Left.{IsCountable};
ghost use Rattle.cert_judge.specs.Judging.{HasHeard, HasHeardAll, IsListingComplete};
ghost use Rattle.cert_judge.specs.Judged.{JudgedBy, IsVerdictOfListing};
ghost use Rattle.cert_judge.specs.Intake.{IsGoingOn, HasTakenListing, IsTaken};

use crate::judged::Judged;
use crate::judging::Judging;
use crate::on_ground::Groups;
use certificates::cert_parts::Reader;
use group_checker::AnyVerdict;
use reject_bits::Table;
use sight_names::{CertFault, Memory, Plan};
use std::alloc::Global;

/// The reader of the bytes, the judging of the parts that it gave, and the fault that it told, behind which nothing is
/// read.
#[derive(Drop)]
pub struct Intake<'a> {
    pub reader: Reader,
    pub judging: Judging<'a>,
    pub fault: Option<CertFault>,
}

/// The verdict on a certificate whose parts all were heard.
fn verdict_of(judging: Judging<'_>) -> Result<AnyVerdict, Memory>
    requires { IsListingComplete judging }
    ensures { (p : PlanParts) (t : TableParts) (c : AnyCert) → HasHeardAll p t c judging.entry → IfOk result (IsVerdictOfListing p t c) }
{
    judging.verdict()
}

impl<'a> Intake<'a> {
    /// No part so far; the reader is to give the parts.
    pub fn new(
        alloc: Global,
        plan: &'a Plan,
        table: &'a Table,
        groups: Groups,
        reader: Reader,
    ) -> Intake<'a>
        ensures heard { HasHeard plan.now table.now groups [] result.judging }
        ensures reader { result.reader ≡ reader }
        ensures fault { result.fault ≡ None }
    {
        Intake {
            reader,
            judging: Judging::new(alloc, plan, table, groups),
            fault: None,
        }
    }

    /// The nodes that come first in the rest of a piece: what of the piece is behind them. Others than the usual ones, and now
    /// and then one of these, are left to `take_one`.
    fn take_nodes<'b>(&mut self, ahead: &'b [u8]) -> &'b [u8]
        requires countable { IsCountable self.old.reader ahead.now }
        ensures heard { (p : PlanParts) (t : TableParts) (bytes : List ℕ) → IsGoingOn p t bytes ahead.now self.old → IsGoingOn p t bytes result.now self.new }
        ensures still { self.new.fault ≡ self.old.fault }
        ensures countable { IsCountable self.new.reader result.now }
        ensures within { length result.now ≤ length ahead.now }
    {
        let count = self.reader.nodes_awaited();
        if count == 0 {
            return ahead;
        }
        let (rest, left) = self.judging.hear_nodes(ahead, count);
        self.reader.nodes_taken(left, ahead.len() - rest.len());
        rest
    }

    /// The nodes and the part behind them that come first in the rest of a piece: what of the piece is behind them, or None
    /// where nothing of it is to be read any more.
    fn take_one<'b>(&mut self, rest: &'b [u8]) -> Result<Option<&'b [u8]>, Memory>
        requires on { self.old.fault ≡ None }
        requires countable { IsCountable self.old.reader rest.now }
        ensures more { (p : PlanParts) (t : TableParts) (bytes : List ℕ) → IsGoingOn p t bytes rest.now self.old → IfOk result (λ o. IfSome o (λ behind. IsGoingOn p t bytes behind.now self.new)) }
        ensures all { (p : PlanParts) (t : TableParts) (bytes : List ℕ) → IsGoingOn p t bytes rest.now self.old → IfOk result (λ o. o ≡ None → HasTakenListing p t bytes self.new) }
        ensures still { IfOk result (λ o. IsSome o → self.new.fault ≡ None) }
        ensures countable { IfOk result (λ o. IfSome o (λ behind. IsCountable self.new.reader behind.now)) }
        ensures less { IfOk result (λ o. IfSome o (λ behind. length behind.now < length rest.now)) }
    {
        let rest = self.take_nodes(rest);
        match self.reader.next(rest) {
            Ok((Some(part), behind)) => {
                self.judging.hear(part)?;
                Ok(Some(behind))
            }
            Ok((None, _)) => Ok(None),
            Err(fault) => {
                self.fault = Some(fault);
                Ok(None)
            }
        }
    }

    /// All parts that end in the piece.
    pub fn take_all(&mut self, piece: &[u8]) -> Result<(), Memory>
        requires on { self.old.fault ≡ None }
        requires countable { IsCountable self.old.reader piece.now }
        ensures { (p : PlanParts) (t : TableParts) (bytes : List ℕ) → IsGoingOn p t bytes piece.now self.old → IfOk result (λ _. HasTakenListing p t bytes self.new) }
    {
        let mut rest = piece;
        'rest: while let Some(behind) = self.take_one(rest)? {
            rest = behind;
        }
        Ok(())
    }

    /// The next piece.
    pub fn feed(&mut self, piece: &[u8]) -> Result<(), Memory>
        requires { self.old.fault ≡ None → IsCountable self.old.reader piece.now }
        ensures { (p : PlanParts) (t : TableParts) (bytes : List ℕ) → HasTakenListing p t bytes self.old → IfOk result (λ _. HasTakenListing p t (bytes ++ piece.now) self.new) }
    {
        if self.fault.is_some() {
            return Ok(());
        }
        self.take_all(piece)
    }

    /// What comes of all bytes.
    pub fn end(self) -> Result<Judged, Memory>
        requires { IsTaken self }
        ensures { (p : PlanParts) (t : TableParts) (bytes : List ℕ) → HasTakenListing p t bytes self.entry → IfOk result (JudgedBy (any_at (sizes_of_plan p) bytes) (IsVerdictOfListing p t)) }
    {
        let Intake {
            reader,
            judging,
            fault,
        } = self;
        if let Some(fault) = fault {
            return Ok(Judged::Unread(fault));
        }
        match reader.end() {
            Err(fault) => Ok(Judged::Unread(fault)),
            Ok(()) => Ok(Judged::Verdict(verdict_of(judging)?)),
        }
    }
}
