//! The bytes of a certificate of version 3 behind its groups, read and judged as they come.

ghost use Rattle.std.specs.Prelude.{◌≡◌, ◌<◌, ◌≤◌, ℕ, List, [], ◌++◌, Result, Err, None, length, IsSome, IfSome, IfOk};
ghost use Rattle.sight_names.specs.Plan.{PlanParts};
ghost use Rattle.reject_bits.specs.Parts.{TableParts};
ghost use Rattle.sight_names.specs.declared.faults.CertFault.{CertFault as FaultOf};
ghost use Rattle.cert_format.specs.Reading.{FailsCert};
ghost use Rattle.cert_format.specs.Sizes.{sizes_of_plan};
ghost use Rattle.certificates.specs.CertExact.Reading.{exact_at};
ghost use Rattle.certificates.specs.declared.exact_parts.part.Part.{Part as PartOf};
ghost use Rattle.certificates.specs.ExactParts.Left.{IsCountable};
ghost use Rattle.cert_judge.specs.Judged.{JudgedBy};
ghost use Rattle.any_judge.specs.ExactJudge.Judged.{IsVerdictOfExact};
ghost use Rattle.any_judge.specs.ExactJudge.Judging.{HasHeard};
ghost use Rattle.any_judge.specs.ExactJudge.Intake.{IsGoingOn, HasTakenExact, IsTaken};

use crate::exact_judge::judging::Judging;
use cert_format::cert_groups::Group;
use cert_judge::Judged;
use certificates::exact_parts::Reader;
use reject_bits::Table;
use sight_names::{CertFault, Items, Memory, Plan};
use std::alloc::Global;

/// The reader of the bytes, the judging of the parts that it gave, and the fault that it told, behind which nothing is
/// read.
#[derive(Drop)]
pub struct Intake<'a> {
    pub reader: Reader,
    pub judging: Judging<'a>,
    pub fault: Option<CertFault>,
}

/// The fault of a reading, unless memory ran out.
fn unless_memory(fault: CertFault) -> Result<CertFault, Memory>
    ensures { (read : Result (List PartOf) FaultOf) → FailsCert fault read → IfOk result (λ f. read ≡ Err f) }
{
    match fault {
        CertFault::Memory(memory) => Err(memory),
        other => Ok(other),
    }
}

impl<'a> Intake<'a> {
    /// No part so far; the reader is to give the parts.
    pub fn new(
        alloc: Global,
        plan: &'a Plan,
        table: &'a Table,
        groups: Items<Group>,
        reader: Reader,
    ) -> Intake<'a>
        ensures heard { HasHeard plan.now table.now groups [] result.judging }
        ensures reader { result.reader ≡ reader }
        ensures fault { result.fault ≡ None }
    {
        Intake {
            reader,
            judging: Judging::new(alloc, plan, table, groups),
            fault: None,
        }
    }

    /// The nodes of one tree that come first in the rest of a piece: what of the piece is behind them. Others than the usual ones,
    /// and now and then one of these, are left to `take_one`.
    fn take_nodes<'b>(&mut self, ahead: &'b [u8]) -> Result<&'b [u8], Memory>
        requires countable { IsCountable self.old.reader ahead.now }
        ensures heard { (p : PlanParts) (t : TableParts) (bytes : List ℕ) → IsGoingOn p t bytes ahead.now self.old → IfOk result (λ rest. IsGoingOn p t bytes rest.now self.new) }
        ensures still { self.new.fault ≡ self.old.fault }
        ensures countable { IfOk result (λ rest. IsCountable self.new.reader rest.now) }
        ensures within { IfOk result (λ rest. length rest.now ≤ length ahead.now) }
    {
        let awaited = self.reader.tree_awaited();
        if awaited == 0 {
            return Ok(ahead);
        }
        // a node takes a byte at least
        let count = awaited.min(ahead.len() as u64);
        let (bytes, _) = ahead.split_at(count as usize);
        let (rest, _) = self.judging.hear_nodes(self.reader.tree(), bytes, count)?;
        let taken = bytes.len() - rest.len();
        self.reader.nodes_taken(taken);
        let (_, behind) = ahead.split_at(taken);
        Ok(behind)
    }

    /// The nodes and the part behind them that come first in the rest of a piece: what of the piece is behind them, or None
    /// where nothing of it is to be read any more.
    fn take_one<'b>(&mut self, rest: &'b [u8]) -> Result<Option<&'b [u8]>, Memory>
        requires on { self.old.fault ≡ None }
        requires countable { IsCountable self.old.reader rest.now }
        ensures more { (p : PlanParts) (t : TableParts) (bytes : List ℕ) → IsGoingOn p t bytes rest.now self.old → IfOk result (λ o. IfSome o (λ behind. IsGoingOn p t bytes behind.now self.new)) }
        ensures all { (p : PlanParts) (t : TableParts) (bytes : List ℕ) → IsGoingOn p t bytes rest.now self.old → IfOk result (λ o. o ≡ None → HasTakenExact p t bytes self.new) }
        ensures still { IfOk result (λ o. IsSome o → self.new.fault ≡ None) }
        ensures countable { IfOk result (λ o. IfSome o (λ behind. IsCountable self.new.reader behind.now)) }
        ensures less { IfOk result (λ o. IfSome o (λ behind. length behind.now < length rest.now)) }
    {
        let rest = self.take_nodes(rest)?;
        match self.reader.next(rest) {
            Ok((Some(part), behind)) => {
                self.judging.hear(part)?;
                Ok(Some(behind))
            }
            Ok((None, _)) => Ok(None),
            Err(fault) => {
                let told = unless_memory(fault)?;
                self.fault = Some(told);
                Ok(None)
            }
        }
    }

    /// All parts that end in the piece.
    pub fn take_all(&mut self, piece: &[u8]) -> Result<(), Memory>
        requires on { self.old.fault ≡ None }
        requires countable { IsCountable self.old.reader piece.now }
        ensures { (p : PlanParts) (t : TableParts) (bytes : List ℕ) → IsGoingOn p t bytes piece.now self.old → IfOk result (λ _. HasTakenExact p t bytes self.new) }
    {
        let mut rest = piece;
        'rest: while let Some(behind) = self.take_one(rest)? {
            rest = behind;
        }
        Ok(())
    }

    /// The next piece.
    pub fn feed(&mut self, piece: &[u8]) -> Result<(), Memory>
        requires { self.old.fault ≡ None → IsCountable self.old.reader piece.now }
        ensures { (p : PlanParts) (t : TableParts) (bytes : List ℕ) → HasTakenExact p t bytes self.old → IfOk result (λ _. HasTakenExact p t (bytes ++ piece.now) self.new) }
    {
        if self.fault.is_some() {
            return Ok(());
        }
        self.take_all(piece)
    }

    /// What comes of all bytes.
    pub fn end(self) -> Result<Judged, Memory>
        requires { IsTaken self }
        ensures { (p : PlanParts) (t : TableParts) (bytes : List ℕ) → HasTakenExact p t bytes self.entry → IfOk result (JudgedBy (exact_at (sizes_of_plan p) bytes) (IsVerdictOfExact p t)) }
    {
        let Intake {
            reader,
            judging,
            fault,
        } = self;
        if let Some(fault) = fault {
            return Ok(Judged::Unread(fault));
        }
        match reader.end() {
            Err(fault) => {
                let told = unless_memory(fault)?;
                Ok(Judged::Unread(told))
            }
            Ok(()) => {
                let verdict = judging.verdict()?;
                Ok(Judged::Verdict(verdict))
            }
        }
    }
}
