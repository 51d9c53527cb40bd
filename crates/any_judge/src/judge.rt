//! A certificate of any version judged while its bytes come in pieces.

ghost use Rattle.std.specs.Prelude.{ℕ, ◌++◌, ◌↔◌, List, [], IsErr, IfOk, OnOk, OnErr};
ghost use Rattle.sight_names.specs.Map.{map_of};
ghost use Rattle.sight_names.specs.Plan.{PlanParts};
ghost use Rattle.sight_names.specs.Sound.{LinesMeetAtEnds};
ghost use Rattle.reject_bits.specs.Parts.{TableParts};
ghost use Rattle.cert_format.specs.Sizes.{sizes_of_plan};
ghost use Rattle.certificates.specs.Reading.{certificate_at};
ghost use Rattle.any_judge.specs.Accepted.{IsAccepted, TellsSight};
ghost use Rattle.any_judge.specs.Judged.{Judges};
ghost use Rattle.group_checker.specs.Judged.{IsYesAny};
ghost use Rattle.cert_judge.specs.Judged.{JudgedBy};
ghost use Rattle.any_judge.specs.Judge.{HasBeenFed, MayBeFed, IsFed, IsSpent};

use crate::course::Course;
use cert_judge::Judged;
use reject_bits::Table;
use sight_names::{Memory, Plan};
use std::alloc::Global;

/// Judges a table by a certificate of any version that it is fed in pieces, however they are cut. It keeps neither the
/// trees of the certificate nor its bytes, but those before the first part until they all have come.
#[derive(Drop)]
pub struct Judge<'a> {
    course: Course<'a>,
    /// The refusal, where a piece found no memory.
    spent: Option<Memory>,
}

impl<'a> Judge<'a> {
    /// Nothing was fed so far. Takes no memory.
    pub fn new(alloc: Global, plan: &'a Plan, table: &'a Table) -> Judge<'a>
        ensures fed { HasBeenFed plan.now table.now [] result }
        ensures unspent { ¬ IsSpent result }
    {
        Judge {
            course: Course::new(alloc, plan, table),
            spent: None,
        }
    }

    /// The next piece. All pieces together have at most 2^63 - 1 bytes. After an Err the judge is spent: each later call
    /// answers Memory. What is behind a fault is not read.
    pub fn feed(&mut self, piece: &[u8]) -> Result<(), Memory>
        requires { MayBeFed piece.now self.old }
        ensures fed { (p : PlanParts) (t : TableParts) (bytes : List ℕ) → HasBeenFed p t bytes self.old → HasBeenFed p t (bytes ++ piece.now) self.new }
        ensures spent { OnErr result (IsSpent self.new) }
        ensures unspent { OnOk result (¬ IsSpent self.new) }
        ensures stays { IsSpent self.old → IsErr result × IsSpent self.new }
    {
        if let Some(memory) = self.spent {
            return Err(memory);
        }
        match self.course.feed(piece) {
            Ok(()) => Ok(()),
            Err(memory) => {
                self.spent = Some(memory);
                Err(memory)
            }
        }
    }

    /// What comes of all the pieces, one behind the other: the fault where they spell no certificate of the plan's map,
    /// and else the verdict that `check` gives of the certificate.
    pub fn end(self) -> Result<Judged, Memory>
        requires { IsFed self }
        ensures spent { IsSpent self.entry → IsErr result }
        ensures exact { (p : PlanParts) (t : TableParts) (bytes : List ℕ) → HasBeenFed p t bytes self.entry → IfOk result (JudgedBy (certificate_at (sizes_of_plan p) bytes) (Judges p t)) }
        ensures accepted { (p : PlanParts) (t : TableParts) (bytes : List ℕ) → HasBeenFed p t bytes self.entry → IfOk result (JudgedBy (certificate_at (sizes_of_plan p) bytes) (λ c v. IsYesAny v ↔ IsAccepted (map_of p) t.bytes c)) }
        ensures sight { (p : PlanParts) (t : TableParts) (bytes : List ℕ) → HasBeenFed p t bytes self.entry → LinesMeetAtEnds (map_of p) → IfOk result (JudgedBy (certificate_at (sizes_of_plan p) bytes) (λ c v. IsYesAny v → TellsSight (map_of p) t c)) }
    {
        if let Some(memory) = self.spent {
            return Err(memory);
        }
        self.course.end()
    }
}
