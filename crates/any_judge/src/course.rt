//! The bytes of a certificate of any version, read and judged as they come.

ghost use Rattle.std.specs.Prelude.{ℕ, List, [], ◌++◌, IfOk};
ghost use Rattle.sight_names.specs.Plan.{PlanParts, IsPlan};
ghost use Rattle.reject_bits.specs.Parts.{TableParts};
ghost use Rattle.cert_format.specs.Sizes.{sizes_of_plan};
ghost use Rattle.cert_judge.specs.Judged.{JudgedBy};
ghost use Rattle.certificates.specs.Reading.{certificate_at};
ghost use Rattle.any_judge.specs.Judged.{IsVerdictOf};
ghost use Rattle.any_judge.specs.Course.{HasCourse, IsOnCourse, MayGoOn};

use crate::opening::{Asked, Opening};
use crate::versed::Versed;
use cert_judge::Judged;
use reject_bits::Table;
use sight_names::{CertFault, Memory, Plan};
use std::alloc::Global;

/// How far the bytes are read: they don't tell version and groups yet; or they do.
#[derive(Drop)]
pub enum Course<'a> {
    Opening(Opening<'a>),
    Told(Versed<'a>),
}

impl<'a> Course<'a> {
    /// No byte so far.
    pub fn new(alloc: Global, plan: &'a Plan, table: &'a Table) -> Course<'a>
        ensures course { IsOnCourse plan.now table.now [] result }
        ensures plan { IsPlan plan.now }
    {
        Course::Opening(Opening::new(alloc, plan, table))
    }

    /// The next piece.
    pub fn feed(&mut self, piece: &[u8]) -> Result<(), Memory>
        requires { MayGoOn piece.now self.old }
        ensures { (p : PlanParts) (t : TableParts) (bytes : List ℕ) → IsOnCourse p t bytes self.old → IfOk result (λ _. IsOnCourse p t (bytes ++ piece.now) self.new) }
    {
        match self {
            Course::Opening(opening) => match opening.feed(piece)? {
                Some(Asked::Told(versed)) => {
                    *self = Course::Told(versed);
                    Ok(())
                }
                Some(Asked::Cut { .. }) | None => Ok(()),
            },
            Course::Told(versed) => versed.feed(piece),
        }
    }

    /// What comes of all bytes. Too few to tell the version are judged as those of version 1 or 2 are.
    pub fn end(self) -> Result<Judged, Memory>
        requires { HasCourse self }
        ensures { (p : PlanParts) (t : TableParts) (bytes : List ℕ) → IsOnCourse p t bytes self.entry → IfOk result (JudgedBy (certificate_at (sizes_of_plan p) bytes) (IsVerdictOf p t)) }
    {
        match self {
            Course::Told(versed) => versed.end(),
            Course::Opening(opening) => match opening.asked()? {
                Asked::Cut { at } => Ok(Judged::Unread(CertFault::Short { at })),
                Asked::Told(versed) => versed.end(),
            },
        }
    }
}
