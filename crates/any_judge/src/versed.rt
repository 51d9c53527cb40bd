//! The bytes of a certificate whose version they tell.

ghost use Rattle.std.specs.Prelude.{◌↔◌, ℕ, ◌≤◌, ◌++◌, List, IfOk, IsTrue, length};
ghost use Rattle.sight_names.specs.Plan.{PlanParts};
ghost use Rattle.reject_bits.specs.Parts.{TableParts};
ghost use Rattle.cert_format.specs.Sizes.{sizes_of_plan};
ghost use Rattle.cert_judge.specs.Judged.{JudgedBy};
ghost use Rattle.certificates.specs.Reading.{certificate_at};
ghost use Rattle.any_judge.specs.Judged.{IsVerdictOf};
ghost use Rattle.any_judge.specs.Version.{BeginsThree};
ghost use Rattle.any_judge.specs.Versed.{HasTaken, IsFilled, MayTake};

use crate::exact_judge;
use cert_judge::Judged;
use certificates::cert_exact::fields::behind_version;
use sight_names::{CertFault, Memory};

/// Whether the bytes begin with the magic and version 3.
pub fn begins_three(bytes: &[u8]) -> bool
    ensures { IsTrue result ↔ BeginsThree bytes.now }
{
    behind_version(bytes.len(), bytes).is_ok()
}

/// What the bytes are: no certificate begins so; or they are taken as those of one that lists pairs, of version 1 or 2, or of one of
/// version 3.
#[derive(Drop)]
pub enum Versed<'a> {
    Refused(CertFault),
    Listing(cert_judge::Intake<'a>),
    Exact(exact_judge::Intake<'a>),
}

impl<'a> Versed<'a> {
    /// The next piece. What is behind a fault is not read.
    pub fn feed(&mut self, piece: &[u8]) -> Result<(), Memory>
        requires { MayTake piece.now self.old }
        ensures { (p : PlanParts) (t : TableParts) (bytes : List ℕ) → 6 ≤ length bytes → HasTaken p t bytes self.old → IfOk result (λ _. HasTaken p t (bytes ++ piece.now) self.new) }
    {
        match self {
            Versed::Refused(_) => Ok(()),
            Versed::Listing(intake) => intake.feed(piece),
            Versed::Exact(intake) => intake.feed(piece),
        }
    }

    /// What comes of all bytes.
    pub fn end(self) -> Result<Judged, Memory>
        requires { IsFilled self }
        ensures { (p : PlanParts) (t : TableParts) (bytes : List ℕ) → HasTaken p t bytes self.entry → IfOk result (JudgedBy (certificate_at (sizes_of_plan p) bytes) (IsVerdictOf p t)) }
    {
        match self {
            Versed::Refused(fault) => Ok(Judged::Unread(fault)),
            Versed::Listing(intake) => intake.end(),
            Versed::Exact(intake) => intake.end(),
        }
    }
}
