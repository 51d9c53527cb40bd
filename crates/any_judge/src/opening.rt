//! The bytes before the first part of a certificate.

ghost use Rattle.std.specs.Prelude.{◌≡◌, ◌≤◌, ℕ, List, [], ◌++◌, length, IfOk, IfSome};
ghost use Rattle.sight_names.specs.Plan.{PlanParts, IsPlan};
ghost use Rattle.reject_bits.specs.Parts.{TableParts};
ghost use Rattle.cert_format.specs.Grammar.{AreSmall};
ghost use Rattle.cert_format.specs.Sizes.{sizes_of_plan};
ghost use Rattle.any_judge.specs.Course.{IsAsked, IsAskedExact, IsAskedListing, IsOpening};

use crate::exact_judge;
use crate::versed::{Versed, begins_three};
use cert_format::Sizes;
use certificates::{cert_parts, exact_parts};
use reject_bits::Table;
use sight_names::{CertFault, Memory, Plan};
use std::alloc::Global;

/// How many bytes tell the version: those of the magic, and the two of the version.
const VERSION_END: usize = 6;

/// Sizes fit two bytes each, as their types say.
fn see_sizes(sizes: Sizes)
    ensures { AreSmall sizes }
{}

/// The sizes of the map that the certificate is to be about.
fn sizes(plan: &Plan) -> Sizes
    ensures sizes { result ≡ sizes_of_plan plan.now }
    ensures small { AreSmall result }
    ensures plan { IsPlan plan.now }
{
    let sizes = Sizes {
        sectors: plan.sectors,
        points: plan.points().len() as u16,
        lines: plan.lines().len() as u16,
    };
    see_sizes(sizes);
    sizes
}

/// The bytes so far, which are kept until they tell version and groups.
#[derive(Drop)]
pub struct Opening<'a> {
    alloc: Global,
    plan: &'a Plan,
    table: &'a Table,
    bytes: Vec<u8>,
    /// How many bytes there are at least when it is asked again what they begin with.
    ask_at: usize,
}

/// What the bytes so far begin with: they end before the first part begins, at this byte; or no certificate begins so; or they were
/// taken, and the parts are heard that end in them.
#[derive(Drop)]
pub enum Asked<'a> {
    Cut { at: u64 },
    Told(Versed<'a>),
}

/// What bytes begin with that are read as of version 1 or 2.
fn listing<'a>(
    alloc: Global,
    plan: &'a Plan,
    table: &'a Table,
    bytes: &[u8],
) -> Result<Asked<'a>, Memory>
    ensures { IfOk result (IsAskedListing plan.now table.now bytes.now) }
{
    match cert_parts::beginning_of(alloc, &sizes(plan), bytes) {
        Ok(cert_parts::Beginning::Cut { at }) => Ok(Asked::Cut { at }),
        Ok(
            cert_parts::Beginning::Read {
                groups,
                reader,
                rest,
            },
        ) => {
            let mut intake = cert_judge::Intake::new(alloc, plan, table, groups, reader);
            intake.take_all(rest)?;
            Ok(Asked::Told(Versed::Listing(intake)))
        }
        Err(CertFault::Memory(ref memory)) => Err(*memory),
        Err(fault) => Ok(Asked::Told(Versed::Refused(fault))),
    }
}

/// What bytes begin with that are read as of version 3.
fn exact<'a>(
    alloc: Global,
    plan: &'a Plan,
    table: &'a Table,
    bytes: &[u8],
) -> Result<Asked<'a>, Memory>
    ensures { IfOk result (IsAskedExact plan.now table.now bytes.now) }
{
    match exact_parts::beginning_of(alloc, &sizes(plan), bytes) {
        Ok(exact_parts::Beginning::Cut { at }) => Ok(Asked::Cut { at }),
        Ok(
            exact_parts::Beginning::Read {
                groups,
                reader,
                rest,
            },
        ) => {
            let mut intake = exact_judge::Intake::new(alloc, plan, table, groups, reader);
            intake.take_all(rest)?;
            Ok(Asked::Told(Versed::Exact(intake)))
        }
        Err(CertFault::Memory(ref memory)) => Err(*memory),
        Err(fault) => Ok(Asked::Told(Versed::Refused(fault))),
    }
}

impl<'a> Opening<'a> {
    /// No byte so far. Takes no memory.
    pub fn new(alloc: Global, plan: &'a Plan, table: &'a Table) -> Opening<'a>
        ensures opening { IsOpening plan.now table.now [] result }
        ensures plan { IsPlan plan.now }
    {
        let _ = plan.points();
        Opening {
            alloc,
            plan,
            table,
            bytes: Vec::new(alloc),
            ask_at: 0,
        }
    }

    /// What all bytes so far begin with.
    pub fn asked(&self) -> Result<Asked<'a>, Memory>
        ensures { (p : PlanParts) (t : TableParts) (bytes : List ℕ) → IsOpening p t bytes self.now → IfOk result (IsAsked p t bytes) }
    {
        let bytes = self.bytes.as_slice();
        if begins_three(bytes) {
            exact(self.alloc, self.plan, self.table, bytes)
        } else {
            listing(self.alloc, self.plan, self.table, bytes)
        }
    }

    /// The next piece. It is asked what the bytes begin with where they tell the version and are twice as many as when it was
    /// asked last: None where they don't tell yet.
    pub fn feed(&mut self, piece: &[u8]) -> Result<Option<Asked<'a>>, Memory>
        ensures asked { (p : PlanParts) (t : TableParts) (bytes : List ℕ) → IsOpening p t bytes self.old → IfOk result (λ o. IfSome o (IsAsked p t (bytes ++ piece.now))) }
        ensures enough { (p : PlanParts) (t : TableParts) (bytes : List ℕ) → IsOpening p t bytes self.old → IfOk result (λ o. IfSome o (λ _. 6 ≤ length (bytes ++ piece.now))) }
        ensures opening { (p : PlanParts) (t : TableParts) (bytes : List ℕ) → IsOpening p t bytes self.old → IfOk result (λ _. IsOpening p t (bytes ++ piece.now) self.new) }
    {
        self.bytes.extend_from_slice(piece)?;
        let count = self.bytes.len();
        if count < VERSION_END || count < self.ask_at {
            return Ok(None);
        }
        self.ask_at = count.saturating_mul(2);
        let asked = self.asked()?;
        Ok(Some(asked))
    }
}
