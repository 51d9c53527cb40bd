//! The lines of the faults of one kind.

ghost use Rattle.std.specs.Prelude.{◌≡◌, ◌++◌, OnOk, string_bytes, take};
ghost use Rattle.std.specs.List.{flat_map};
ghost use Rattle.fault_report.specs.Rows.{kind_text, rest_row};

use crate::clashes::Clash;
use crate::slips::{Nameless, Sideless};
use crate::{lines, objects, words};
use map_faults::{Gap, LooseEnd, Tear};
use row_spelling::Spelling;
use sight_names::{Plan, Side};
use std::alloc::{AllocError, Global};

/// How many faults of a kind have a line; the others are counted alone.
pub const MOST_LINES: usize = 1_000;

/// A fault of a map, which the report has a line of.
pub trait Fault {
    ghost use Rattle.std.specs.Prelude.{ℕ, List};
    ghost use Rattle.row_spelling.specs.declared.Spelling.{Spelling as TheSpelling};
    ghost use Rattle.sight_names.specs.Plan.{PlanParts};

    /// The line.
    ghost line: { TheSpelling → PlanParts → Self → List ℕ };

    /// Adds the line.
    fn push_line(
        &self,
        alloc: Global,
        plan: &Plan,
        spelling: Spelling,
        text: &mut String,
    ) -> Result<(), AllocError>
        ensures { OnOk result (string_bytes text.new ≡ string_bytes text.old ++ line spelling plan.now self.now) };
}

/// Adds the lines of these faults.
pub fn push_each<F: Fault>(
    alloc: Global,
    plan: &Plan,
    spelling: Spelling,
    text: &mut String,
    faults: &[F],
) -> Result<(), AllocError>
    ensures { OnOk result (string_bytes text.new ≡ string_bytes text.old ++ flat_map (F.line spelling plan.now) faults.now) }
{
    for fault in faults {
        fault.push_line(alloc, plan, spelling, text)?;
    }
    Ok(())
}

/// The first of these, as many as have a line.
fn first_of<F: Fault>(faults: &[F]) -> &[F]
    ensures { result.now ≡ take MOST_LINES faults.now }
{
    if faults.len() <= MOST_LINES {
        return faults;
    }
    faults.split_at(MOST_LINES).0
}

/// Adds how many more there are, where there are more.
pub fn push_rest(
    alloc: Global,
    spelling: Spelling,
    text: &mut String,
    n: u64,
    more: &str,
) -> Result<(), AllocError>
    ensures { OnOk result (string_bytes text.new ≡ string_bytes text.old ++ rest_row spelling n more.now) }
{
    match spelling {
        Spelling::Text => words::push_rest(alloc, text, n, more),
        Spelling::Json => objects::push_rest(alloc, text, n, more),
    }
}

/// Adds the lines of the first of these, and how many more there are.
pub fn push_kind<F: Fault>(
    alloc: Global,
    plan: &Plan,
    spelling: Spelling,
    text: &mut String,
    faults: &[F],
    more: &str,
) -> Result<(), AllocError>
    ensures { OnOk result (string_bytes text.new ≡ string_bytes text.old ++ kind_text spelling (F.line spelling plan.now) more.now faults.now) }
{
    push_each(alloc, plan, spelling, text, first_of(faults))?;
    push_rest(
        alloc,
        spelling,
        text,
        (faults.len() as u64).saturating_sub(MOST_LINES as u64),
        more,
    )
}

impl Fault for Clash {
    ghost use Rattle.fault_report.specs.Rows.{clash_row};

    ghost line = { clash_row };

    fn push_line(
        &self,
        alloc: Global,
        plan: &Plan,
        spelling: Spelling,
        text: &mut String,
    ) -> Result<(), AllocError> {
        match spelling {
            Spelling::Text => lines::push_clash(alloc, plan, text, self),
            Spelling::Json => objects::push_clash(alloc, plan, text, self),
        }
    }
}

/// An open side.
impl Fault for Side {
    ghost use Rattle.fault_report.specs.Rows.{open_row};

    ghost line = { open_row };

    fn push_line(
        &self,
        alloc: Global,
        plan: &Plan,
        spelling: Spelling,
        text: &mut String,
    ) -> Result<(), AllocError> {
        match spelling {
            Spelling::Text => lines::push_open(alloc, plan, text, *self),
            Spelling::Json => objects::push_open(alloc, plan, text, *self),
        }
    }
}

impl Fault for Tear {
    ghost use Rattle.fault_report.specs.Rows.{tear_row};

    ghost line = { tear_row };

    fn push_line(
        &self,
        alloc: Global,
        plan: &Plan,
        spelling: Spelling,
        text: &mut String,
    ) -> Result<(), AllocError> {
        match spelling {
            Spelling::Text => lines::push_tear(alloc, plan, text, self),
            Spelling::Json => objects::push_tear(alloc, plan, text, self),
        }
    }
}

impl Fault for Gap {
    ghost use Rattle.fault_report.specs.Rows.{gap_row};

    ghost line = { gap_row };

    fn push_line(
        &self,
        alloc: Global,
        plan: &Plan,
        spelling: Spelling,
        text: &mut String,
    ) -> Result<(), AllocError> {
        match spelling {
            Spelling::Text => lines::push_gap(alloc, plan, text, self),
            Spelling::Json => objects::push_gap(alloc, plan, text, self),
        }
    }
}

impl Fault for LooseEnd {
    ghost use Rattle.fault_report.specs.Rows.{loose_row};

    ghost line = { loose_row };

    fn push_line(
        &self,
        alloc: Global,
        plan: &Plan,
        spelling: Spelling,
        text: &mut String,
    ) -> Result<(), AllocError> {
        match spelling {
            Spelling::Text => lines::push_loose(alloc, plan, text, self),
            Spelling::Json => objects::push_loose(alloc, plan, text, self),
        }
    }
}

impl Fault for Sideless {
    ghost use Rattle.fault_report.specs.Rows.{sideless_row};

    ghost line = { sideless_row };

    fn push_line(
        &self,
        alloc: Global,
        plan: &Plan,
        spelling: Spelling,
        text: &mut String,
    ) -> Result<(), AllocError> {
        match spelling {
            Spelling::Text => lines::push_sideless(alloc, plan, text, self),
            Spelling::Json => objects::push_sideless(alloc, plan, text, self),
        }
    }
}

impl Fault for Nameless {
    ghost use Rattle.fault_report.specs.Rows.{nameless_row};

    ghost line = { nameless_row };

    fn push_line(
        &self,
        alloc: Global,
        plan: &Plan,
        spelling: Spelling,
        text: &mut String,
    ) -> Result<(), AllocError> {
        match spelling {
            Spelling::Text => lines::push_nameless(alloc, plan, text, self),
            Spelling::Json => objects::push_nameless(alloc, plan, text, self),
        }
    }
}
