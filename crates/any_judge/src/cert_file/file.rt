//! Reading a file piece by piece, and judging what it holds.

ghost use Rattle.std.specs.Prelude.{◌≡◌, ℕ, List, [], IfErr, IfOk, Some};
ghost use Rattle.sight_names.specs.Map.{map_of};
ghost use Rattle.sight_names.specs.Sound.{LinesMeetAtEnds};
ghost use Rattle.sight_names.specs.Plan.{PlanParts};
ghost use Rattle.shelf_io.specs.Shelf.{Files, FetchCause, NoneFell, content_of};
ghost use Rattle.reject_bits.specs.Parts.{TableParts};
ghost use Rattle.any_judge.specs.Judge.{HasBeenFed, IsFed};
ghost use Rattle.any_judge.specs.CertFile.Fed.{HoldsFile, IsJudgeFresh, RefusesAs};
ghost use Rattle.any_judge.specs.CertFile.Judgement.{IsJudgement, JudgesFile};

use crate::Judge;
use cert_judge::Judged;
use reject_bits::Table;
use shelf_io::{PIECE, Shelf};
use sight_names::{FetchFault, Memory, Plan, ShelfFault};
use std::alloc::Global;

/// The most bytes that a certificate may have.
const CERT_LIMIT: u64 = 9_223_372_036_854_775_807;

/// What comes of the bytes that the judge was fed, once these are all.
fn judgement_of(plan: &Plan, judge: Judge<'_>) -> Result<Judged, Memory>
    requires audited { LinesMeetAtEnds (map_of plan.now) }
    requires fed { IsFed judge }
    ensures { (t : TableParts) (bytes : List ℕ) → HasBeenFed plan.now t bytes judge.entry → IfOk result (IsJudgement plan.now t bytes) }
{
    judge.end()
}

/// Feeds the file of that name to a judge that was fed nothing, in pieces to its end, or tells why it can't be read whole.
// by itself, since each way out of a loop would have all that its function owns to drop
fn feed_all<S: Shelf>(shelf: &mut S, name: &str, judge: &mut Judge<'_>) -> Result<(), FetchFault>
    requires fresh { IsJudgeFresh judge.old }
    ensures fed { (p : PlanParts) (t : TableParts) → HasBeenFed p t [] judge.old → IfOk result (λ _. HoldsFile p t (S.state shelf.old).files name.now judge.new) }
    ensures told { (files : Files) → (S.state shelf.old).files ≡ Some files → IfErr result (λ fault. RefusesAs fault (content_of (files name.now) 9223372036854775807)) }
    ensures files { (S.state shelf.new).files ≡ (S.state shelf.old).files }
    ensures begun { (S.state shelf.new).begun ≡ (S.state shelf.old).begun }
    ensures counts { NoneFell (S.state shelf.old) (S.state shelf.new) }
    ensures cause { FetchCause (S.state shelf.old) (S.state shelf.new) result }
{
    let mut piece = [0; PIECE];
    let mut at = 0u64;
    loop {
        let taken = match shelf.read(name, at, &mut piece) {
            Ok(taken) => taken,
            Err(ShelfFault::Absent) => return Err(FetchFault::Absent),
            Err(ShelfFault::Failed) => return Err(FetchFault::Failed),
        };
        if taken == 0 {
            return Ok(());
        }
        if taken as u64 > CERT_LIMIT - at {
            return Err(FetchFault::TooLong);
        }
        judge.feed(&piece[..taken])?;
        at += taken as u64;
    }
}

/// The verdict on the table by the certificate in the file of that name, or why its bytes spell none. Unless memory runs out, the file
/// is read to its end in pieces of at most 65,536 bytes, whatever they hold: that it is missing, can't be read or is too long is told
/// before anything of what it holds. No more of it than one piece is held. All files stay.
pub fn judge_file<S: Shelf>(
    alloc: Global,
    shelf: &mut S,
    name: &str,
    plan: &Plan,
    table: &Table,
) -> Result<Judged, FetchFault>
    requires audited { LinesMeetAtEnds (map_of plan.now) }
    requires table { table.now.n ≡ plan.now.sectors }
    ensures told { (files : Files) → (S.state shelf.old).files ≡ Some files → JudgesFile plan.now table.now result (content_of (files name.now) 9223372036854775807) }
    ensures files { (S.state shelf.new).files ≡ (S.state shelf.old).files }
    ensures begun { (S.state shelf.new).begun ≡ (S.state shelf.old).begun }
    ensures counts { NoneFell (S.state shelf.old) (S.state shelf.new) }
    ensures cause { FetchCause (S.state shelf.old) (S.state shelf.new) result }
{
    let mut judge = Judge::new(alloc, plan, table);
    feed_all(shelf, name, &mut judge)?;
    Ok(judgement_of(plan, judge)?)
}
