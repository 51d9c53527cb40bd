//! What is told of pairs of lines that clash.

ghost use Rattle.std.specs.Prelude.{◌≡◌, All, IfOk};
ghost use Rattle.sight_names.specs.Map.{map_of};
ghost use Rattle.map_faults.specs.Clashes.{IsClash};
ghost use Rattle.fault_report.specs.Clashes.{AreToldClashes, IsToldClash};

use map_faults::{LinePair, fault_of, meeting_of};
use sight_names::{LineFault, Memory, Plan, Pt};
use std::alloc::Global;

/// A pair of lines that share more than an end of both: what they share, and where they meet, rounded down to whole units;
/// nowhere where they are parallel.
#[derive(Clone, Copy)]
pub struct Clash {
    pub pair: LinePair,
    pub fault: LineFault,
    pub at: Option<Pt>,
}

/// What is told of a pair that clashes.
fn told_of(plan: &Plan, pair: LinePair) -> Clash
    requires { IsClash (map_of plan.now) pair }
    ensures pair { result.pair ≡ pair }
    ensures told { IsToldClash (map_of plan.now) result }
{
    let at = meeting_of(plan, pair.i, pair.j);
    match fault_of(plan, pair.i, pair.j) {
        Some(fault) => Clash { pair, fault, at },
        None => unreachable!(),
    }
}

/// What is told of pairs that clash.
pub fn told_clashes(alloc: Global, plan: &Plan, pairs: &[LinePair]) -> Result<Vec<Clash>, Memory>
    requires { All (IsClash (map_of plan.now)) pairs.now }
    ensures { IfOk result (λ v. AreToldClashes (map_of plan.now) pairs.now v.items) }
{
    let mut told = Vec::new(alloc);
    for pair in pairs {
        told.push(told_of(plan, *pair))?;
    }
    Ok(told)
}
