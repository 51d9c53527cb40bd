//! Each pair of sectors judged by which groups are joined.

ghost use Rattle.std.specs.Prelude.{◌≡◌, [], length};
ghost use Rattle.gate_floods.specs.GateMasks.Masks.{IsInRowOf};
ghost use Rattle.cert_checker.specs.BlindRows.{HasNoGroup};
ghost use Rattle.cert_checker.specs.Pairs.{Describes};
ghost use Rattle.exact_checker.specs.Pairs.{known_of, IsFaultAt, IsFine};

use crate::joining::is_in;
use cert_checker::pairs::{Joins, PairFacts, PairRules, are_sectors_joined, has_no_group};
use face_groups::Group;
use gate_floods::gate_masks::Row;
use reject_bits::Table;
use sight_names::CheckFault;

/// The table, the groups of each sector, and for each group the row of those that are joined with it.
#[derive(Clone, Copy)]
pub struct Known<'a> {
    pub table: &'a Table,
    pub members: &'a [Group],
    pub joined: &'a [Row],
}

impl<'a> Joins for Known<'a> {
    ghost can_tell = { λ k f. Unit {0} };

    ghost joins = { λ k. IsInRowOf k.joined.now };

    fn are_joined(&self, one: u16, other: u16) -> bool {
        is_in(self.joined, one, other)
    }
}

/// A set bit is of two sectors that aren't joined, a clear one of two that are. No pair is listed.
impl<'a> PairRules for Known<'a> {
    ghost can_judge = { λ k a b given. (length k.members.now ≡ k.table.now.n) × Describes k.table.now [] a b given };

    ghost is_fine = { λ k. IsFine (known_of k) };

    ghost is_broken = { λ k. IsFaultAt (known_of k) };

    ghost is_blind = { λ k. HasNoGroup k.members.now };

    fn fault_of(&self, a: u16, b: u16, given: PairFacts) -> Option<CheckFault> {
        if are_sectors_joined(self, self.members, a, b) {
            if given.set {
                return Some(CheckFault::Unproved { a, b });
            }
        } else if given.clear {
            return Some(CheckFault::Uncovered { a, b });
        }
        None
    }

    fn sees_none(&self, a: u16) -> bool {
        has_no_group(self.members, a)
    }
}
