//! What the checker answers for a certificate of any version.

ghost use Rattle.std.specs.Prelude.{◌≡◌};
ghost use Rattle.group_checker.specs.Judged.{any_of as either};

use cert_checker::{Totals, Verdict};
use sight_names::CheckFault;

/// Why a certificate isn't accepted. In the faults of version 2 sectors of rays and trees are groups.
#[derive(Clone, Copy, Debug)]
pub enum AnyFault {
    Check(CheckFault),
    /// What the table of groups has for this triangle isn't the list of the sectors that sides of its face name.
    Group { triangle: u16 },
    /// No triangle has this group.
    Unused { group: u16 },
}

/// The table is accepted, or the first fault in order.
#[derive(Clone, Copy, Debug)]
pub enum AnyVerdict {
    Yes(Totals),
    No(AnyFault),
}

/// The verdict of version 1 in the words of any version.
pub fn any_of(verdict: Verdict) -> AnyVerdict
    ensures { result ≡ either verdict }
{
    match verdict {
        Verdict::Yes(totals) => AnyVerdict::Yes(totals),
        Verdict::No(fault) => AnyVerdict::No(AnyFault::Check(fault)),
    }
}
