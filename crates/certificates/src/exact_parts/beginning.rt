//! The beginning of a certificate of version 3: what comes before its parts.

ghost use Rattle.std.specs.Prelude.{◌≡◌, List, ℕ, ◌++◌, IfOk, IfErr};
ghost use Rattle.cert_format.specs.Reading.{FailsCert};
ghost use Rattle.certificates.specs.CertParts.Beginning.{cut_at};
ghost use Rattle.certificates.specs.ExactParts.Parts.{reading_three_parts};
ghost use Rattle.certificates.specs.ExactParts.Beginning.{BeginsAs};

use crate::exact_parts::front::front_of;
use crate::exact_parts::reader::Reader;
use cert_format::Sizes;
use cert_format::cert_groups::Group;
use sight_names::{CertFault, Items};
use std::alloc::Global;

/// What some bytes begin with.
#[derive(Drop)]
pub enum Beginning<'a> {
    /// They end before the first part begins, at this byte; with more of them it may be another fault, or none.
    Cut {
        at: u64,
    },
    /// The groups, and a reader of the parts, which is still to be given the rest of the bytes.
    Read {
        groups: Items<Group>,
        reader: Reader,
        rest: &'a [u8],
    },
}

/// Where the bytes are cut, if that is the fault.
fn cut_at(fault: CertFault) -> Result<u64, CertFault>
    ensures { result ≡ cut_at fault }
{
    match fault {
        CertFault::Short { at } => Ok(at),
        other => Err(other),
    }
}

/// What these bytes, the first of a certificate for a map of these sizes, begin with.
pub fn beginning_of<'a>(
    alloc: Global,
    sizes: &Sizes,
    bytes: &'a [u8],
) -> Result<Beginning<'a>, CertFault>
    ensures begins { IfOk result (λ b. BeginsAs sizes.now bytes.now b) }
    // The fault is told whatever bytes come behind, unless memory ran out.
    ensures fault { IfErr result (λ f. (more : List ℕ) → FailsCert f (reading_three_parts sizes.now (bytes.now ++ more))) }
{
    let total = bytes.len();
    match front_of(alloc, *sizes, total, bytes) {
        Ok((front, rest)) => {
            let given = total - rest.len();
            let reader = Reader::behind_groups(alloc, &front, given);
            Ok(Beginning::Read {
                groups: front.groups,
                reader,
                rest,
            })
        }
        Err(fault) => {
            let at = cut_at(fault)?;
            Ok(Beginning::Cut { at })
        }
    }
}
