//! The beginning of a certificate of version 1 or 2: what comes before its parts.

ghost use Rattle.std.specs.Prelude.{◌≡◌, List, ℕ, ◌++◌, length, Ok, IfOk, IfErr};
ghost use Rattle.cert_format.specs.Reading.{FailsCert};
ghost use Rattle.cert_format.specs.CertGroups.Reading.{version_at};
ghost use Rattle.certificates.specs.CertParts.Parts.{reading_any_parts};
ghost use Rattle.certificates.specs.CertParts.Beginning.{BeginsAs, cut_at};

use crate::cert_parts::reader::Reader;
use cert_format::Sizes;
use cert_format::cert_groups::{Group, front_two_of, version_of};
use sight_names::{CertFault, Items};
use std::alloc::Global;

/// What some bytes begin with.
#[derive(Drop)]
pub enum Beginning<'a> {
    /// They end before the first part begins, at this byte; with more of them it may be another fault, or none.
    Cut {
        at: u64,
    },
    /// The groups of version 2, and a reader of the parts, which is still to be given the rest of the bytes.
    Read {
        groups: Option<Items<Group>>,
        reader: Reader,
        rest: &'a [u8],
    },
}

/// Where the bytes are cut, if that is the fault.
fn cut_at(fault: CertFault) -> Result<u64, CertFault>
    ensures { result ≡ cut_at fault }
{
    match fault {
        CertFault::Short { at } => Ok(at),
        other => Err(other),
    }
}

/// What bytes of version 2 begin with; these are behind the version.
fn behind_version<'a>(
    alloc: Global,
    sizes: &Sizes,
    bytes: &'a [u8],
    behind: &'a [u8],
) -> Result<Beginning<'a>, CertFault>
    requires { version_at (length bytes.now) bytes.now ≡ Ok (2, behind.now) }
    ensures begins { IfOk result (λ b. BeginsAs sizes.now bytes.now b) }
    ensures fault { IfErr result (λ f. (more : List ℕ) → FailsCert f (reading_any_parts sizes.now (bytes.now ++ more))) }
{
    let total = bytes.len();
    match front_two_of(alloc, *sizes, total, behind) {
        Ok((front, rest)) => {
            let given = total - rest.len();
            let reader = Reader::behind_groups(sizes, &front, given);
            Ok(Beginning::Read {
                groups: Some(front.groups),
                reader,
                rest,
            })
        }
        Err(fault) => {
            let at = cut_at(fault)?;
            Ok(Beginning::Cut { at })
        }
    }
}

/// What these bytes, the first of a certificate for a map of these sizes, begin with. Takes memory for the groups alone.
pub fn beginning_of<'a>(
    alloc: Global,
    sizes: &Sizes,
    bytes: &'a [u8],
) -> Result<Beginning<'a>, CertFault>
    ensures begins { IfOk result (λ b. BeginsAs sizes.now bytes.now b) }
    // The fault is told whatever bytes come behind, unless memory ran out.
    ensures fault { IfErr result (λ f. (more : List ℕ) → FailsCert f (reading_any_parts sizes.now (bytes.now ++ more))) }
{
    match version_of(bytes.len(), bytes) {
        Ok((version, behind)) => {
            if version == 2 {
                return behind_version(alloc, sizes, bytes, behind);
            }
            Ok(Beginning::Read {
                groups: None,
                reader: Reader::new(sizes),
                rest: bytes,
            })
        }
        Err(fault) => {
            let at = cut_at(fault)?;
            Ok(Beginning::Cut { at })
        }
    }
}
