//! The certificate of version 1, or of version 1 or 2, that bytes spell.

ghost use Rattle.std.specs.Prelude.{Ok, IfOk};
ghost use Rattle.cert_format.specs.Parts.{CertParts};
ghost use Rattle.cert_format.specs.Grammar.{AreSmall, SpellsOne};
ghost use Rattle.cert_format.specs.Reading.{GivesCert, reading};
ghost use Rattle.cert_format.specs.declared.cert_groups.cert.AnyCert.{AnyCert};
ghost use Rattle.cert_format.specs.CertGroups.Grammar.{IsAnyInOrder, SpellsAny};
ghost use Rattle.cert_format.specs.CertGroups.Reading.{any_at};
ghost use Rattle.certificates.specs.CertParts.Gathered.{all_with, nothing_gathered};
ghost use Rattle.certificates.specs.CertParts.Parts.{reading_parts};

use crate::cert_parts::{Beginning, Gathered, Reader, beginning_of, gather};
use cert_format::cert_groups::AnyCert;
use cert_format::{Cert, Sizes};
use sight_names::CertFault;
use std::alloc::Global;

/// The parts of the certificate of version 1 that the bytes spell.
fn parts_of(alloc: Global, sizes: Sizes, bytes: &[u8]) -> Result<Gathered, CertFault>
    ensures small { AreSmall sizes }
    ensures all { GivesCert (λ g. g) result (all_with nothing_gathered (reading_parts sizes bytes.now)) }
{
    gather(alloc, Reader::new(&sizes), bytes)
}

/// The certificate of version 1 that the bytes spell, for a map of these sizes; the first fault from left to right where
/// they spell none.
pub fn read(alloc: Global, sizes: &Sizes, bytes: &[u8]) -> Result<Cert, CertFault>
    // What is read is spelled by the bytes.
    ensures found { IfOk result (λ c. SpellsOne sizes.now bytes.now c) }
    // What the bytes spell is read, unless memory runs out.
    ensures only { (c : CertParts) → SpellsOne sizes.now bytes.now c → GivesCert (λ d. d) result (Ok c) }
    // Which fault it is.
    ensures exact { GivesCert (λ c. c) result (reading sizes.now bytes.now) }
{
    let parts = parts_of(alloc, *sizes, bytes)?;
    Ok(parts.into_core(*sizes))
}

/// What the bytes are, by their beginning.
fn any_of(alloc: Global, sizes: Sizes, bytes: &[u8]) -> Result<AnyCert, CertFault>
    ensures small { AreSmall sizes }
    ensures exact { GivesCert (λ c. c) result (any_at sizes bytes.now) }
{
    match beginning_of(alloc, &sizes, bytes)? {
        Beginning::Cut { at } => Err(CertFault::Short { at }),
        Beginning::Read {
            groups,
            reader,
            rest,
        } => {
            let parts = gather(alloc, reader, rest)?;
            Ok(parts.into_cert(alloc, sizes, groups))
        }
    }
}

/// The certificate of version 1 or 2 that the bytes spell, for a map of these sizes; the first fault from left to right
/// where they spell none.
///
/// # Errors
///
/// Those of version 1; `BadVersion` where the version is neither 1 nor 2. In a group a sector is out of range or out of
/// order at its own byte, and the group is out of order at its first byte, once its sectors were read.
pub fn read_any(alloc: Global, sizes: &Sizes, bytes: &[u8]) -> Result<AnyCert, CertFault>
    // What is read is spelled by the bytes.
    ensures found { IfOk result (λ c. SpellsAny sizes.now bytes.now c) }
    // What the bytes spell is read, unless memory runs out.
    ensures only { (c : AnyCert) → SpellsAny sizes.now bytes.now c → GivesCert (λ d. d) result (Ok c) }
    // In version 2 its ranges and orders hold.
    ensures in_order { IfOk result (λ c. IsAnyInOrder c) }
    // Which fault it is.
    ensures exact { GivesCert (λ c. c) result (any_at sizes.now bytes.now) }
{
    any_of(alloc, *sizes, bytes)
}
