//! What a build leaves, whole.

ghost use Rattle.std.specs.Prelude.{IfOk};
ghost use Rattle.certificates.specs.Grammar.{IsInOrder};
ghost use Rattle.doomsight_c.specs.Whole.{IsWholeOf};

use crate::counts::{DoomsightCounts, counts_of};
use crate::spell::print;
use map_answers::counts_of as counts_in;
use reject_bits::Table;
use sight_names::Memory;
use std::alloc::Global;
use whole_wad::Built;

/// The table of a map, and the bytes of its whole certificate.
#[derive(Drop)]
pub struct Kept {
    pub table: Table,
    pub cert: Vec<u8>,
}

/// Spells the certificate beside its table, and counts both. What it was spelled from is freed.
pub fn spell_whole(alloc: Global, built: Built) -> Result<(Kept, DoomsightCounts), Memory>
    requires in_order { IsInOrder built.cert }
    ensures whole { IfOk result (λ r. IsWholeOf built r.0.table.bytes r.0.cert.items r.1) }
{
    let cert = print(alloc, &built.cert)?;
    let counts = counts_of(
        counts_in(&built.table, built.listed.as_slice().len()),
        cert.len() as u64,
    );
    let kept = Kept {
        table: built.table,
        cert,
    };
    Ok((kept, counts))
}
