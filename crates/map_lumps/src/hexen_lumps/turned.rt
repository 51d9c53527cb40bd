//! LINEDEFS turned from Doom's format to Hexen's.

ghost use Rattle.std.specs.Prelude.{◌≡◌, ◌%◌, ◌++◌, length, IfOk, OnOk};
ghost use Rattle.map_lumps.specs.HexenLumps.Turned.{hexen_of, hexen_record};

use sight_names::Memory;
use std::alloc::{AllocError, Global};

/// Bytes of a LINEDEFS record of Doom's format.
const DOOM_LEN: usize = 14;

/// Adds a record, turned.
fn push_record(out: &mut Vec<u8>, doom: &[u8]) -> Result<(), AllocError>
    requires { length doom.now ≡ 14 }
    ensures { OnOk result (out.new.items ≡ out.old.items ++ hexen_record doom.now) }
{
    // the vertices and the flags
    out.extend_from_slice(&doom[..6])?;
    // the special and the arguments
    out.extend_from_slice(&[0; 6])?;
    // the sides
    out.extend_from_slice(&doom[10..])
}

/// The records of LINEDEFS in Hexen's format: each keeps its vertices, flags and sides, and has a special and arguments
/// of 0.
#[tactic(auto, unfolding(crate::specs::HexenLumps::Turned::hexen_of))]
pub fn to_hexen(alloc: Global, linedefs: &[u8]) -> Result<Vec<u8>, Memory>
    requires whole { length linedefs.now % 14 ≡ 0 }
    ensures records { IfOk result (λ v. v.items ≡ hexen_of linedefs.now) }
{
    let mut out = Vec::new(alloc);
    for k in 0..linedefs.len() / DOOM_LEN {
        push_record(&mut out, &linedefs[DOOM_LEN * k..DOOM_LEN * k + DOOM_LEN])?;
    }
    Ok(out)
}
