//! The functions by which C keeps a build: it is made once, copied in pieces of any size, and freed.

ghost use Rattle.std.specs.Prelude.{◌≡◌, ◌≢◌, IfErr, IfOk, None, OnOk, length, pos};
ghost use Rattle.doomsight_c.specs.Lumps.{of_lumps_given};
ghost use Rattle.doomsight_c.specs.Asked.{call_fault as call_wrong, method_of as method_meant, reading_of as reading_meant};
ghost use Rattle.doomsight_c.specs.Faults.{no_fault};
ghost use Rattle.doomsight_c.specs.Keeping.{IsKept, IsNotKept, kept_cert, table_of};
ghost use Rattle.doomsight_c.specs.Piece.{CopiesFrom};

use crate::asked::{call_fault, method_of, reading_of};
use crate::counts::DoomsightCounts;
use crate::fault::{DoomsightFault, two};
use crate::handle::DoomsightKept;
use crate::keep::keep_lumps;
use crate::piece::copy_piece;
use std::alloc::Global;

/// The kept build with its answer as a result.
fn try_keep(
    alloc: Global,
    linedefs: &[u8],
    sidedefs: &[u8],
    vertexes: &[u8],
    sectors: &[u8],
    format: u32,
    flags: u32,
    budget: u64,
) -> Result<(DoomsightKept, DoomsightCounts), DoomsightFault>
    ensures asked { OnOk result (call_wrong format flags budget ≡ None) }
    ensures kept { IfOk result (λ r. IsKept (of_lumps_given (reading_meant format flags) linedefs.now sidedefs.now vertexes.now sectors.now) (method_meant budget) r.0.value r.1) }
    ensures refused { IfErr result (IsNotKept (call_wrong format flags budget) (of_lumps_given (reading_meant format flags) linedefs.now sidedefs.now vertexes.now sectors.now)) }
    ensures code { IfErr result (λ f. f.code ≢ 0) }
{
    if let Some(wrong) = call_fault(format, flags, budget) {
        return Err(wrong);
    }
    keep_lumps(
        alloc,
        reading_of(format, flags),
        linedefs,
        sidedefs,
        vertexes,
        sectors,
        method_of(budget),
    )
}

/// Builds the table of the map that the lumps spell, and keeps it with its whole certificate behind the handle. What the handle
/// kept before is freed. The answer is 0, or the code of why there is no table; then nothing but the fault is written.
#[unsafe(no_mangle)]
pub extern "C" fn doomsight_keep_buffers(
    alloc: Global,
    linedefs: &[u8],
    sidedefs: &[u8],
    vertexes: &[u8],
    sectors: &[u8],
    format: u32,
    flags: u32,
    budget: u64,
    kept: &mut DoomsightKept,
    counts: &mut DoomsightCounts,
    fault: &mut DoomsightFault,
) -> i32
    ensures asked { result ≡ pos 0 → call_wrong format flags budget ≡ None }
    ensures kept { result ≡ pos 0 → IsKept (of_lumps_given (reading_meant format flags) linedefs.now sidedefs.now vertexes.now sectors.now) (method_meant budget) kept.new.value counts.new }
    ensures refused { result ≢ pos 0 → IsNotKept (call_wrong format flags budget) (of_lumps_given (reading_meant format flags) linedefs.now sidedefs.now vertexes.now sectors.now) fault.new }
    ensures done { result ≡ pos 0 → fault.new ≡ no_fault }
    ensures code { result ≢ pos 0 → result ≡ pos fault.new.code }
    ensures same { result ≢ pos 0 → (kept.new.value ≡ kept.old.value) × (counts.new ≡ counts.old) }
{
    match try_keep(
        alloc, linedefs, sidedefs, vertexes, sectors, format, flags, budget,
    ) {
        Ok((held, found)) => {
            *kept = held;
            *counts = found;
            *fault = two(0, 0, 0, 0);
            0
        }
        Err(why) => {
            *fault = why;
            i32::from(why.code)
        }
    }
}

/// How many bytes the kept table has; 0 where nothing is kept.
#[unsafe(no_mangle)]
pub extern "C" fn doomsight_kept_table_size(alloc: Global, kept: &mut DoomsightKept) -> usize
    ensures size { result ≡ length (table_of kept.old.value) }
    ensures same { kept.new.value ≡ kept.old.value }
{
    match std::mem::replace(kept, DoomsightKept::empty(alloc)).into_box() {
        Some(held) => {
            let size = held.table.as_bytes().len();
            *kept = DoomsightKept::of(held);
            size
        }
        None => 0,
    }
}

/// How many bytes the kept certificate has; 0 where nothing is kept.
#[unsafe(no_mangle)]
pub extern "C" fn doomsight_kept_cert_size(alloc: Global, kept: &mut DoomsightKept) -> usize
    ensures size { result ≡ length (kept_cert kept.old.value) }
    ensures same { kept.new.value ≡ kept.old.value }
{
    match std::mem::replace(kept, DoomsightKept::empty(alloc)).into_box() {
        Some(held) => {
            let size = held.cert.len();
            *kept = DoomsightKept::of(held);
            size
        }
        None => 0,
    }
}

/// Copies the bytes of the kept table from the offset on into the buffer, as far as both go. The answer is how many.
#[unsafe(no_mangle)]
pub extern "C" fn doomsight_kept_table_buffer(
    alloc: Global,
    kept: &mut DoomsightKept,
    offset: usize,
    buf: &mut [u8],
) -> usize
    ensures piece { CopiesFrom (table_of kept.old.value) offset buf.old buf.new result }
    ensures same { kept.new.value ≡ kept.old.value }
{
    match std::mem::replace(kept, DoomsightKept::empty(alloc)).into_box() {
        Some(held) => {
            let count = copy_piece(held.table.as_bytes(), offset, buf);
            *kept = DoomsightKept::of(held);
            count
        }
        None => 0,
    }
}

/// Copies the bytes of the kept certificate from the offset on into the buffer, as far as both go. The answer is how many.
#[unsafe(no_mangle)]
pub extern "C" fn doomsight_kept_cert_buffer(
    alloc: Global,
    kept: &mut DoomsightKept,
    offset: usize,
    buf: &mut [u8],
) -> usize
    ensures piece { CopiesFrom (kept_cert kept.old.value) offset buf.old buf.new result }
    ensures same { kept.new.value ≡ kept.old.value }
{
    match std::mem::replace(kept, DoomsightKept::empty(alloc)).into_box() {
        Some(held) => {
            let count = copy_piece(held.cert.as_slice(), offset, buf);
            *kept = DoomsightKept::of(held);
            count
        }
        None => 0,
    }
}

/// Frees what the handle keeps, and leaves it empty. An empty one stays as it is.
#[unsafe(no_mangle)]
pub extern "C" fn doomsight_free(alloc: Global, kept: &mut DoomsightKept)
    ensures { kept.new.value ≡ None }
{
    *kept = DoomsightKept::empty(alloc);
}
