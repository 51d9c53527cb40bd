//! The functions that C calls. `doomsight.h` declares them, and wraps each of those that take lumps.

ghost use Rattle.std.specs.Prelude.{◌≡◌, ◌≢◌, IfErr, IfOk, None, OnErr, OnOk, length, pos};
ghost use Rattle.certificates.specs.Grammar.{IsInOrder};
ghost use Rattle.doomsight_c.specs.Lumps.{of_lumps_given};
ghost use Rattle.map_answers.specs.SightStatus.Texts.{text_of};
ghost use Rattle.doomsight_c.specs.Asked.{call_fault as call_wrong, method_of as method_meant, reading_fault as reading_wrong, reading_of as reading_meant};
ghost use Rattle.doomsight_c.specs.Built.{IsGiven, IsNotBuilt, IsPutInBuffers, table_size};
ghost use Rattle.doomsight_c.specs.Checked.{IsNotProved, IsYes};
ghost use Rattle.doomsight_c.specs.Faults.{no_fault};
ghost use Rattle.doomsight_c.specs.Lines.{PutsText, TellsText, status_in};

use crate::asked::{call_fault, method_of, reading_fault, reading_of};
use crate::build::build_lumps;
use crate::check::check_lumps;
use crate::counts::{DoomsightCounts, counts_of};
use crate::fault::{DoomsightFault, two};
use crate::line::status_of;
use crate::spell::spell;
use map_answers::counts_of as counts_in;
use map_answers::sight_status::line_of;
use std::alloc::Global;
use whole_wad::Built;

/// The number of this interface.
#[unsafe(no_mangle)]
pub extern "C" fn doomsight_abi() -> u32
    ensures { result ≡ 1 }
{
    1
}

/// The version of the library, as ten thousand times its first number, a hundred times its second, and its third.
#[unsafe(no_mangle)]
pub extern "C" fn doomsight_version() -> u32
    ensures { result ≡ 10100 }
{
    10_100
}

/// Writes 1, 2, 3 and so on into the fields, in their order: what a header takes for their layout is read out of them.
#[unsafe(no_mangle)]
pub extern "C" fn doomsight_layout(fault: &mut DoomsightFault, counts: &mut DoomsightCounts)
    ensures fault { fault.new ≡ record { code = 1; kind = 2; a = 3; b = 4; line = 5; left = 6; at = 7; more = 8 } }
    ensures counts { counts.new ≡ record { sectors = 1; set = 2; clear = 3; listed = 4; cert_size = 5 } }
{
    *fault = DoomsightFault {
        code: 1,
        kind: 2,
        a: 3,
        b: 4,
        line: 5,
        left: 6,
        at: 7,
        more: 8,
    };
    *counts = DoomsightCounts {
        sectors: 1,
        set: 2,
        clear: 3,
        listed: 4,
        cert_size: 5,
    };
}

/// Puts what was built into the buffers.
fn put(built: &Built, reject: &mut [u8], cert: &mut [u8], counts: &mut DoomsightCounts)
    requires in_order { IsInOrder built.now.cert }
    requires fits { length reject.old ≡ table_size built.now.table.n }
    ensures put { IsPutInBuffers built.now reject.new cert.old cert.new counts.new }
{
    reject.copy_from_slice(built.table.as_bytes());
    let size = spell(&built.cert, cert);
    *counts = counts_of(counts_in(&built.table, built.listed.as_slice().len()), size);
}

/// The build with its answer as a result.
fn try_build(
    alloc: Global,
    linedefs: &[u8],
    sidedefs: &[u8],
    vertexes: &[u8],
    sectors: &[u8],
    format: u32,
    flags: u32,
    budget: u64,
    reject: &mut [u8],
    cert: &mut [u8],
    counts: &mut DoomsightCounts,
) -> Result<(), DoomsightFault>
    ensures asked { OnOk result (call_wrong format flags budget ≡ None) }
    ensures given { OnOk result (IsGiven (of_lumps_given (reading_meant format flags) linedefs.now sidedefs.now vertexes.now sectors.now) (method_meant budget) reject.new cert.old cert.new counts.new) }
    ensures refused { IfErr result (IsNotBuilt (call_wrong format flags budget) (of_lumps_given (reading_meant format flags) linedefs.now sidedefs.now vertexes.now sectors.now) (length reject.old)) }
    ensures code { IfErr result (λ f. f.code ≢ 0) }
    ensures kept { OnErr result ((reject.new ≡ reject.old) × (cert.new ≡ cert.old) × (counts.new ≡ counts.old)) }
{
    if let Some(wrong) = call_fault(format, flags, budget) {
        return Err(wrong);
    }
    let built = build_lumps(
        alloc,
        reading_of(format, flags),
        linedefs,
        sidedefs,
        vertexes,
        sectors,
        method_of(budget),
        reject.len(),
    )?;
    put(&built, reject, cert, counts);
    Ok(())
}

/// The table of the map that the lumps spell, and as much of its certificate as there is room for. The answer is 0, or the
/// code of why there is none; then nothing but the fault is written.
#[unsafe(no_mangle)]
pub extern "C" fn doomsight_build_buffers(
    alloc: Global,
    linedefs: &[u8],
    sidedefs: &[u8],
    vertexes: &[u8],
    sectors: &[u8],
    format: u32,
    flags: u32,
    budget: u64,
    reject: &mut [u8],
    cert: &mut [u8],
    counts: &mut DoomsightCounts,
    fault: &mut DoomsightFault,
) -> i32
    ensures asked { result ≡ pos 0 → call_wrong format flags budget ≡ None }
    ensures given { result ≡ pos 0 → IsGiven (of_lumps_given (reading_meant format flags) linedefs.now sidedefs.now vertexes.now sectors.now) (method_meant budget) reject.new cert.old cert.new counts.new }
    ensures refused { result ≢ pos 0 → IsNotBuilt (call_wrong format flags budget) (of_lumps_given (reading_meant format flags) linedefs.now sidedefs.now vertexes.now sectors.now) (length reject.old) fault.new }
    ensures done { result ≡ pos 0 → fault.new ≡ no_fault }
    ensures code { result ≢ pos 0 → result ≡ pos fault.new.code }
    ensures kept { result ≢ pos 0 → (reject.new ≡ reject.old) × (cert.new ≡ cert.old) × (counts.new ≡ counts.old) }
{
    match try_build(
        alloc, linedefs, sidedefs, vertexes, sectors, format, flags, budget, reject, cert, counts,
    ) {
        Ok(()) => {
            *fault = two(0, 0, 0, 0);
            0
        }
        Err(why) => {
            *fault = why;
            i32::from(why.code)
        }
    }
}

/// The check with its answer as a result.
fn try_check(
    alloc: Global,
    linedefs: &[u8],
    sidedefs: &[u8],
    vertexes: &[u8],
    sectors: &[u8],
    format: u32,
    flags: u32,
    reject: &[u8],
    cert: &[u8],
) -> Result<DoomsightCounts, DoomsightFault>
    ensures asked { IfOk result (λ _. reading_wrong format flags ≡ None) }
    ensures yes { IfOk result (IsYes (of_lumps_given (reading_meant format flags) linedefs.now sidedefs.now vertexes.now sectors.now) reject.now cert.now) }
    ensures no { IfErr result (IsNotProved (reading_wrong format flags) (of_lumps_given (reading_meant format flags) linedefs.now sidedefs.now vertexes.now sectors.now) reject.now cert.now) }
    ensures code { IfErr result (λ f. f.code ≢ 0) }
{
    if let Some(wrong) = reading_fault(format, flags) {
        return Err(wrong);
    }
    check_lumps(
        alloc,
        reading_of(format, flags),
        linedefs,
        sidedefs,
        vertexes,
        sectors,
        reject,
        cert,
    )
}

/// Whether the table is right for the map that the lumps spell, by the certificate. The answer is 0 for yes, or the code of
/// why not; then nothing but the fault is written.
#[unsafe(no_mangle)]
pub extern "C" fn doomsight_check_buffers(
    alloc: Global,
    linedefs: &[u8],
    sidedefs: &[u8],
    vertexes: &[u8],
    sectors: &[u8],
    format: u32,
    flags: u32,
    reject: &[u8],
    cert: &[u8],
    counts: &mut DoomsightCounts,
    fault: &mut DoomsightFault,
) -> i32
    ensures asked { result ≡ pos 0 → reading_wrong format flags ≡ None }
    ensures yes { result ≡ pos 0 → IsYes (of_lumps_given (reading_meant format flags) linedefs.now sidedefs.now vertexes.now sectors.now) reject.now cert.now counts.new }
    ensures no { result ≢ pos 0 → IsNotProved (reading_wrong format flags) (of_lumps_given (reading_meant format flags) linedefs.now sidedefs.now vertexes.now sectors.now) reject.now cert.now fault.new }
    ensures done { result ≡ pos 0 → fault.new ≡ no_fault }
    ensures code { result ≢ pos 0 → result ≡ pos fault.new.code }
    ensures kept { result ≢ pos 0 → counts.new ≡ counts.old }
{
    match try_check(
        alloc, linedefs, sidedefs, vertexes, sectors, format, flags, reject, cert,
    ) {
        Ok(found) => {
            *counts = found;
            *fault = two(0, 0, 0, 0);
            0
        }
        Err(why) => {
            *fault = why;
            i32::from(why.code)
        }
    }
}

/// Puts the bytes and a zero behind them at the front of the buffer, where there is room for both, and tells how many there
/// are.
fn put_text(line: &[u8], text: &mut [u8]) -> usize
    ensures { PutsText line.now text.old text.new result }
{
    let n = line.len();
    if n < text.len() {
        text[..n].copy_from_slice(line);
        text[n] = 0;
    }
    n
}

/// The line by which the program tells this fault, with its end and a zero behind it, where there is room. The answer is its
/// length without the zero, or the greatest number where there was no memory to make it.
#[unsafe(no_mangle)]
pub extern "C" fn doomsight_line_buffer(
    alloc: Global,
    fault: &DoomsightFault,
    text: &mut [u8],
) -> usize
    ensures { TellsText (text_of (status_in fault.now)) text.old text.new result }
{
    let Some(status) = status_of(fault) else {
        return put_text(&[], text);
    };
    match line_of(alloc, &status) {
        Ok(line) => put_text(line.as_bytes(), text),
        Err(_) => usize::MAX,
    }
}
