//! The functions by which C asks of a map what is at fault in it, and whether two of its sectors see each other.

ghost use Rattle.std.specs.Prelude.{◌≡◌, ◌≢◌, IfErr, IfOk, None, OnErr, OnOk, Some, pos};
ghost use Rattle.doomsight_c.specs.Lumps.{of_lumps_given};
ghost use Rattle.doomsight_c.specs.Asked.{method_of as method_meant, reading_fault as reading_wrong, reading_of as reading_meant};
ghost use Rattle.doomsight_c.specs.Audited.{IsAudited, IsNotAudited};
ghost use Rattle.doomsight_c.specs.Faults.{no_fault};
ghost use Rattle.doomsight_c.specs.Said.{IsNotSaid, IsSaid, ask_of as ask_meant, pair_fault as pair_wrong, sector_pair as pair_meant, sector_fault as sector_wrong};

use crate::answer::DoomsightAnswer;
use crate::asked::{call_fault, method_of, reading_fault, reading_of};
use crate::audit::audit_lumps;
use crate::fault::{DoomsightFault, two, wide};
use crate::flaw::{DoomsightFlaw, DoomsightFlawCounts};
use crate::tell::put_front;
use crate::why::why_lumps;
use sight_names::{Ask, Method, Pair};
use std::alloc::Global;

/// What bounds the walks of two sectors.
fn ask_of(method: Method) -> Ask
    ensures { result ≡ ask_meant method }
{
    match method {
        Method::Within(ask) => ask,
        Method::Exact => Ask::Full,
    }
}

/// The first number that is no number of a sector in any map.
fn sector_fault(a: u32, b: u32) -> Option<DoomsightFault>
    ensures is { result ≡ sector_wrong a b }
{
    if a > 65_535 {
        return Some(wide(2, 16, u64::from(a), 0));
    }
    if b > 65_535 {
        return Some(wide(2, 16, u64::from(b), 0));
    }
    None
}

/// The two sectors, or the first number that isn't in order.
fn pair_asked(format: u32, flags: u32, budget: u64, a: u32, b: u32) -> Result<Pair, DoomsightFault>
    ensures pair { IfOk result (λ p. p ≡ pair_meant a b) }
    ensures asked { OnOk result (pair_wrong format flags budget a b ≡ None) }
    ensures wrong { IfErr result (λ f. pair_wrong format flags budget a b ≡ Some f) }
    ensures code { IfErr result (λ f. f.code ≢ 0) }
{
    if let Some(wrong) = call_fault(format, flags, budget) {
        return Err(wrong);
    }
    if let Some(wrong) = sector_fault(a, b) {
        return Err(wrong);
    }
    Ok(Pair {
        a: a as u16,
        b: b as u16,
    })
}

/// The answer for two sectors as a result.
fn try_why(
    alloc: Global,
    linedefs: &[u8],
    sidedefs: &[u8],
    vertexes: &[u8],
    sectors: &[u8],
    format: u32,
    flags: u32,
    budget: u64,
    a: u32,
    b: u32,
) -> Result<DoomsightAnswer, DoomsightFault>
    ensures asked { OnOk result (pair_wrong format flags budget a b ≡ None) }
    ensures said { IfOk result (IsSaid (of_lumps_given (reading_meant format flags) linedefs.now sidedefs.now vertexes.now sectors.now) (ask_meant (method_meant budget)) (pair_meant a b)) }
    ensures refused { IfErr result (IsNotSaid (pair_wrong format flags budget a b) (of_lumps_given (reading_meant format flags) linedefs.now sidedefs.now vertexes.now sectors.now) (pair_meant a b)) }
    ensures code { IfErr result (λ f. f.code ≢ 0) }
{
    let pair = pair_asked(format, flags, budget, a, b)?;
    why_lumps(
        alloc,
        reading_of(format, flags),
        linedefs,
        sidedefs,
        vertexes,
        sectors,
        ask_of(method_of(budget)),
        pair,
    )
}

/// Whether two sectors of the map that the lumps spell see each other, and along which ray. The answer is 0, or the code of why
/// nothing is told; then nothing but the fault is written.
#[unsafe(no_mangle)]
pub extern "C" fn doomsight_why_buffers(
    alloc: Global,
    linedefs: &[u8],
    sidedefs: &[u8],
    vertexes: &[u8],
    sectors: &[u8],
    format: u32,
    flags: u32,
    budget: u64,
    a: u32,
    b: u32,
    answer: &mut DoomsightAnswer,
    fault: &mut DoomsightFault,
) -> i32
    ensures asked { result ≡ pos 0 → pair_wrong format flags budget a b ≡ None }
    ensures said { result ≡ pos 0 → IsSaid (of_lumps_given (reading_meant format flags) linedefs.now sidedefs.now vertexes.now sectors.now) (ask_meant (method_meant budget)) (pair_meant a b) answer.new }
    ensures refused { result ≢ pos 0 → IsNotSaid (pair_wrong format flags budget a b) (of_lumps_given (reading_meant format flags) linedefs.now sidedefs.now vertexes.now sectors.now) (pair_meant a b) fault.new }
    ensures done { result ≡ pos 0 → fault.new ≡ no_fault }
    ensures code { result ≢ pos 0 → result ≡ pos fault.new.code }
    ensures kept { result ≢ pos 0 → answer.new ≡ answer.old }
{
    match try_why(
        alloc, linedefs, sidedefs, vertexes, sectors, format, flags, budget, a, b,
    ) {
        Ok(said) => {
            *answer = said;
            *fault = two(0, 0, 0, 0);
            0
        }
        Err(why) => {
            *fault = why;
            i32::from(why.code)
        }
    }
}

/// The audit with its answer as a result.
fn try_audit(
    alloc: Global,
    linedefs: &[u8],
    sidedefs: &[u8],
    vertexes: &[u8],
    sectors: &[u8],
    format: u32,
    flags: u32,
    flaws: &mut [DoomsightFlaw],
) -> Result<DoomsightFlawCounts, DoomsightFault>
    ensures asked { OnOk result (reading_wrong format flags ≡ None) }
    ensures audited { IfOk result (IsAudited (of_lumps_given (reading_meant format flags) linedefs.now sidedefs.now vertexes.now sectors.now) flaws.old flaws.new) }
    ensures refused { IfErr result (IsNotAudited (reading_wrong format flags) (of_lumps_given (reading_meant format flags) linedefs.now sidedefs.now vertexes.now sectors.now)) }
    ensures code { IfErr result (λ f. f.code ≢ 0) }
    ensures kept { OnErr result (flaws.new ≡ flaws.old) }
{
    if let Some(wrong) = reading_fault(format, flags) {
        return Err(wrong);
    }
    let audit = audit_lumps(
        alloc,
        reading_of(format, flags),
        linedefs,
        sidedefs,
        vertexes,
        sectors,
    )?;
    put_front(audit.all.as_slice(), flaws);
    Ok(audit.counts)
}

/// All faults of the map that the lumps spell, as many as there is room for, and how many there are. The answer is 0, or the code
/// of why there is no audit; then nothing but the fault is written.
#[unsafe(no_mangle)]
pub extern "C" fn doomsight_audit_buffers(
    alloc: Global,
    linedefs: &[u8],
    sidedefs: &[u8],
    vertexes: &[u8],
    sectors: &[u8],
    format: u32,
    flags: u32,
    flaws: &mut [DoomsightFlaw],
    counts: &mut DoomsightFlawCounts,
    fault: &mut DoomsightFault,
) -> i32
    ensures asked { result ≡ pos 0 → reading_wrong format flags ≡ None }
    ensures audited { result ≡ pos 0 → IsAudited (of_lumps_given (reading_meant format flags) linedefs.now sidedefs.now vertexes.now sectors.now) flaws.old flaws.new counts.new }
    ensures refused { result ≢ pos 0 → IsNotAudited (reading_wrong format flags) (of_lumps_given (reading_meant format flags) linedefs.now sidedefs.now vertexes.now sectors.now) fault.new }
    ensures done { result ≡ pos 0 → fault.new ≡ no_fault }
    ensures code { result ≢ pos 0 → result ≡ pos fault.new.code }
    ensures kept { result ≢ pos 0 → (flaws.new ≡ flaws.old) × (counts.new ≡ counts.old) }
{
    match try_audit(
        alloc, linedefs, sidedefs, vertexes, sectors, format, flags, flaws,
    ) {
        Ok(found) => {
            *counts = found;
            *fault = two(0, 0, 0, 0);
            0
        }
        Err(why) => {
            *fault = why;
            i32::from(why.code)
        }
    }
}

/// Writes 1, 2, 3 and so on into the fields, in their order: what a header takes for their layout is read out of them.
#[unsafe(no_mangle)]
pub extern "C" fn doomsight_layout_of_answers(
    answer: &mut DoomsightAnswer,
    flaw: &mut DoomsightFlaw,
    counts: &mut DoomsightFlawCounts,
)
    ensures answer { answer.new ≡ record { answer = 1; first_line = 2; first_left = 3; last_line = 4; last_left = 5; a = pos 6; b = pos 7; c = pos 8 } }
    ensures flaw { flaw.new ≡ record { kind = 1; i = 2; j = 3; left = 4; x = pos 5; y = pos 6; to_x = pos 7; to_y = pos 8 } }
    ensures counts { counts.new ≡ record { clashes = 1; loose_ends = 2; open_sides = 3; tears = 4; gaps = 5; listed = 6 } }
{
    *answer = DoomsightAnswer {
        answer: 1,
        first_line: 2,
        first_left: 3,
        last_line: 4,
        last_left: 5,
        a: 6,
        b: 7,
        c: 8,
    };
    *flaw = DoomsightFlaw {
        kind: 1,
        i: 2,
        j: 3,
        left: 4,
        x: 5,
        y: 6,
        to_x: 7,
        to_y: 8,
    };
    *counts = DoomsightFlawCounts {
        clashes: 1,
        loose_ends: 2,
        open_sides: 3,
        tears: 4,
        gaps: 5,
        listed: 6,
    };
}
