//! A certificate spelled into a buffer, or whole.

ghost use Rattle.std.specs.Prelude.{◌≡◌, ◌+◌, ◌-◌, ◌<◌, ◌^◌, [], ◌++◌, IfOk, drop, length, min, take};
ghost use Rattle.certificates.specs.Grammar.{IsInOrder, Spells, sizes_of_certificate};
ghost use Rattle.doomsight_c.specs.Built.{SpellsInto};

use certificates::{Certificate, Printer};
use sight_names::Memory;
use std::alloc::Global;

/// The sum, or the greatest number where there is none.
fn sum(a: u64, b: u64) -> u64
    ensures exact { a + b < 2 ^ 64 - 1 → result ≡ a + b }
    ensures most { result < 2 ^ 64 - 1 → result ≡ a + b }
{
    if b > u64::MAX - a {
        return u64::MAX;
    }
    a + b
}

/// Adds the bytes that the printer has still to give to the count.
fn count_rest(printer: &mut Printer<'_>, before: u64) -> u64
    ensures exact { before + length printer.old < 2 ^ 64 - 1 → result ≡ before + length printer.old }
    ensures most { result < 2 ^ 64 - 1 → result ≡ before + length printer.old }
{
    let mut size = before;
    let mut piece = [0; 4096];
    loop {
        let count = printer.next(&mut piece);
        if count == 0 {
            return size;
        }
        size = sum(size, count as u64);
    }
}

/// The first bytes that the printer gives, as many as there is room for.
fn front(printer: &mut Printer<'_>, buf: &mut [u8]) -> usize
    ensures given { printer.old ≡ take result buf.new ++ printer.new }
    ensures filled { result ≡ min (length buf.old) (length printer.old) }
    ensures others { drop result buf.new ≡ drop result buf.old }
{
    if buf.is_empty() {
        return 0;
    }
    printer.next(buf)
}

/// Puts the front of the spelling into the buffer, as far as there is room, and counts all its bytes.
pub fn spell(cert: &Certificate, buf: &mut [u8]) -> u64
    requires { IsInOrder cert.now }
    ensures { SpellsInto cert.now buf.old buf.new result }
{
    let mut printer = Printer::new(cert);
    let given = front(&mut printer, buf);
    count_rest(&mut printer, given as u64)
}

/// An empty list with room for the spelling. A list that grows would leave holes of its former sizes behind.
fn with_room(alloc: Global, cert: &Certificate) -> Result<Vec<u8>, Memory>
    requires { IsInOrder cert.now }
    ensures { IfOk result (λ v. v.items ≡ []) }
{
    let size = count_rest(&mut Printer::new(cert), 0);
    Ok(Vec::with_capacity(alloc, size as usize)?)
}

/// The whole spelling.
pub fn print(alloc: Global, cert: &Certificate) -> Result<Vec<u8>, Memory>
    requires { IsInOrder cert.now }
    ensures { IfOk result (λ v. Spells (sizes_of_certificate cert.now) v.items cert.now) }
{
    let mut out = with_room(alloc, cert)?;
    let mut printer = Printer::new(cert);
    let mut piece = [0; 4096];
    let mut count = printer.next(&mut piece);
    while count > 0 {
        out.extend_from_slice(&piece[..count])?;
        count = printer.next(&mut piece);
    }
    Ok(out)
}
