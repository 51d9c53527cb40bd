//! The whole spelling of a certificate of version 1 or 2.

ghost use Rattle.std.specs.Prelude.{◌≡◌, IfOk};
ghost use Rattle.cert_format.specs.CertGroups.Grammar.{IsAnyInOrder, SpellsAny, sizes_of_listing};

use crate::Cert;
use crate::cert_groups::cert::AnyCert;
use crate::cert_groups::printer::AnyPrinter;
use sight_names::Memory;
use std::alloc::Global;

/// How many bytes the records of this part take, at most; without the groups and pairs of version 2.
pub fn room_of(cert: &Cert) -> usize {
    let records = cert.triangles().len() + cert.rays().len() + cert.listed().len();
    let mut room = records.saturating_mul(24).saturating_add(30);
    for tree in cert.trees() {
        room = room.saturating_add(tree.nodes.as_bytes().len().saturating_add(10));
    }
    room
}

/// How many bytes the spelling takes, at most.
fn room_for(cert: &AnyCert) -> usize {
    match cert {
        AnyCert::One(one) => room_of(one),
        AnyCert::Two(two, _) => {
            let mut room = room_of(&two.cert);
            room = room.saturating_add(two.listed.as_slice().len().saturating_mul(4));
            for group in two.groups.as_slice() {
                room = room.saturating_add(
                    group.as_slice().len().saturating_mul(2).saturating_add(2),
                );
            }
            room
        }
    }
}

/// All pieces, one behind the other, which take so many bytes at most. A list that grows would leave holes of its former
/// sizes behind.
pub fn all_pieces(alloc: Global, room: usize, printer: AnyPrinter<'_>) -> Result<Vec<u8>, Memory>
    ensures { IfOk result (λ v. v.items ≡ printer.entry) }
{
    let mut out = Vec::with_capacity(alloc, room)?;
    let mut left = printer;
    let mut piece = [0; 4096];
    let mut count = left.next(&mut piece);
    while count > 0 {
        out.extend_from_slice(&piece[..count])?;
        count = left.next(&mut piece);
    }
    Ok(out)
}

/// The one spelling of the certificate. One of version 2 has its ranges and orders.
pub fn print_any(alloc: Global, cert: &AnyCert) -> Result<Vec<u8>, Memory>
    requires { IsAnyInOrder cert.now }
    ensures { IfOk result (λ v. SpellsAny (sizes_of_listing cert.now) v.items cert.now) }
{
    all_pieces(alloc, room_for(cert), AnyPrinter::new(cert))
}
