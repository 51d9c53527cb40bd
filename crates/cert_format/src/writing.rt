//! The whole spelling of a certificate of version 1.

ghost use Rattle.std.specs.Prelude.{IfOk};
ghost use Rattle.cert_format.specs.Grammar.{SpellsOne};

use crate::cert::Cert;
use crate::cert_groups::{AnyPrinter, all_pieces, room_of};
use sight_names::Memory;
use std::alloc::Global;

/// The one spelling of the certificate.
pub fn print(alloc: Global, cert: &Cert) -> Result<Vec<u8>, Memory>
    ensures { IfOk result (λ v. SpellsOne cert.now.sizes v.items cert.now) }
{
    all_pieces(alloc, room_of(cert), AnyPrinter::of_one(cert))
}
