//! A certificate of any version that has its ranges and orders.

ghost use Rattle.std.specs.Prelude.{◌≡◌};
ghost use Rattle.certificates.specs.Grammar.{IsInOrder, Spells, sizes_of_certificate};

use certificates::{Certificate, Printer};
use std::marker::Model;

/// A certificate of any version, with numbers in range and records in order: it has its one spelling.
#[derive(Drop)]
pub struct Spellable {
    cert: Certificate,
}

impl Model for Spellable {
    ghost use Rattle.certificates.specs.declared.certificate.Certificate.{Certificate};
    ghost use Rattle.certificates.specs.Grammar.{IsInOrder};

    ghost Value = { Certificate };

    ghost view = { λ s. s.cert };

    ghost invariant = { λ s. IsInOrder s.cert };
}

impl Spellable {
    /// This certificate.
    pub fn of(cert: Certificate) -> Self
        requires { IsInOrder cert }
        ensures { result ≡ cert }
    {
        Spellable { cert }
    }

    /// Gives its spelling in pieces.
    pub fn printer(&self) -> Printer<'_>
        ensures { Spells (sizes_of_certificate self.now) result self.now }
    {
        Printer::new(&self.cert)
    }
}
