//! The spelling of a certificate of any version in pieces of any size. Nothing here takes memory.

ghost use Rattle.std.specs.Prelude.{◌≡◌, ◌↔◌, ◌<◌, [], ◌++◌, length, take, drop, min};
ghost use Rattle.certificates.specs.Grammar.{IsInOrder, Spells, sizes_of_certificate};

use crate::cert_exact::ExactPrinter;
use crate::certificate::Certificate;
use cert_format::cert_groups::AnyPrinter;
use std::marker::Model;

/// The printer of the certificate's version.
#[derive(Drop)]
pub enum Pieces<'a> {
    Listing(AnyPrinter<'a>),
    Exact(ExactPrinter<'a>),
}

/// Gives the spelling of a certificate of any version in pieces; a contract sees the bytes that are still to come.
#[derive(Drop)]
pub struct Printer<'a> {
    pieces: Pieces<'a>,
}

impl<'a> Model for Printer<'a> {
    ghost use Rattle.std.specs.Prelude.{ℕ, List};
    ghost use Rattle.certificates.specs.Pieces.{left};

    ghost Value = { List ℕ };

    ghost view = { λ p. left p.pieces };
}

impl<'a> Printer<'a> {
    /// Before the first piece.
    pub fn new(cert: &'a Certificate) -> Printer<'a>
        requires { IsInOrder cert.now }
        ensures { Spells (sizes_of_certificate cert.now) result cert.now }
    {
        match cert {
            Certificate::Listing(listing) => Printer {
                pieces: Pieces::Listing(AnyPrinter::new(listing)),
            },
            Certificate::Exact(exact) => Printer {
                pieces: Pieces::Exact(ExactPrinter::new(exact)),
            },
        }
    }

    /// Puts the next piece into the buffer, from its beginning on: the whole buffer as long as there are bytes for it.
    /// The number of bytes is 0 once all were given.
    pub fn next(&mut self, buf: &mut [u8]) -> usize
        requires { 0 < length buf.old }
        // The pieces are what was still to come.
        ensures given { self.old ≡ take result buf.new ++ self.new }
        // The buffer is filled as far as there are bytes.
        ensures filled { result ≡ min (length buf.old) (length self.old) }
        // It is 0 only when all were given.
        ensures end { result ≡ 0 ↔ self.old ≡ [] }
        // What the piece doesn't reach stays.
        ensures others { drop result buf.new ≡ drop result buf.old }
    {
        match &mut self.pieces {
            Pieces::Listing(printer) => printer.next(buf),
            Pieces::Exact(printer) => printer.next(buf),
        }
    }
}
