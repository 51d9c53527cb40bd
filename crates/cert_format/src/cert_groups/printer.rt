//! The spelling of a certificate of version 1 or 2 in pieces of any size. Nothing here takes memory.

ghost use Rattle.std.specs.Prelude.{◌≡◌, ◌↔◌, ◌<◌, [], ◌++◌, length, take, drop, min};
ghost use Rattle.cert_format.specs.declared.cert_groups.cert.AnyCert.TheVariants.{One};
ghost use Rattle.cert_format.specs.CertGroups.Grammar.{IsTwoInOrder, IsAnyInOrder, SpellsTwo, SpellsAny, sizes_of_listing};

use crate::cert_groups::cert::{AnyCert, CertTwo};
use crate::cert_groups::front::{Front, header_of};
use crate::pieces::{Begun, Left};
use crate::ranges::{see_rays, see_trees};
use crate::{Cert, Printer, Sizes};
use std::marker::Model;

/// Gives the spelling of a certificate of version 1 or 2 in pieces; a contract sees the bytes that are still to come.
#[derive(Drop)]
pub struct AnyPrinter<'a> {
    front: Front<'a>,
    behind: Printer<'a>,
}

impl<'a> Model for AnyPrinter<'a> {
    ghost use Rattle.std.specs.Prelude.{ℕ, List, ◌++◌};
    ghost use Rattle.cert_format.specs.CertGroups.Pieces.{front_left};

    ghost Value = { List ℕ };

    ghost view = { λ p. front_left p.front ++ p.behind };
}

impl<'a> AnyPrinter<'a> {
    /// Before the first piece of a certificate of version 1: all is behind an empty front.
    pub fn of_one(cert: &'a Cert) -> AnyPrinter<'a>
        ensures { SpellsAny cert.now.sizes result (One cert.now) }
    {
        let front = Front {
            begun: Begun::of(&[]),
            sectors: &[],
            groups: &[],
        };
        AnyPrinter {
            front,
            behind: Printer::new(cert),
        }
    }

    /// Before the first piece of a certificate of version 2.
    fn of_two(cert: &'a CertTwo, sizes: Sizes) -> AnyPrinter<'a>
        requires { IsTwoInOrder sizes cert.now }
        ensures { SpellsTwo sizes result cert.now }
    {
        let rays = cert.cert.rays();
        let trees = cert.cert.trees();
        see_rays(rays);
        see_trees(trees);
        let left = Left {
            begun: Begun::of(&[]),
            nodes: &[],
            triangles: cert.cert.triangles(),
            rays,
            listed: cert.listed.as_slice(),
            trees,
        };
        let front = Front {
            begun: Begun::of(&header_of(cert, sizes)),
            sectors: &[],
            groups: cert.groups.as_slice(),
        };
        AnyPrinter {
            front,
            behind: Printer { left },
        }
    }

    /// Before the first piece.
    pub fn new(cert: &'a AnyCert) -> AnyPrinter<'a>
        requires { IsAnyInOrder cert.now }
        ensures { SpellsAny (sizes_of_listing cert.now) result cert.now }
    {
        match cert {
            AnyCert::One(one) => AnyPrinter::of_one(one),
            AnyCert::Two(two, sizes) => AnyPrinter::of_two(two, *sizes),
        }
    }

    /// Puts the next piece into the buffer, from its beginning on: the whole buffer as long as there are bytes for it.
    /// The number of bytes is 0 once all were given.
    pub fn next(&mut self, buf: &mut [u8]) -> usize
        requires { 0 < length buf.old }
        // The pieces are what was still to come.
        ensures given { self.old ≡ take result buf.new ++ self.new }
        // The buffer is filled as far as there are bytes.
        ensures filled { result ≡ min (length buf.old) (length self.old) }
        // It is 0 only when all were given.
        ensures end { result ≡ 0 ↔ self.old ≡ [] }
        // What the piece doesn't reach stays.
        ensures others { drop result buf.new ≡ drop result buf.old }
    {
        let given = self.front.fill(buf);
        if given == buf.len() {
            return given;
        }
        let more = self.behind.next(&mut buf[given..]);
        given + more
    }
}
