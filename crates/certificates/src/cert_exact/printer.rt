//! The spelling of a certificate of version 3 in pieces of any size. Nothing here takes memory.

ghost use Rattle.std.specs.Prelude.{◌≡◌, ◌↔◌, ◌<◌, [], ◌++◌, length, take, drop, min};
ghost use Rattle.certificates.specs.CertExact.Grammar.{IsThreeInOrder, SpellsThree};

use crate::cert_exact::cert::ExactParts;
use crate::cert_exact::front::Front;
use crate::cert_exact::ranges::see_trees;
use crate::cert_exact::spelled::header_of;
use crate::cert_exact::tree_pieces::TreePieces;
use cert_format::pieces::Begun;
use cert_format::ranges::see_rays;
use std::marker::Model;

/// Gives the spelling of a certificate of version 3 in pieces; a contract sees the bytes that are still to come.
#[derive(Drop)]
pub struct ExactPrinter<'a> {
    front: Front<'a>,
    trees: TreePieces<'a>,
}

impl<'a> Model for ExactPrinter<'a> {
    ghost use Rattle.std.specs.Prelude.{ℕ, List, ◌++◌};
    ghost use Rattle.certificates.specs.CertExact.Pieces.{front_left, trees_left};

    ghost Value = { List ℕ };

    ghost view = { λ p. front_left p.front ++ trees_left p.trees };
}

impl<'a> ExactPrinter<'a> {
    /// Before the first piece.
    pub fn new(cert: &'a ExactParts) -> ExactPrinter<'a>
        requires { IsThreeInOrder cert.now }
        ensures { SpellsThree cert.now.sizes result cert.now }
    {
        let rays = cert.rays.as_slice();
        let trees = cert.trees.as_slice();
        see_rays(rays);
        see_trees(trees);
        let front = Front {
            begun: Begun::of(&header_of(cert)),
            sectors: &[],
            groups: cert.groups.as_slice(),
            triangles: cert.triangles.as_slice(),
            rays,
            lengths: trees,
        };
        ExactPrinter {
            front,
            trees: TreePieces { nodes: &[], trees },
        }
    }

    /// Puts the next piece into the buffer, from its beginning on: the whole buffer as long as there are bytes for it.
    /// The number of bytes is 0 once all were given.
    pub fn next(&mut self, buf: &mut [u8]) -> usize
        requires { 0 < length buf.old }
        // The pieces are what was still to come.
        ensures given { self.old ≡ take result buf.new ++ self.new }
        // The buffer is filled as far as there are bytes.
        ensures filled { result ≡ min (length buf.old) (length self.old) }
        // It is 0 only when all were given.
        ensures end { result ≡ 0 ↔ self.old ≡ [] }
        // What the piece doesn't reach stays.
        ensures others { drop result buf.new ≡ drop result buf.old }
    {
        let given = self.front.fill(buf);
        if given == buf.len() {
            return given;
        }
        let more = self.trees.fill(&mut buf[given..]);
        given + more
    }
}
