//! The spelling of a certificate in pieces of any size. Nothing here takes memory.

ghost use Rattle.std.specs.Prelude.{◌≡◌, ◌↔◌, ◌+◌, ◌-◌, ◌<◌, ◌≤◌, [], ◌++◌, length, take, drop, min, false, IsTrue};
ghost use Rattle.cert_format.specs.Grammar.{SpellsOne};
ghost use Rattle.cert_format.specs.Pieces.{left_bytes};

use crate::cert::{Cert, Labelled};
use crate::ranges::{see_rays, see_trees};
use crate::spelled::{head_of, header_of, pair_of, ray_of, triangle_of};
use block_evidence::sight_tree::Tree;
use sight_names::{Pair, PairRay};
use std::marker::Model;

/// A record under way: a contract sees those of its bytes that are still to give.
#[derive(Drop)]
pub struct Begun {
    bytes: [u8; 30],
    given: usize,
}

impl Model for Begun {
    ghost use Rattle.std.specs.Prelude.{ℕ, ◌≤◌, List, drop};

    ghost Value = { List ℕ };

    ghost view = { λ b. drop b.given b.bytes };

    ghost invariant = { λ b. b.given ≤ 30 };
}

impl Begun {
    /// A record of these bytes, of which none was given. The longest record is the header, that of version 2.
    pub fn of(text: &[u8]) -> Begun
        requires { length text.now ≤ 30 }
        ensures { result ≡ text.now }
    {
        let mut bytes = [0; 30];
        let given = 30 - text.len();
        bytes[given..].copy_from_slice(text);
        Begun { bytes, given }
    }

    /// The bytes that are still to give.
    pub fn as_slice(&self) -> &[u8]
        ensures { result.now ≡ self.now }
    {
        &self.bytes[self.given..]
    }

    /// So many of the bytes are given.
    pub fn skip(&mut self, count: usize)
        requires { count ≤ length self.old }
        ensures { self.new ≡ drop count self.old }
    {
        self.given += count;
    }
}

/// What is still to give: of a record, of the nodes of a tree, and whole records.
#[derive(Drop)]
pub struct Left<'a> {
    pub begun: Begun,
    pub nodes: &'a [u8],
    pub triangles: &'a [Labelled],
    pub rays: &'a [PairRay],
    pub listed: &'a [Pair],
    pub trees: &'a [Tree],
}

impl<'a> Model for Left<'a> {
    ghost use Rattle.std.specs.List.{AllByRecursion};
    ghost use Rattle.sight_names.specs.declared.names.PairRay.{PairRay as RayOfPair};
    ghost use Rattle.cert_format.specs.Grammar.{HasShortSides};
    ghost use Rattle.cert_format.specs.Pieces.{LeftParts};

    ghost Value = { LeftParts };

    ghost view = { λ l. record { begun = l.begun; nodes = l.nodes.now; triangles = l.triangles.now; rays = l.rays.now; listed = l.listed.now; trees = l.trees.now } };

    ghost invariant = { λ l. AllByRecursion (λ (r : RayOfPair). HasShortSides r.ray) l.rays.now };
}

impl<'a> Left<'a> {
    /// Begins the next record where the last one was given whole. False where nothing is left.
    fn refill(&mut self) -> bool
        ensures bytes { left_bytes self.new ≡ left_bytes self.old }
        ensures some { IsTrue result → 0 < length self.new.begun + length self.new.nodes }
        ensures none { result ≡ false → left_bytes self.old ≡ [] }
    {
        if !self.begun.as_slice().is_empty() || !self.nodes.is_empty() {
            return true;
        }
        if let Some((triangle, rest)) = self.triangles.split_first() {
            self.begun = Begun::of(&triangle_of(triangle));
            self.triangles = rest;
            return true;
        }
        if let Some((ray, rest)) = self.rays.split_first() {
            self.begun = Begun::of(&ray_of(ray));
            self.rays = rest;
            return true;
        }
        if let Some((pair, rest)) = self.listed.split_first() {
            self.begun = Begun::of(&pair_of(pair));
            self.listed = rest;
            return true;
        }
        if let Some((tree, rest)) = self.trees.split_first() {
            self.begun = Begun::of(&head_of(tree.source, tree.nodes.len() as u64));
            self.nodes = tree.nodes.as_bytes();
            self.trees = rest;
            return true;
        }
        false
    }

    /// Gives bytes of the record or of the nodes that come first, as many as fit behind that place of the buffer.
    fn give(&mut self, buf: &mut [u8], at: usize) -> usize
        requires room { at < length buf.old }
        requires some { 0 < length self.old.begun + length self.old.nodes }
        ensures given { take at buf.old ++ left_bytes self.old ≡ take (at + result) buf.new ++ left_bytes self.new }
        ensures some { 0 < result }
        ensures fits { at + result ≤ length buf.old }
        ensures others { drop (at + result) buf.new ≡ drop (at + result) buf.old }
    {
        let begun = self.begun.as_slice();
        if begun.is_empty() {
            let count = copy_front(self.nodes, buf, at);
            let (_, rest) = self.nodes.split_at(count);
            self.nodes = rest;
            count
        } else {
            let count = copy_front(begun, buf, at);
            self.begun.skip(count);
            count
        }
    }
}

/// Copies what comes first to that place of the buffer, as much as fits behind it; the number of bytes.
pub fn copy_front(text: &[u8], buf: &mut [u8], at: usize) -> usize
    requires { at ≤ length buf.old }
    ensures count { result ≡ min (length buf.old - at) (length text.now) }
    ensures front { take (at + result) buf.new ≡ take at buf.old ++ take result text.now }
    ensures others { drop (at + result) buf.new ≡ drop (at + result) buf.old }
{
    let count = text.len().min(buf.len() - at);
    buf[at..at + count].copy_from_slice(&text[..count]);
    count
}

/// Gives the spelling of a certificate in pieces; a contract sees the bytes that are still to come.
#[derive(Drop)]
pub struct Printer<'a> {
    pub left: Left<'a>,
}

impl<'a> Model for Printer<'a> {
    ghost use Rattle.std.specs.Prelude.{ℕ, List};
    ghost use Rattle.cert_format.specs.Pieces.{left_bytes};

    ghost Value = { List ℕ };

    ghost view = { λ p. left_bytes p.left };
}

impl<'a> Printer<'a> {
    /// Before the first piece.
    pub fn new(cert: &'a Cert) -> Printer<'a>
        ensures { SpellsOne cert.now.sizes result cert.now }
    {
        let rays = cert.rays();
        let trees = cert.trees();
        see_rays(rays);
        see_trees(trees);
        let left = Left {
            begun: Begun::of(&header_of(cert)),
            nodes: &[],
            triangles: cert.triangles(),
            rays,
            listed: cert.listed(),
            trees,
        };
        Printer { left }
    }

    /// Puts the next piece into the buffer, from its beginning on: the whole buffer as long as there are bytes for it.
    /// The number of bytes is 0 once all were given.
    pub fn next(&mut self, buf: &mut [u8]) -> usize
        requires { 0 < length buf.old }
        // The pieces are what was still to come.
        ensures given { self.old ≡ take result buf.new ++ self.new }
        // The buffer is filled as far as there are bytes.
        ensures filled { result ≡ min (length buf.old) (length self.old) }
        // It is 0 only when all were given.
        ensures end { result ≡ 0 ↔ self.old ≡ [] }
        // What the piece doesn't reach stays.
        ensures others { drop result buf.new ≡ drop result buf.old }
    {
        let mut given = 0;
        while given < buf.len() {
            if !self.left.refill() {
                break;
            }
            given += self.left.give(buf, given);
        }
        given
    }
}
