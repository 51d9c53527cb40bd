//! The certificate.

ghost use Rattle.std.specs.Prelude.{◌≡◌};

use block_evidence::sight_tree::Tree;
use sight_names::{Items, Pair, PairRay, Triangle};
use std::marker::Model;

/// The sizes of the map that a certificate is about: numbers of sectors, of points and of LINEDEFS records.
#[derive(Clone, Copy)]
pub struct Sizes {
    pub sectors: u16,
    pub points: u16,
    pub lines: u16,
}

/// A triangle with its sector.
#[derive(Clone, Copy, PartialEq, Eq)]
pub struct Labelled {
    pub triangle: Triangle,
    pub sector: u16,
}

/// How many records there are of each kind.
#[derive(Clone, Copy)]
pub struct Counts {
    pub triangles: u32,
    pub rays: u32,
    pub listed: u32,
    pub trees: u32,
}

/// A certificate, with numbers in range and records in order.
#[derive(Drop)]
pub struct Cert {
    pub sizes: Sizes,
    pub triangles: Items<Labelled>,
    pub rays: Items<PairRay>,
    pub listed: Items<Pair>,
    pub trees: Items<Tree>,
}

impl Model for Cert {
    ghost use Rattle.cert_format.specs.Parts.{CertParts};
    ghost use Rattle.cert_format.specs.Grammar.{IsOneInOrder};

    ghost Value = { CertParts };

    ghost view = { λ c. record { sizes = c.sizes; triangles = c.triangles; rays = c.rays; listed = c.listed; trees = c.trees } };

    ghost invariant = { λ c. IsOneInOrder (record { sizes = c.sizes; triangles = c.triangles; rays = c.rays; listed = c.listed; trees = c.trees }) };
}

impl Cert {
    ghost use Rattle.cert_format.specs.Grammar.{IsOneInOrder};

    /// The labelled triangles, in order.
    pub fn triangles(&self) -> &[Labelled]
        ensures list { result.now ≡ self.now.triangles }
        ensures in_order { IsOneInOrder self.now }
    {
        self.triangles.as_slice()
    }

    /// The rays, by their pairs.
    pub fn rays(&self) -> &[PairRay]
        ensures list { result.now ≡ self.now.rays }
        ensures in_order { IsOneInOrder self.now }
    {
        self.rays.as_slice()
    }

    /// The listed pairs, in order.
    pub fn listed(&self) -> &[Pair]
        ensures list { result.now ≡ self.now.listed }
        ensures in_order { IsOneInOrder self.now }
    {
        self.listed.as_slice()
    }

    /// The trees, by their sources.
    pub fn trees(&self) -> &[Tree]
        ensures list { result.now ≡ self.now.trees }
        ensures in_order { IsOneInOrder self.now }
    {
        self.trees.as_slice()
    }
}
