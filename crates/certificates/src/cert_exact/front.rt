//! What comes before the nodes of the trees, in pieces of any size: the header, groups, triangles, rays, and how many bytes
//! each tree takes. Nothing here takes memory.

ghost use Rattle.std.specs.Prelude.{◌≡◌, ◌+◌, ◌<◌, ◌≤◌, [], ◌++◌, length, take, drop, min, false, IsTrue};
ghost use Rattle.certificates.specs.CertExact.Pieces.{front_left};

use block_evidence::sight_tree::Nodes;
use cert_format::Labelled;
use cert_format::cert_groups::Group;
use cert_format::pieces::{Begun, copy_front};
use cert_format::spelled::{ray_of, triangle_of};
use sight_names::PairRay;
use std::marker::Model;

/// What is still to give before the nodes: of a record, of the sectors of a group, whole records, and the lengths of trees.
#[derive(Drop)]
pub struct Front<'a> {
    pub begun: Begun,
    pub sectors: &'a [u16],
    pub groups: &'a [Group],
    pub triangles: &'a [Labelled],
    pub rays: &'a [PairRay],
    pub lengths: &'a [Nodes],
}

impl<'a> Model for Front<'a> {
    ghost use Rattle.std.specs.List.{AllByRecursion};
    ghost use Rattle.std.specs.Prelude.{ℕ, List, length, ◌<◌, ◌^◌};
    ghost use Rattle.sight_names.specs.declared.names.PairRay.{PairRay as RayOfPair};
    ghost use Rattle.cert_format.specs.Grammar.{HasShortSides};
    ghost use Rattle.certificates.specs.CertExact.Pieces.{FrontParts};

    ghost Value = { FrontParts };

    ghost view = { λ f. record { begun = f.begun; sectors = f.sectors.now; groups = f.groups.now; triangles = f.triangles.now; rays = f.rays.now; lengths = f.lengths.now } };

    ghost invariant = { λ f. AllByRecursion (λ (g : List ℕ). length g < 2 ^ 16) f.groups.now × AllByRecursion (λ (r : RayOfPair). HasShortSides r.ray) f.rays.now };
}

impl<'a> Front<'a> {
    /// Begins the next record where the last one was given whole. False where nothing is left.
    fn refill(&mut self) -> bool
        ensures bytes { front_left self.new ≡ front_left self.old }
        ensures some { IsTrue result → 0 < length self.new.begun }
        ensures none { result ≡ false → front_left self.old ≡ [] }
    {
        if !self.begun.as_slice().is_empty() {
            return true;
        }
        if let Some((sector, rest)) = self.sectors.split_first() {
            self.begun = Begun::of(&sector.to_le_bytes());
            self.sectors = rest;
            return true;
        }
        if let Some((group, rest)) = self.groups.split_first() {
            self.begun = Begun::of(&(group.as_slice().len() as u16).to_le_bytes());
            self.sectors = group.as_slice();
            self.groups = rest;
            return true;
        }
        if let Some((triangle, rest)) = self.triangles.split_first() {
            self.begun = Begun::of(&triangle_of(triangle));
            self.triangles = rest;
            return true;
        }
        if let Some((ray, rest)) = self.rays.split_first() {
            self.begun = Begun::of(&ray_of(ray));
            self.rays = rest;
            return true;
        }
        if let Some((tree, rest)) = self.lengths.split_first() {
            let many = tree.as_bytes().len() as u64;
            self.begun = Begun::of(&many.to_le_bytes());
            self.lengths = rest;
            return true;
        }
        false
    }

    /// Gives bytes of the record that comes first, as many as fit behind that place of the buffer.
    fn give(&mut self, buf: &mut [u8], at: usize) -> usize
        requires room { at < length buf.old }
        requires some { 0 < length self.old.begun }
        ensures given { take at buf.old ++ front_left self.old ≡ take (at + result) buf.new ++ front_left self.new }
        ensures some { 0 < result }
        ensures fits { at + result ≤ length buf.old }
        ensures others { drop (at + result) buf.new ≡ drop (at + result) buf.old }
    {
        let begun = self.begun.as_slice();
        let count = copy_front(begun, buf, at);
        self.begun.skip(count);
        count
    }

    /// Puts what comes next at the beginning of the buffer, as much as fits.
    pub fn fill(&mut self, buf: &mut [u8]) -> usize
        ensures given { front_left self.old ≡ take result buf.new ++ front_left self.new }
        ensures filled { result ≡ min (length buf.old) (length (front_left self.old)) }
        ensures others { drop result buf.new ≡ drop result buf.old }
    {
        let mut given = 0;
        while given < buf.len() {
            if !self.refill() {
                break;
            }
            given += self.give(buf, given);
        }
        given
    }
}
