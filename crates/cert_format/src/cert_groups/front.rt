//! The front of a certificate of version 2, its header and its groups, in pieces of any size. Nothing here takes memory.

ghost use Rattle.std.specs.Prelude.{◌≡◌, ◌+◌, ◌<◌, ◌≤◌, [], ◌++◌, length, take, drop, min, false, IsTrue};
ghost use Rattle.block_evidence.specs.SightTree.Spelling.{u16};
ghost use Rattle.cert_format.specs.Grammar.{AreSmall};
ghost use Rattle.cert_format.specs.CertGroups.Grammar.{IsTwoInOrder, grouped_front_bytes, grouped_header_bytes};
ghost use Rattle.cert_format.specs.CertGroups.Pieces.{front_left};

use crate::cert_groups::cert::{CertTwo, Group};
use crate::pieces::{Begun, copy_front};
use crate::spelled::counts_of;
use crate::{Counts, Sizes};
use std::marker::Model;

/// The magic, version 2, the sizes, and how many groups there are.
fn front_of(sizes: Sizes, groups: u16) -> [u8; 14]
    ensures spelled { result ≡ grouped_front_bytes sizes groups }
    ensures small { AreSmall sizes }
{
    let [sectors, sectors_high] = sizes.sectors.to_le_bytes();
    let [points, points_high] = sizes.points.to_le_bytes();
    let [lines, lines_high] = sizes.lines.to_le_bytes();
    let [count, count_high] = groups.to_le_bytes();
    let [d, s, c, t] = *b"DSCT";
    [
        d,
        s,
        c,
        t,
        2,
        0,
        sectors,
        sectors_high,
        points,
        points_high,
        lines,
        lines_high,
        count,
        count_high,
    ]
}

/// The header of a certificate of version 2.
pub fn header_of(cert: &CertTwo, sizes: Sizes) -> [u8; 30]
    requires { IsTwoInOrder sizes cert.now }
    ensures spelled { result ≡ grouped_header_bytes sizes cert.now }
    ensures small { AreSmall sizes }
{
    let front = front_of(sizes, cert.groups.as_slice().len() as u16);
    let counts = counts_of(Counts {
        triangles: cert.cert.triangles().len() as u32,
        rays: cert.cert.rays().len() as u32,
        listed: cert.listed.as_slice().len() as u32,
        trees: cert.cert.trees().len() as u32,
    });
    let mut header = [0; 30];
    header[..14].copy_from_slice(&front);
    header[14..].copy_from_slice(&counts);
    header
}

/// What is still to give of a front: of a record, of the sectors of a group, and whole groups.
#[derive(Drop)]
pub struct Front<'a> {
    pub begun: Begun,
    pub sectors: &'a [u16],
    pub groups: &'a [Group],
}

impl<'a> Model for Front<'a> {
    ghost use Rattle.std.specs.List.{AllByRecursion};
    ghost use Rattle.std.specs.Prelude.{ℕ, List, length, ◌<◌, ◌^◌};
    ghost use Rattle.cert_format.specs.CertGroups.Pieces.{FrontParts};

    ghost Value = { FrontParts };

    ghost view = { λ f. record { begun = f.begun; sectors = f.sectors.now; groups = f.groups.now } };

    ghost invariant = { λ f. AllByRecursion (λ (g : List ℕ). length g < 2 ^ 16) f.groups.now };
}

impl<'a> Front<'a> {
    /// Begins the next record where the last one was given whole. False where nothing is left.
    fn refill(&mut self) -> bool
        ensures bytes { front_left self.new ≡ front_left self.old }
        ensures some { IsTrue result → 0 < length self.new.begun }
        ensures none { result ≡ false → front_left self.old ≡ [] }
    {
        if !self.begun.as_slice().is_empty() {
            return true;
        }
        if let Some((sector, rest)) = self.sectors.split_first() {
            self.begun = Begun::of(&sector.to_le_bytes());
            self.sectors = rest;
            return true;
        }
        if let Some((group, rest)) = self.groups.split_first() {
            self.begun = Begun::of(&(group.as_slice().len() as u16).to_le_bytes());
            self.sectors = group.as_slice();
            self.groups = rest;
            return true;
        }
        false
    }

    /// Gives bytes of the record that comes first, as many as fit behind that place of the buffer.
    fn give(&mut self, buf: &mut [u8], at: usize) -> usize
        requires room { at < length buf.old }
        requires some { 0 < length self.old.begun }
        ensures given { take at buf.old ++ front_left self.old ≡ take (at + result) buf.new ++ front_left self.new }
        ensures some { 0 < result }
        ensures fits { at + result ≤ length buf.old }
        ensures others { drop (at + result) buf.new ≡ drop (at + result) buf.old }
    {
        let begun = self.begun.as_slice();
        let count = copy_front(begun, buf, at);
        self.begun.skip(count);
        count
    }

    /// Puts what comes next at the beginning of the buffer, as much as fits.
    pub fn fill(&mut self, buf: &mut [u8]) -> usize
        ensures given { front_left self.old ≡ take result buf.new ++ front_left self.new }
        ensures filled { result ≡ min (length buf.old) (length (front_left self.old)) }
        ensures others { drop result buf.new ≡ drop result buf.old }
    {
        let mut given = 0;
        while given < buf.len() {
            if !self.refill() {
                break;
            }
            given += self.give(buf, given);
        }
        given
    }
}
