//! The nodes of all trees, one tree behind the other, in pieces of any size. Nothing here takes memory.

ghost use Rattle.std.specs.Prelude.{◌≡◌, ◌+◌, ◌<◌, ◌≤◌, [], ◌++◌, length, take, drop, min, false, IsTrue};
ghost use Rattle.certificates.specs.CertExact.Pieces.{trees_left};

use block_evidence::sight_tree::Nodes;
use cert_format::pieces::copy_front;
use std::marker::Model;

/// What is still to give of the trees: of the nodes of one, and whole trees.
#[derive(Drop)]
pub struct TreePieces<'a> {
    pub nodes: &'a [u8],
    pub trees: &'a [Nodes],
}

impl<'a> Model for TreePieces<'a> {
    ghost use Rattle.certificates.specs.CertExact.Pieces.{TreesParts};

    ghost Value = { TreesParts };

    ghost view = { λ t. record { nodes = t.nodes.now; trees = t.trees.now } };
}

impl<'a> TreePieces<'a> {
    /// Begins the next tree that has a node where the last one was given whole. False where nothing is left.
    fn refill(&mut self) -> bool
        ensures bytes { trees_left self.new ≡ trees_left self.old }
        ensures some { IsTrue result → 0 < length self.new.nodes }
        ensures none { result ≡ false → trees_left self.old ≡ [] }
    {
        while self.nodes.is_empty() {
            if let Some((tree, rest)) = self.trees.split_first() {
                self.nodes = tree.as_bytes();
                self.trees = rest;
            } else {
                return false;
            }
        }
        true
    }

    /// Gives bytes of the tree that comes first, as many as fit behind that place of the buffer.
    fn give(&mut self, buf: &mut [u8], at: usize) -> usize
        requires room { at < length buf.old }
        requires some { 0 < length self.old.nodes }
        ensures given { take at buf.old ++ trees_left self.old ≡ take (at + result) buf.new ++ trees_left self.new }
        ensures some { 0 < result }
        ensures fits { at + result ≤ length buf.old }
        ensures others { drop (at + result) buf.new ≡ drop (at + result) buf.old }
    {
        let count = copy_front(self.nodes, buf, at);
        let (_, rest) = self.nodes.split_at(count);
        self.nodes = rest;
        count
    }

    /// Puts what comes next at the beginning of the buffer, as much as fits.
    pub fn fill(&mut self, buf: &mut [u8]) -> usize
        ensures given { trees_left self.old ≡ take result buf.new ++ trees_left self.new }
        ensures filled { result ≡ min (length buf.old) (length (trees_left self.old)) }
        ensures others { drop result buf.new ≡ drop result buf.old }
    {
        let mut given = 0;
        while given < buf.len() {
            if !self.refill() {
                break;
            }
            given += self.give(buf, given);
        }
        given
    }
}
