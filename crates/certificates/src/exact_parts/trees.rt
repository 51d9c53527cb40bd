//! How many bytes are still to come of each tree.

ghost use Rattle.std.specs.Prelude.{◌≡◌, [], IfOk, OnErr};
ghost use Rattle.certificates.specs.ExactParts.Left.{first_or_zero, put_length, settled, shorter};

use sight_names::Memory;
use std::alloc::Global;
use std::marker::Model;

/// How many bytes each tree takes whose length has come, and the first one that isn't passed: of that so many are left. A
/// contract sees the number of that tree, and what is left of it and of those behind it.
#[derive(Drop)]
pub struct Trees {
    source: usize,
    lengths: Vec<u64>,
}

impl Model for Trees {
    ghost use Rattle.std.specs.Prelude.{◌≤◌, drop, length};
    ghost use Rattle.certificates.specs.ExactParts.Left.{TreesLeft};

    ghost Value = { TreesLeft };

    ghost view = { λ t. record { source = t.source; lengths = drop t.source t.lengths.items } };

    ghost invariant = { λ t. t.source ≤ length t.lengths.items };
}

impl Trees {
    /// No length has come.
    pub fn new(alloc: Global) -> Trees
        ensures { result ≡ record { source = 0; lengths = [] } }
    {
        Trees {
            source: 0,
            lengths: Vec::new(alloc),
        }
    }

    /// The number of the first tree.
    pub fn source(&self) -> usize
        ensures { result ≡ self.now.source }
    {
        self.source
    }

    /// How many bytes are left of the first tree, 0 where there is none.
    pub fn first(&self) -> u64
        ensures { result ≡ first_or_zero self.now.lengths }
    {
        match self.lengths.get(self.source) {
            Some(length) => *length,
            None => 0,
        }
    }

    /// The length of the next tree.
    pub fn push(&mut self, length: u64) -> Result<(), Memory>
        ensures pushed { IfOk result (λ _. self.new ≡ put_length length self.old) }
        ensures err { OnErr result (self.new ≡ self.old) }
    {
        self.lengths.push(length)?;
        Ok(())
    }

    /// So many bytes of the first tree were taken.
    pub fn take(&mut self, bytes: usize)
        ensures { self.new ≡ shorter bytes self.old }
    {
        let source = self.source;
        if source < self.lengths.len() {
            self.lengths[source] = self.lengths[source].saturating_sub(bytes as u64);
        }
    }

    /// Passes the trees of which nothing is left.
    pub fn settle(&mut self)
        ensures { self.new ≡ settled self.old }
    {
        for at in self.source..self.lengths.len() {
            if self.lengths[at] > 0 {
                self.source = at;
                return;
            }
        }
        self.source = self.lengths.len();
    }
}
