//! Up to six ends.

ghost use Rattle.std.specs.Prelude.{◌≡◌, ◌+◌, ◌<◌, ◌≤◌, ◌++◌, ◌∷◌, [], length};

use sight_names::{EndAt, Pt};
use std::marker::Model;

const NO_END: EndAt = EndAt {
    code: 0,
    at: Pt { x: 0, y: 0 },
};

/// At most six ends, in order.
#[derive(Drop)]
pub struct UpToSix {
    ends: [EndAt; 6],
    count: usize,
}

impl Model for UpToSix {
    ghost use Rattle.std.specs.Prelude.{List, take, ◌≤◌};
    ghost use Rattle.sight_names.specs.declared.names.EndAt.{EndAt as End};

    ghost Value = { List End };

    ghost view = { λ s. take s.count s.ends };

    ghost invariant = { λ s. s.count ≤ 6 };
}

impl UpToSix {
    /// No end.
    pub fn new() -> UpToSix
        ensures { result ≡ [] }
    {
        UpToSix {
            ends: [NO_END; 6],
            count: 0,
        }
    }

    /// The ends in order.
    pub fn as_slice(&self) -> &[EndAt]
        ensures value { result.now ≡ self.now }
        ensures few { length result.now ≤ 6 }
    {
        &self.ends[..self.count]
    }

    /// How many there are.
    pub fn len(&self) -> usize
        ensures { result ≡ length self.now }
    {
        self.as_slice().len()
    }

    /// Adds an end behind the others.
    pub fn push(&mut self, end: EndAt)
        requires { length self.old < 6 }
        ensures { self.new ≡ self.old ++ end ∷ [] }
    {
        self.ends[self.count] = end;
        self.count += 1;
    }

    /// Adds these ends behind the others.
    pub fn extend(&mut self, ends: &[EndAt])
        requires { length self.old + length ends.now ≤ 6 }
        ensures { self.new ≡ self.old ++ ends.now }
    {
        for end in ends {
            self.push(*end);
        }
    }
}
