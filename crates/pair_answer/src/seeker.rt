//! The notice that ends a walk once it found one of those for which it is made.

ghost use Rattle.std.specs.Prelude.{◌≡◌, [], true, MatchOption, Some, slice_get, ⊤};

use pair_budget::Notice;

/// The place of the first of these that is this number.
fn place_of(numbers: &[u16], number: u16) -> Option<usize>
    ensures { MatchOption result ⊤ (λ i. slice_get numbers.now i ≡ Some number) }
{
    for i in 0..numbers.len() {
        if numbers[i] == number {
            return Some(i);
        }
    }
    None
}

/// The source of a walk, its targets, and the place of the one that it found first.
#[derive(Drop)]
pub struct Seeker<'a> {
    pub(crate) source: u16,
    pub(crate) targets: &'a [u16],
    pub(crate) hit: Option<usize>,
}

impl<'a> Notice for Seeker<'a> {
    ghost use Rattle.std.specs.Prelude.{[], true, ⊤};
    ghost use Rattle.pair_answer.specs.Seeking.{IsOwnPair, hits, pair_told};

    type Tag = (u16, &'a [u16]);

    ghost tag = { λ s. (s.source, s.targets) };

    ghost may_hear = { λ _ _. ⊤ };

    ghost may_settle = { λ _. true };

    ghost claims = { λ _. [] };

    ghost mates = { λ s a b. IsOwnPair s.source a b };

    ghost marks = { λ s. hits s.source s.targets.now s.hit };

    ghost seen = { λ s. pair_told s.source s.targets.now s.hit };

    ghost looks = { λ _. [] };

    /// The walk of `a` found `b`.
    fn found(&mut self, a: u16, b: u16) {
        if self.hit.is_none() && a == self.source {
            self.hit = place_of(self.targets, b);
        }
    }

    fn settled(&mut self, _a: u16) -> bool {
        match self.hit {
            Some(place) => place < self.targets.len(),
            None => false,
        }
    }
}
