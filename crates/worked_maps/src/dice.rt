//! Numbers that look random and are the same in each run (xorshift).

ghost use Rattle.std.specs.Prelude.{◌≢◌, ◌<◌};

#[derive(Drop)]
pub struct Dice {
    state: u64,
}

impl Dice {
    /// The dice that begin with this number.
    pub fn new(seed: u64) -> Dice {
        Dice {
            state: seed.wrapping_mul(0x9e37_79b9_7f4a_7c15) | 1,
        }
    }

    /// A number below `count`.
    pub fn roll(&mut self, count: u64) -> u64
        requires { count ≢ 0 }
        ensures { result < count }
    {
        self.state ^= self.state << 13;
        self.state ^= self.state >> 7;
        self.state ^= self.state << 17;
        (self.state >> 11) % count
    }

    /// A number from -10 to 10.
    pub fn jitter(&mut self) -> i16 {
        self.roll(21) as i16 - 10
    }
}
