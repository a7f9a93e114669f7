//! Numbers that look like chance.

ghost use Rattle.std.specs.Prelude.{◌<◌};

/// Marsaglia's xorshift: numbers that look like chance, and are the same in each run.
#[derive(Drop)]
pub struct Dice {
    state: u64,
}

impl Dice {
    /// Dice that begin with this state, which isn't 0.
    pub fn new(state: u64) -> Self {
        Dice { state }
    }

    /// A number below `count`, or 0.
    pub fn below(&mut self, count: u64) -> u64
        ensures { 0 < count → result < count }
    {
        self.state ^= self.state << 13;
        self.state ^= self.state >> 7;
        self.state ^= self.state << 17;
        if count == 0 { 0 } else { self.state % count }
    }
}
