//! How many words a command takes, its name included.

ghost use Rattle.std.specs.Prelude.{◌≡◌};
ghost use Rattle.command_table.specs.Arity.{admits};

/// How many words a command takes, its name included.
#[derive(Clone, Copy)]
pub(crate) enum Arity {
    Exactly(usize),
    AtLeast(usize),
}

impl Arity {
    /// Whether a request of so many words has as many as the command takes.
    pub(crate) fn admits(self, words: usize) -> bool
        ensures { result ≡ admits self words }
    {
        match self {
            Arity::Exactly(number) => words == number,
            Arity::AtLeast(number) => words >= number,
        }
    }
}
