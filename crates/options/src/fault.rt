//! Why the words of a command line say nothing that its program can do.

ghost use Rattle.std.specs.IoError.{error_kind};
ghost use Rattle.std.specs.Prelude.{◌≡◌, ◌≢◌};
ghost use Rattle.std.specs.declared.io.ErrorKind.TheVariants as io_kind;
ghost use Rattle.options.specs.Refusals.{HasStatus, TellsRefusal};
ghost use Rattle.options.specs.declared.fault.OptionsFault.TheVariants as options_fault;

use clap::error::ErrorKind;
use std::alloc::AllocError;
use std::io;
use thiserror::Error;

/// Why words say no options of a program.
#[derive(Debug, Drop, Error)]
pub enum OptionsFault {
    /// An option isn't known, has no value or another kind of value, or a needed one is missing; or help or the version
    /// was asked for.
    #[error("{0}")]
    Words(clap::Error),

    /// A number is out of its range.
    #[error("error: the value of --{0} is out of its range")]
    Range(&'static str),

    /// What is to be bound is no address.
    #[error("error: the value of --bind is no IP address, as 127.0.0.1 or ::1")]
    Address,

    /// There was no memory.
    #[error("out of memory")]
    Memory,
}

impl From<AllocError> for OptionsFault {
    ghost from_gives = { λ _ fault. fault ≡ options_fault.Memory };

    fn from(_error: AllocError) -> OptionsFault {
        OptionsFault::Memory
    }
}

impl From<clap::Error> for OptionsFault {
    ghost from_gives = { λ error fault. TellsRefusal error fault };

    fn from(error: clap::Error) -> OptionsFault {
        match error.kind() {
            ErrorKind::OutOfMemory => OptionsFault::Memory,
            _ => OptionsFault::Words(error),
        }
    }
}

impl OptionsFault {
    /// Prints the text where it belongs, and gives the program's status: 0 for help or the version that was asked for, 2 for
    /// words that say no options, and this one for want of memory.
    pub fn tell<R: Print + Eprint>(&self, rt: &R, program: &str, memory: u8) -> u8
        ensures { HasStatus memory self.now result }
    {
        match self {
            OptionsFault::Words(error) => {
                let _ = error.print(rt);
                if error.use_stderr() { 2 } else { 0 }
            }
            OptionsFault::Range(_) | OptionsFault::Address => {
                let _ = eprintln!(rt; "{self}");
                2
            }
            OptionsFault::Memory => {
                let _ = eprintln!(rt; "{program}: {self}");
                memory
            }
        }
    }
}

/// The status of a fault of the system: this one, or the other where memory was wanting.
pub fn status_of(fault: &io::Error, status: u8, memory: u8) -> u8
    ensures other { error_kind fault.now ≢ io_kind.OutOfMemory → result ≡ status }
    ensures memory { error_kind fault.now ≡ io_kind.OutOfMemory → result ≡ memory }
{
    match fault.kind() {
        io::ErrorKind::OutOfMemory => memory,
        _ => status,
    }
}
