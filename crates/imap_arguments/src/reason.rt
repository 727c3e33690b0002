// Why a command can't be read.
ghost use Rattle.std.specs.Prelude.{◌≡◌, ◌≤◌};
ghost use Rattle.imap_arguments.specs.Reasons.{reason_number};

use std::alloc::{AllocError, AllocFailed};

/// What is wrong with a command.
#[derive(Clone, Copy, Debug, PartialEq, Eq)]
pub enum Reason {
    NoTag,
    TooLong,
    NoCommand,
    UnknownCommand,
    Missing,
    NotUnderstood,
    TextBehind,
    Nul,
    OutOfRange,
}

impl Reason {
    /// Its number in a reply, from 1 to 9.
    pub fn number(self) -> u8
        ensures value { result ≡ reason_number self }
        ensures low { 1 ≤ result }
        ensures high { result ≤ 9 }
    {
        match self {
            Reason::NoTag => 1,
            Reason::TooLong => 2,
            Reason::NoCommand => 3,
            Reason::UnknownCommand => 4,
            Reason::Missing => 5,
            Reason::NotUnderstood => 6,
            Reason::TextBehind => 7,
            Reason::Nul => 8,
            Reason::OutOfRange => 9,
        }
    }
}

/// Nothing is read: memory ran out, or the text is bad.
#[derive(Clone, Copy, Debug, PartialEq, Eq)]
pub enum Refused {
    Memory,
    Bad(Reason),
}

impl From<AllocError> for Refused {
    ghost use Rattle.imap_arguments.specs.declared.reason.Refused.TheVariants.{Memory};

    ghost from_gives = { λ _ e. e ≡ Memory };

    fn from(_: AllocError) -> Refused {
        Refused::Memory
    }
}

impl<T: Drop> From<AllocFailed<T>> for Refused {
    ghost use Rattle.imap_arguments.specs.declared.reason.Refused.TheVariants.{Memory};

    ghost from_gives = { λ _ e. e ≡ Memory };

    fn from(_: AllocFailed<T>) -> Refused {
        Refused::Memory
    }
}
