// The seven drivers, and what each declares to keep.
ghost use Rattle.std.specs.Prelude.{◌≡◌, true, false};
ghost use Rattle.mail_types.specs.Drivers.{keeps_of, every_flag};

use crate::flags::Flags;

/// A mailbox format.
#[derive(Clone, Copy, Debug, PartialEq, Eq)]
pub enum Driver {
    Unix,
    Mmdf,
    Mbx,
    Mtx,
    Tenex,
    Mh,
    Mix,
}

/// What a driver keeps of a stamp: all of it, the instant in UTC, or nothing.
#[derive(Clone, Copy, Debug, PartialEq, Eq)]
pub enum DateKeep {
    Zone,
    Second,
    Epoch,
}

/// The form in which a driver keeps texts.
#[derive(Clone, Copy, Debug, PartialEq, Eq)]
pub enum TextKeep {
    Exact,
    Lines,
    Unix,
    Mmdf,
}

/// What a driver declares to keep: whether UIDs last, the number of keywords, the flags, the forms of dates and texts, and
/// whether it has modification numbers.
#[derive(Clone, Copy, Debug, PartialEq, Eq)]
pub struct Keeps {
    pub uids: bool,
    pub words: u32,
    pub flags: Flags,
    pub date: DateKeep,
    pub text: TextKeep,
    /// Whether messages have modification numbers (RFC 7162, section 3.1).
    pub numbers: bool,
}

/// A limit that a refusal names: of a file, of the text of one message, or of the number of messages.
#[derive(Clone, Copy, Debug, PartialEq, Eq)]
pub enum Limit {
    File,
    Text,
    Records,
}

const EVERY_FLAG: Flags = Flags {
    seen: true,
    answered: true,
    flagged: true,
    deleted: true,
    draft: true,
    old: true,
};

// What a driver keeps whose UIDs last.
fn lasting(date: DateKeep, text: TextKeep, numbers: bool) -> Keeps
    ensures { result ≡ record { uids = true; words = 30; flags = every_flag true; date = date; text = text; numbers = numbers } }
{
    Keeps {
        uids: true,
        words: 30,
        flags: EVERY_FLAG,
        date,
        text,
        numbers,
    }
}

// What a driver keeps that has room for neither UIDs nor keywords nor modification numbers.
fn passing(flags: Flags, date: DateKeep, text: TextKeep) -> Keeps
    ensures { result ≡ record { uids = false; words = 0; flags = flags; date = date; text = text; numbers = false } }
{
    Keeps {
        uids: false,
        words: 0,
        flags,
        date,
        text,
        numbers: false,
    }
}

/// What a driver declares to keep.
pub fn keeps_of(driver: Driver) -> Keeps
    ensures { result ≡ keeps_of driver }
{
    match driver {
        Driver::Unix => lasting(DateKeep::Second, TextKeep::Unix, false),
        Driver::Mmdf => lasting(DateKeep::Second, TextKeep::Mmdf, false),
        Driver::Mbx => lasting(DateKeep::Zone, TextKeep::Exact, false),
        Driver::Mix => lasting(DateKeep::Zone, TextKeep::Exact, true),
        Driver::Mtx => passing(EVERY_FLAG, DateKeep::Zone, TextKeep::Exact),
        Driver::Tenex => passing(EVERY_FLAG, DateKeep::Zone, TextKeep::Lines),
        Driver::Mh => passing(Flags::none(), DateKeep::Epoch, TextKeep::Lines),
    }
}
