// The record of what the host was asked. Contracts alone read it and it takes no memory,
// so that a call which finds no memory is on it too.
ghost use Rattle.std.specs.Prelude.{◌≡◌, List, [], ◌∷◌};
ghost use Rattle.std.specs.Borrow.{ftrue};
ghost use Rattle.mem_host.specs.Events.{Event};

use std::marker::Model;

/// A call on the files that changes them.
#[derive(Clone, Copy, Drop)]
pub(crate) enum Request<'a> {
    Make(&'a str),
    MakeDir(&'a str),
    WriteAt(&'a str, u64, &'a [u8]),
    Cut(&'a str, u64),
    Sync(&'a str),
    SyncDir(&'a str),
    Rename(&'a str, &'a str),
    Remove(&'a str),
}

/// What was asked, and what came of it.
#[derive(Clone, Copy, Drop)]
pub(crate) enum Note<'a> {
    PutDirectory(&'a str),
    PutFile(&'a str, &'a [u8]),
    Found(&'a [u8]),
    Looked,
    Did(Request<'a>),
    Refused(Request<'a>),
    Heard(usize, &'a [u8]),
    HearFailed,
    Said(&'a [u8]),
    SayFailed(&'a [u8], usize),
}

/// The events so far, the newest first.
#[derive(Drop)]
pub(crate) struct Record {
    pub(crate) ghost events: { List Event },
}

impl Model for Record {
    ghost also_owns = { λ _. ftrue };
}

impl Record {
    ghost use Rattle.mem_host.specs.Notes.{event_of};

    pub(crate) fn new() -> Record
        ensures { result.events ≡ [] }
    {
        Record {}
    }

    pub(crate) fn add(&mut self, _note: &Note<'_>)
        ensures { self.new.events ≡ event_of _note.now ∷ self.old.events }
    {}
}
