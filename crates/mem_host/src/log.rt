// What the host was asked, with its bytes. From this a crash is replayed.
ghost use Rattle.std.specs.Prelude.{◌≡◌, ◌++◌, ◌∷◌, [], map, reverse, IfOk, IfSome, true, false};
ghost use Rattle.mem_host.specs.Notes.{call_of, event_of};
ghost use Rattle.mem_host.specs.Deeds.{call_of_step, event_of_deed};

use crate::record::{Note, Record, Request};
use std::alloc::{AllocError, Global};
use std::marker::Model;

/// A call on the files that changes them.
#[derive(Drop)]
pub(crate) enum Step {
    Make(String),
    MakeDir(String),
    WriteAt(String, u64, Vec<u8>),
    Cut(String, u64),
    Sync(String),
    SyncDir(String),
    Rename(String, String),
    Remove(String),
}

/// What was asked, and what came of it.
#[derive(Drop)]
pub(crate) enum Deed {
    PutDirectory(String),
    PutFile(String, Vec<u8>),
    Found(Vec<u8>),
    Looked,
    Did(Step),
    Refused(Step),
    Heard(usize, Vec<u8>),
    HearFailed,
    Said(Vec<u8>),
    SayFailed(Vec<u8>, usize),
}

/// The deeds so far, the oldest first. Where no memory was found for one, that is lost, and the log with it.
#[derive(Drop)]
pub(crate) struct Log {
    record: Record,
    deeds: Vec<Deed>,
    lost: bool,
}

impl Model for Log {
    ghost use Rattle.std.specs.Prelude.{List};
    ghost use Rattle.mem_host.specs.Events.{Event};

    ghost Value = { List Event };

    ghost use Rattle.mem_host.specs.Log.{logged, IsLog};

    ghost view = { logged };

    ghost invariant = { IsLog };
}

impl Step {
    fn of(alloc: Global, request: Request<'_>) -> Result<Step, AllocError>
        ensures { IfOk result (λ step. call_of_step step ≡ call_of request.entry) }
    {
        Ok(match request {
            Request::Make(path) => Step::Make(String::from_str(alloc, path)?),
            Request::MakeDir(path) => Step::MakeDir(String::from_str(alloc, path)?),
            Request::WriteAt(path, from, bytes) => Step::WriteAt(
                String::from_str(alloc, path)?,
                from,
                Vec::from_slice(alloc, bytes)?,
            ),
            Request::Cut(path, length) => Step::Cut(String::from_str(alloc, path)?, length),
            Request::Sync(path) => Step::Sync(String::from_str(alloc, path)?),
            Request::SyncDir(path) => Step::SyncDir(String::from_str(alloc, path)?),
            Request::Rename(from, to) => Step::Rename(
                String::from_str(alloc, from)?,
                String::from_str(alloc, to)?,
            ),
            Request::Remove(path) => Step::Remove(String::from_str(alloc, path)?),
        })
    }

    pub(crate) fn request(&self) -> Request<'_>
        ensures { call_of result ≡ call_of_step self.now }
    {
        match self {
            Step::Make(path) => Request::Make(path.as_str()),
            Step::MakeDir(path) => Request::MakeDir(path.as_str()),
            Step::WriteAt(path, from, bytes) => {
                Request::WriteAt(path.as_str(), *from, bytes.as_slice())
            }
            Step::Cut(path, length) => Request::Cut(path.as_str(), *length),
            Step::Sync(path) => Request::Sync(path.as_str()),
            Step::SyncDir(path) => Request::SyncDir(path.as_str()),
            Step::Rename(from, to) => Request::Rename(from.as_str(), to.as_str()),
            Step::Remove(path) => Request::Remove(path.as_str()),
        }
    }
}

fn deed_of(alloc: Global, note: &Note<'_>) -> Result<Deed, AllocError>
    ensures { IfOk result (λ deed. event_of_deed deed ≡ event_of note.now) }
{
    Ok(match *note {
        Note::PutDirectory(path) => Deed::PutDirectory(String::from_str(alloc, path)?),
        Note::PutFile(path, bytes) => Deed::PutFile(
            String::from_str(alloc, path)?,
            Vec::from_slice(alloc, bytes)?,
        ),
        Note::Found(bytes) => Deed::Found(Vec::from_slice(alloc, bytes)?),
        Note::Looked => Deed::Looked,
        Note::Did(request) => Deed::Did(Step::of(alloc, request)?),
        Note::Refused(request) => Deed::Refused(Step::of(alloc, request)?),
        Note::Heard(room, piece) => Deed::Heard(room, Vec::from_slice(alloc, piece)?),
        Note::HearFailed => Deed::HearFailed,
        Note::Said(bytes) => Deed::Said(Vec::from_slice(alloc, bytes)?),
        Note::SayFailed(bytes, count) => Deed::SayFailed(Vec::from_slice(alloc, bytes)?, count),
    })
}

// Keeps a deed, and tells whether it did.
fn keep(deeds: &mut Vec<Deed>, deed: Result<Deed, AllocError>, event: &Note<'_>) -> bool
    requires { IfOk deed (λ deed. event_of_deed deed ≡ event_of event.now) }
    ensures { result ≡ true → map event_of_deed deeds.new.items ≡ map event_of_deed deeds.old.items ++ event_of event.now ∷ [] }
{
    match deed {
        Ok(deed) => deeds.push(deed).is_ok(),
        Err(_) => false,
    }
}

impl Log {
    pub(crate) fn new(alloc: Global) -> Log
        ensures { result ≡ [] }
    {
        Log {
            record: Record::new(),
            deeds: Vec::new(alloc),
            lost: false,
        }
    }

    pub(crate) fn add(&mut self, alloc: Global, note: &Note<'_>)
        ensures { self.new ≡ event_of note.now ∷ self.old }
    {
        self.record.add(note);
        if !keep(&mut self.deeds, deed_of(alloc, note), note) {
            self.lost = true;
        }
    }

    /// The deeds, unless one was lost.
    pub(crate) fn deeds(&self) -> Option<&[Deed]>
        ensures { IfSome result (λ deeds. map event_of_deed deeds.now ≡ reverse self.now) }
    {
        if self.lost {
            return None;
        }
        Some(self.deeds.as_slice())
    }
}
