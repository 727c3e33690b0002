// A crash in a call, replayed from the log.
ghost use Rattle.std.specs.Prelude.{◌≡◌, ◌≤◌, ◌<◌, ◌∷◌, ◌++◌, ◌%◌, ◌/◌, List, ℕ, [], true, length, take, slice_index_or, IfOk, OnOk};
ghost use Rattle.file_model.specs.Disk.{Disk};
ghost use Rattle.file_model.specs.Kept.{IsSound};
ghost use Rattle.mem_host.specs.Deeds.{call_of_step, event_of_deed};
ghost use Rattle.mem_host.specs.declared.log.Deed.{Deed as DeedData};
ghost use Rattle.mem_host.specs.Events.{Event, did};
ghost use Rattle.mem_host.specs.Replay.{first_world, world_after};
ghost use Rattle.mem_host.specs.Fitted.{FitsAt, AllFit};
ghost use Rattle.mem_host.specs.Drafts.{AreDrafts};
ghost use Rattle.mem_host.specs.Crashes.{Crash as FoundCrash, between_calls, in_call, is_sync, in_say, in_event, is_call, calls_in, crash_in, bytes_left, image_left};
ghost use Rattle.mem_host.specs.Finding.{events_of, Finds, FindsAfter, CanGoOn, AreContents, Holds};

use crate::draft::{Draft, leave_content};
use crate::log::{Deed, Step};
use crate::remains::Remains;
use std::alloc::{AllocError, Global};

/// A disk with all that the crash may leave of it, the bytes said, and what is left of the pick.
#[derive(Drop)]
pub(crate) struct Crash<'a> {
    pub(crate) remains: Remains<'a>,
    pub(crate) said: Vec<u8>,
    pub(crate) pick: u64,
}

fn is_call(deed: &Deed) -> bool
    ensures { result ≡ is_call (event_of_deed deed.now) }
{
    match deed {
        Deed::PutDirectory(_) => false,
        Deed::PutFile(_, _) => false,
        Deed::Found(_) => false,
        _ => true,
    }
}

// A sync takes images away; every other call leaves those from before it too.
fn is_sync(step: &Step) -> bool
    ensures { result ≡ is_sync (call_of_step step.now) }
{
    match step {
        Step::Sync(_) => true,
        Step::SyncDir(_) => true,
        _ => false,
    }
}

// Where the call of a number stands among the deeds, or their count.
fn place_of_call(deeds: &[Deed], call: u64) -> usize
    ensures within { result ≤ length deeds.now }
    ensures before { calls_in (events_of (take result deeds.now)) ≤ call }
    ensures is { (d : DeedData) → result < length deeds.now → (call ≡ calls_in (events_of (take result deeds.now))) × (is_call (event_of_deed (slice_index_or deeds.now result d)) ≡ true) }
{
    let mut calls = 0;
    for (at, deed) in deeds.iter().enumerate() {
        if is_call(deed) {
            if calls == call {
                return at;
            }
            calls += 1;
        }
    }
    deeds.len()
}

impl<'a> Crash<'a> {
    // Before anything was asked.
    fn new(alloc: Global, pick: u64) -> Crash<'a>
        ensures finds { FindsAfter result [] }
        ensures pick { result.pick ≡ pick }
    {
        Crash {
            remains: Remains::new(alloc),
            said: Vec::new(alloc),
            pick,
        }
    }

    // Goes on over a deed.
    fn go_on(&mut self, alloc: Global, deed: &'a Deed) -> Result<(), AllocError>
        requires { CanGoOn (event_of_deed deed.now) self.old }
        ensures finds { OnOk result ((earlier : List Event) → FitsAt (event_of_deed deed.now) earlier → FindsAfter self.old earlier → FindsAfter self.new (event_of_deed deed.now ∷ earlier)) }
        ensures pick { self.new.pick ≡ self.old.pick }
    {
        match deed {
            Deed::PutDirectory(path) => self.remains.put_directory(alloc, path.as_str()),
            Deed::PutFile(path, bytes) => {
                self.remains
                    .put_file(alloc, path.as_str(), bytes.as_slice())
            }
            Deed::Found(bytes) => {
                self.said = Vec::from_slice(alloc, bytes.as_slice())?;
                Ok(())
            }
            Deed::Did(step) => self.remains.step(alloc, step.request()),
            Deed::Said(bytes) => self.said.extend_from_slice(bytes.as_slice()),
            Deed::SayFailed(bytes, count) => {
                self.said
                    .extend_from_slice(&bytes[..bytes.len().min(*count)])
            }
            _ => Ok(()),
        }
    }

    // On that side of the call which has the images of both.
    fn stop_in_step(&mut self, alloc: Global, step: &'a Step) -> Result<(), AllocError>
        requires { CanGoOn (did (call_of_step step.now)) self.old }
        ensures { OnOk result ((earlier : List Event) → FitsAt (did (call_of_step step.now)) earlier → FindsAfter self.old earlier → Finds self.new (in_call (call_of_step step.now) (world_after earlier) self.old.pick)) }
    {
        if is_sync(step) {
            return Ok(());
        }
        self.remains.step(alloc, step.request())?;
        Ok(())
    }

    // A part of the bytes is said.
    fn stop_in_say(&mut self, bytes: &[u8]) -> Result<(), AllocError>
        ensures { OnOk result ((earlier : List Event) → FindsAfter self.old earlier → Finds self.new (in_say bytes.now (world_after earlier) self.old.pick)) }
    {
        let choices = bytes.len() as u64 + 1;
        let count = (self.pick % choices) as usize;
        self.said.extend_from_slice(&bytes[..count])?;
        self.pick /= choices;
        Ok(())
    }

    // Stops in the call of a deed.
    fn stop_in(&mut self, alloc: Global, deed: &'a Deed) -> Result<(), AllocError>
        requires { CanGoOn (event_of_deed deed.now) self.old }
        ensures { OnOk result ((earlier : List Event) → FitsAt (event_of_deed deed.now) earlier → FindsAfter self.old earlier → Finds self.new (in_event (event_of_deed deed.now) (world_after earlier) self.old.pick)) }
    {
        match deed {
            Deed::Did(step) => self.stop_in_step(alloc, step),
            Deed::Refused(step) => self.stop_in_step(alloc, step),
            Deed::Said(bytes) => self.stop_in_say(bytes.as_slice()),
            Deed::SayFailed(bytes, _) => self.stop_in_say(bytes.as_slice()),
            _ => Ok(()),
        }
    }
}

// Goes on over deeds.
fn replay<'a>(alloc: Global, deeds: &'a [Deed], pick: u64) -> Result<Crash<'a>, AllocError>
    requires { AllFit (events_of deeds.now) }
    ensures finds { IfOk result (λ crash. FindsAfter crash (events_of deeds.now)) }
    ensures pick { IfOk result (λ crash. crash.pick ≡ pick) }
{
    let mut crash = Crash::new(alloc, pick);
    for deed in deeds.iter() {
        crash.go_on(alloc, deed)?;
    }
    Ok(crash)
}

/// A crash in the call of a number, or now if there was none.
pub(crate) fn crash_in<'a>(
    alloc: Global,
    deeds: &'a [Deed],
    call: u64,
    pick: u64,
) -> Result<Crash<'a>, AllocError>
    requires { AllFit (events_of deeds.now) }
    ensures { IfOk result (λ crash. Finds crash (crash_in call (events_of deeds.now) pick)) }
{
    let at = place_of_call(deeds, call);
    let mut crash = replay(alloc, &deeds[..at], pick)?;
    if at < deeds.len() {
        crash.stop_in(alloc, &deeds[at])?;
    }
    Ok(crash)
}

// The content of each file, as the pick leaves it.
fn leave_contents(alloc: Global, files: &[Draft<'_>], pick: u64) -> Result<Vec<Vec<u8>>, AllocError>
    ensures { IfOk result (λ contents. (disk : Disk) → AreDrafts files.now disk → AreContents contents.items (length files.now) (bytes_left disk.files pick)) }
{
    let mut contents = Vec::with_capacity(alloc, files.len())?;
    let mut left = pick;
    for file in files.iter() {
        let (content, rest) = leave_content(alloc, file, left)?;
        contents.push(content)?;
        left = rest;
    }
    Ok(contents)
}

/// Leaves the names that the pick tells as the durable ones, and gives the contents.
pub(crate) fn leave(alloc: Global, crash: &mut Crash<'_>) -> Result<Vec<Vec<u8>>, AllocError>
    ensures holds { IfOk result (λ contents. (found : FoundCrash) → IsSound found.disk → Finds crash.old found → Holds crash.new.remains.durable contents.items (image_left found.disk found.pick)) }
    ensures said { crash.new.said ≡ crash.old.said }
{
    let choices = crash.remains.pending.len() as u64 + 1;
    let count = (crash.pick % choices) as usize;
    crash.remains.leave_names(alloc, count)?;
    leave_contents(alloc, crash.remains.files.as_slice(), crash.pick / choices)
}
