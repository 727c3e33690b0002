// The host: what its disk and its streams were asked, with the calls that fail.
ghost use Rattle.std.specs.Prelude.{◌≡◌, ◌∷◌, ◌-◌, ◌+◌, ◌^◌, [], List, ℕ, OnOk, OnErr, IfOk, None, false, min, not, option_map};
ghost use Rattle.std.specs.Borrow.{Bor};
ghost use Rattle.file_model.specs.Images.{Image, Agree, bytes_at, is_directory, nothing, file, directory, node_at};
ghost use Rattle.file_model.specs.Histories.{LeftSince, Now};
ghost use Rattle.file_model.specs.Kept.{IsAtRest};
ghost use Rattle.mem_host.specs.State.{history_of, seen_of, said_of, counts_call, IsFresh};
ghost use Rattle.mem_host.specs.Crashes.{crash_in, image_left};
ghost use Rattle.mem_host.specs.Finding.{Holds, IsRooted, CanRest};
ghost use Rattle.mem_host.specs.Replay.{first_world, IsUntouched};
ghost use Rattle.mem_host.specs.Putting.{NoFileAbove, with_node};

use crate::crash::{crash_in, leave};
use crate::input::Input;
use crate::mirror::Mirror;
use crate::names::Place;
use file_model::Failed;
use std::alloc::{AllocError, Global};
use std::collections::BTreeMap;
use std::marker::Model;

/// How often calls failed, and how many bytes were read. A count at its last value stays there.
#[derive(Drop)]
pub(crate) struct Counts {
    pub(crate) file: u64,
    pub(crate) hear: u64,
    pub(crate) say: u64,
    pub(crate) read: u64,
}

/// A host in memory: a disk, an input and an output, each of whose calls can be made to fail.
#[derive(Drop)]
pub struct MemHost {
    pub(crate) mirror: Mirror,
    pub(crate) input: Input,
    pub(crate) said: Vec<u8>,
    pub(crate) fails: Vec<u64>,
    pub(crate) calls: u64,
    pub(crate) counts: Counts,
}

impl Model for MemHost {
    ghost use Rattle.mem_host.specs.State.{State};

    ghost Value = { State };

    ghost use Rattle.mem_host.specs.Host.{state_of, IsHost};

    ghost view = { state_of };

    ghost invariant = { IsHost };
}

/// Counts a call, and tells whether it is none of those that fail.
pub(crate) fn begin_call(calls: &mut u64, fails: &[u64]) -> bool
    ensures runs { result ≡ not (counts_call fails.now calls.old) }
    ensures counted { calls.new ≡ min (calls.old + 1) (2 ^ 64 - 1) }
{
    let number = *calls;
    *calls = number.saturating_add(1);
    !fails.contains(&number)
}

/// Counts a call that failed.
pub(crate) fn fail(count: &mut u64) -> Failed
    ensures { count.new ≡ min (count.old + 1) (2 ^ 64 - 1) }
{
    *count = count.saturating_add(1);
    Failed
}

impl MemHost {
    /// A host with nothing on its disk.
    pub fn new(
        alloc: Global,
        input: &[u8],
        cuts: &[usize],
        fails: &[u64],
    ) -> Result<MemHost, AllocError>
        ensures events { IfOk result (λ host. host.events ≡ []) }
        ensures history { IfOk result (λ host. history_of host ≡ first_world ∷ []) }
        ensures nothing { IfOk result (λ host. (q : List ℕ) → node_at (seen_of host) q ≡ nothing) }
        ensures input { IfOk result (λ host. host.coming ≡ record { bytes = input.now; cuts = cuts.now }) }
        ensures fails { IfOk result (λ host. host.fails ≡ fails.now) }
        ensures calls { IfOk result (λ host. host.calls ≡ 0) }
        ensures faults { IfOk result (λ host. host.faults ≡ record { file = 0; hear = 0; say = 0; read = 0 }) }
    {
        Ok(MemHost {
            mirror: Mirror::new(alloc),
            input: Input::new(
                Vec::from_slice(alloc, input)?,
                Vec::from_slice(alloc, cuts)?,
            ),
            said: Vec::new(alloc),
            fails: Vec::from_slice(alloc, fails)?,
            calls: 0,
            counts: Counts {
                file: 0,
                hear: 0,
                say: 0,
                read: 0,
            },
        })
    }

    /// Puts a file on the disk at rest, in the directories of its path, which are put too where they are missing.
    /// Where it fails some of these may stand, and each file is as it was.
    pub fn put_file(&mut self, path: &str, bytes: &[u8]) -> Result<(), AllocError>
        requires untouched { self.old.calls ≡ 0 }
        requires clear { NoFileAbove (seen_of self.old) path.now }
        requires no_directory { is_directory (seen_of self.old) path.now ≡ false }
        ensures stands { OnOk result ((q : List ℕ) → node_at (seen_of self.new) q ≡ with_node (seen_of self.old) path.now (file bytes.now) q) }
        ensures err { OnErr result ((q : List ℕ) → bytes_at (seen_of self.new) q ≡ bytes_at (seen_of self.old) q) }
        ensures same { self.new ≡ record self.old { events = self.new.events } }
        ensures at_rest { IsUntouched (history_of self.new) }
        ensures said { said_of self.new ≡ said_of self.old }
    {
        self.mirror.put_parents(path)?;
        self.mirror.put_file(path, bytes)
    }

    /// Puts a directory there in the same way, unless one stands.
    pub fn put_dir(&mut self, path: &str) -> Result<(), AllocError>
        requires untouched { self.old.calls ≡ 0 }
        requires clear { NoFileAbove (seen_of self.old) path.now }
        requires no_file { bytes_at (seen_of self.old) path.now ≡ None }
        ensures stands { OnOk result ((q : List ℕ) → node_at (seen_of self.new) q ≡ with_node (seen_of self.old) path.now directory q) }
        ensures err { OnErr result ((q : List ℕ) → bytes_at (seen_of self.new) q ≡ bytes_at (seen_of self.old) q) }
        ensures same { self.new ≡ record self.old { events = self.new.events } }
        ensures at_rest { IsUntouched (history_of self.new) }
        ensures said { said_of self.new ≡ said_of self.old }
    {
        self.mirror.put_parents(path)?;
        self.mirror.put_directory(path)
    }

    // A host on which names lead to contents, with bytes said.
    fn resting(
        alloc: Global,
        names: &BTreeMap<String, Place>,
        contents: &[Vec<u8>],
        said: &[u8],
    ) -> Result<MemHost, AllocError>
        requires { CanRest names.now contents.now }
        ensures stands { IfOk result (λ host. (image : Image) → Holds names.now contents.now image → IsRooted image → (q : List ℕ) → node_at (seen_of host) q ≡ node_at image q) }
        ensures said { IfOk result (λ host. said_of host ≡ said.now) }
        ensures fresh { IfOk result IsFresh }
    {
        let mut host = MemHost::new(alloc, b"", &[], &[])?;
        host.mirror.put_all(names, contents)?;
        host.said.extend_from_slice(said)?;
        host.mirror.find(said);
        Ok(host)
    }

    /// The host as a crash in the call of a number leaves it, counted from 0; of a call that wasn't made, as a crash now does.
    /// The pick chooses what is left: first whether the call is found done, and of `say` how many bytes were said; then how many
    /// of the pending directory operations are done; and then of each edit that isn't durable, the oldest first and file by file,
    /// whether nothing of it is left, all, its first half, or all with the first byte changed.
    /// `said` tells what the crash found said, until `set_input`. There is no input, and no call fails.
    pub fn image(&self, call: u64, pick: u64) -> Result<MemHost, AllocError>
        ensures stands { IfOk result (λ host. let crash = crash_in call self.now.events pick in (q : List ℕ) → node_at (seen_of host) q ≡ node_at (image_left crash.disk crash.pick) q) }
        ensures said { IfOk result (λ host. said_of host ≡ (crash_in call self.now.events pick).said) }
        ensures may_leave { IfOk result (λ host. (image : Image) × LeftSince 0 (history_of self.now) image (said_of host) × ((q : List ℕ) → Agree q (seen_of host) image)) }
        ensures fresh { IfOk result IsFresh }
    {
        let alloc = self.mirror.alloc();
        let Some(deeds) = self.mirror.deeds() else {
            return Err(AllocError);
        };
        let mut crash = crash_in(alloc, deeds, call, pick)?;
        let contents = leave(alloc, &mut crash)?;
        MemHost::resting(
            alloc,
            &crash.remains.durable,
            contents.as_slice(),
            crash.said.as_slice(),
        )
    }

    /// Gives the host new input, cuts and failing calls, as `new` does, on a disk at rest, which stays. Nothing is heard or said
    /// then, and calls are numbered from 0. Where it fails all stays as it was.
    pub fn set_input(
        &mut self,
        input: &[u8],
        cuts: &[usize],
        fails: &[u64],
    ) -> Result<(), AllocError>
        requires at_rest { Now (history_of self.old) (λ w. IsAtRest w.disk) }
        ensures stands { OnOk result ((q : List ℕ) → node_at (seen_of self.new) q ≡ node_at (seen_of self.old) q) }
        ensures said { OnOk result (said_of self.new ≡ []) }
        ensures untouched { OnOk result (IsUntouched (history_of self.new)) }
        ensures input { OnOk result (self.new.coming ≡ record { bytes = input.now; cuts = cuts.now }) }
        ensures fails { OnOk result (self.new.fails ≡ fails.now) }
        ensures calls { OnOk result (self.new.calls ≡ 0) }
        ensures faults { OnOk result (self.new.faults ≡ record { file = 0; hear = 0; say = 0; read = 0 }) }
        ensures err { OnErr result (self.new ≡ self.old) }
    {
        let mut fresh = MemHost::new(self.mirror.alloc(), input, cuts, fails)?;
        self.mirror.copy_to(&mut fresh.mirror)?;
        *self = fresh;
        Ok(())
    }

    /// The bytes of the file that reads see at the path.
    pub fn file(&self, path: &str) -> Option<&[u8]>
        ensures { option_map (λ (b : Bor (List ℕ)). b.now) result ≡ bytes_at (seen_of self.now) path.now }
    {
        self.mirror.content_at(path)
    }

    /// The bytes that were said.
    pub fn said(&self) -> &[u8]
        ensures { result.now ≡ said_of self.now }
    {
        self.said.as_slice()
    }

    /// How many calls were made of it.
    pub fn calls(&self) -> u64
        ensures { result ≡ self.now.calls }
    {
        self.calls
    }

    pub fn bytes_read(&self) -> u64
        ensures { result ≡ self.now.faults.read }
    {
        self.counts.read
    }

    pub fn file_faults(&self) -> u64
        ensures { result ≡ self.now.faults.file }
    {
        self.counts.file
    }

    pub fn hear_faults(&self) -> u64
        ensures { result ≡ self.now.faults.hear }
    {
        self.counts.hear
    }

    pub fn say_faults(&self) -> u64
        ensures { result ≡ self.now.faults.say }
    {
        self.counts.say
    }
}
