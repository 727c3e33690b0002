// What reads see of the disk, kept beside the record that it is the outcome of.
ghost use Rattle.std.specs.Prelude.{◌≡◌, ◌≤◌, ◌-◌, ◌∷◌, min, length, take, drop, map, string_bytes, [], List, ℕ, IfOk, IfSome, IsErr, OnOk, OnErr, None, true, false, option_map, if◌then◌else◌};
ghost use Rattle.std.specs.Borrow.{Bor};
ghost use Rattle.std.specs.Str.{bytes_eq};
ghost use Rattle.file_model.specs.Images.{Image, Node, nothing, node_at, bytes_at, is_directory, names_in, file, directory};
ghost use Rattle.file_model.specs.Kinds.{kind_of, IsFile, Fits, Gives};
ghost use Rattle.mem_host.specs.Events.{found, looked, did, refused, heard, hear_failed, said, say_failed};
ghost use Rattle.mem_host.specs.Applied.{TakesMemory};
ghost use Rattle.mem_host.specs.Fitting.{can_put};
ghost use Rattle.mem_host.specs.Replay.{seen_after, said_after, AllPut};
ghost use Rattle.mem_host.specs.Fitted.{AllFit};
ghost use Rattle.mem_host.specs.Finding.{events_of, Holds, IsRooted, CanRest, IsNodeOf, CanPutNext};
ghost use Rattle.mem_host.specs.Putting.{NoFileAbove, with_parents, with_node};

use crate::apply::apply;
use crate::log::{Deed, Log};
use crate::names::{Place, content_at, kind_at, names_in, put_content, put_name};
use crate::record::{Note, Request};
use file_model::{Failed, Kind};
use std::alloc::{AllocError, Global};
use std::collections::BTreeMap;
use std::marker::Model;

#[derive(Drop)]
pub(crate) struct Mirror {
    alloc: Global,
    names: BTreeMap<String, Place>,
    contents: Vec<Vec<u8>>,
    log: Log,
}

impl Model for Mirror {
    ghost use Rattle.std.specs.Prelude.{List};
    ghost use Rattle.mem_host.specs.Events.{Event};

    ghost Value = { List Event };

    ghost use Rattle.mem_host.specs.Mirror.{logged_events, IsMirror};

    ghost view = { logged_events };

    ghost invariant = { IsMirror };
}

fn fill_from(bytes: &[u8], from: usize, buf: &mut [u8]) -> usize
    requires { from ≤ length bytes.now }
    ensures count { result ≡ min (length buf.new) (length bytes.now - from) }
    ensures bytes { take result buf.new ≡ take result (drop from bytes.now) }
    ensures rest { drop result buf.new ≡ drop result buf.old }
{
    let left = bytes.len() - from;
    let count = left.min(buf.len());
    buf[..count].copy_from_slice(&bytes[from..from + count]);
    count
}

impl Mirror {
    ghost use Rattle.mem_host.specs.Notes.{call_of};

    pub(crate) fn new(alloc: Global) -> Mirror
        ensures { result ≡ [] }
    {
        Mirror {
            alloc,
            names: BTreeMap::new(alloc),
            contents: Vec::new(alloc),
            log: Log::new(alloc),
        }
    }

    pub(crate) fn kind_at(&self, path: &str) -> Kind
        ensures { result ≡ kind_of (node_at (seen_after self.now) path.now) }
    {
        kind_at(&self.names, self.contents.as_slice(), path)
    }

    pub(crate) fn is_directory(&self, path: &str) -> bool
        ensures { result ≡ is_directory (seen_after self.now) path.now }
    {
        match self.kind_at(path) {
            Kind::Dir => true,
            _ => false,
        }
    }

    pub(crate) fn content_at(&self, path: &str) -> Option<&[u8]>
        ensures { option_map (λ (b : Bor (List ℕ)). b.now) result ≡ bytes_at (seen_after self.now) path.now }
    {
        content_at(&self.names, self.contents.as_slice(), path)
    }

    /// Fills the buffer with what stands in a file from a place on, and gives the count.
    pub(crate) fn read_at(&self, path: &str, from: u64, buf: &mut [u8]) -> usize
        requires { IsFile (seen_after self.now) path.now from }
        ensures gives { Gives (seen_after self.now) path.now from result buf.new }
        ensures rest { drop result buf.new ≡ drop result buf.old }
        ensures within { result ≤ length buf.new }
    {
        match self.content_at(path) {
            Some(bytes) => fill_from(bytes, from as usize, buf),
            None => unreachable!(),
        }
    }

    /// The names in a directory.
    pub(crate) fn names_in(&self, alloc: Global, dir: &str) -> Result<Vec<String>, AllocError>
        ensures { IfOk result (λ names. map string_bytes names.items ≡ names_in (seen_after self.now) dir.now) }
    {
        names_in(alloc, &self.names, dir)
    }

    /// Does a call. Where it finds no memory all stays as it was.
    pub(crate) fn perform(&mut self, request: Request<'_>) -> Result<(), Failed>
        requires { Fits (call_of request) (seen_after self.old) }
        ensures ok { OnOk result (self.new ≡ did (call_of request.entry) ∷ self.old) }
        ensures err { OnErr result (self.new ≡ self.old) }
        ensures memory { IsErr result → TakesMemory (call_of request.entry) }
    {
        if apply(self.alloc, &mut self.names, &mut self.contents, request).is_err() {
            return Err(Failed);
        }
        self.log.add(self.alloc, &Note::Did(request));
        Ok(())
    }

    /// Puts a directory on the disk at rest, unless one stands there.
    pub(crate) fn put_directory(&mut self, path: &str) -> Result<(), AllocError>
        requires puts { AllPut self.old }
        requires no_file { bytes_at (seen_after self.old) path.now ≡ None }
        requires room { can_put (seen_after self.old) path.now ≡ true }
        ensures ok { OnOk result ((q : List ℕ) → node_at (seen_after self.new) q ≡ (if bytes_eq q path.now then directory else node_at (seen_after self.old) q)) }
        ensures err { OnErr result (self.new ≡ self.old) }
        ensures puts { AllPut self.new }
        ensures said { said_after self.new ≡ said_after self.old }
    {
        if !self.names.contains_key(path) {
            put_name(self.alloc, &mut self.names, path, Place::Dir)?;
            self.log.add(self.alloc, &Note::PutDirectory(path));
        }
        Ok(())
    }

    /// Puts the directories that a path leads through.
    pub(crate) fn put_parents(&mut self, path: &str) -> Result<(), AllocError>
        requires puts { AllPut self.old }
        requires clear { NoFileAbove (seen_after self.old) path.now }
        ensures ok { OnOk result ((q : List ℕ) → node_at (seen_after self.new) q ≡ with_parents (seen_after self.old) path.now q) }
        ensures err { OnErr result ((q : List ℕ) → bytes_at (seen_after self.new) q ≡ bytes_at (seen_after self.old) q) }
        ensures puts { AllPut self.new }
        ensures said { said_after self.new ≡ said_after self.old }
    {
        for (at, byte) in path.as_bytes().iter().enumerate() {
            if *byte == b'/' && at > 0 {
                self.put_directory(&path[..at])?;
            }
        }
        Ok(())
    }

    /// Puts a file on the disk at rest.
    pub(crate) fn put_file(&mut self, path: &str, bytes: &[u8]) -> Result<(), AllocError>
        requires puts { AllPut self.old }
        requires no_directory { is_directory (seen_after self.old) path.now ≡ false }
        requires room { can_put (seen_after self.old) path.now ≡ true }
        ensures ok { OnOk result ((q : List ℕ) → node_at (seen_after self.new) q ≡ (if bytes_eq q path.now then file bytes.now else node_at (seen_after self.old) q)) }
        ensures err { OnErr result (self.new ≡ self.old) }
        ensures puts { AllPut self.new }
        ensures said { said_after self.new ≡ said_after self.old }
    {
        let copy = Vec::from_slice(self.alloc, bytes)?;
        put_content(self.alloc, &mut self.names, &mut self.contents, path, copy)?;
        self.log.add(self.alloc, &Note::PutFile(path, bytes));
        Ok(())
    }

    /// Puts what stands at a name.
    fn put(&mut self, path: &str, place: Place, contents: &[Vec<u8>]) -> Result<(), AllocError>
        requires { CanPutNext path.now place contents.now self.old }
        ensures ok { OnOk result ((node : Node) → IsNodeOf place contents.now node → (q : List ℕ) → node_at (seen_after self.new) q ≡ with_node (seen_after self.old) path.now node q) }
        ensures puts { AllPut self.new }
        ensures said { said_after self.new ≡ said_after self.old }
    {
        self.put_parents(path)?;
        match place {
            Place::Dir => self.put_directory(path),
            Place::File(id) => self.put_file(path, contents[id].as_slice()),
        }
    }

    /// Puts all that names lead to, where nothing stands.
    pub(crate) fn put_all(
        &mut self,
        names: &BTreeMap<String, Place>,
        contents: &[Vec<u8>],
    ) -> Result<(), AllocError>
        requires puts { AllPut self.old }
        requires nothing { (q : List ℕ) → node_at (seen_after self.old) q ≡ nothing }
        requires rest { CanRest names.now contents.now }
        ensures ok { OnOk result ((image : Image) → Holds names.now contents.now image → IsRooted image → (q : List ℕ) → node_at (seen_after self.new) q ≡ node_at image q) }
        ensures puts { AllPut self.new }
        ensures said { said_after self.new ≡ said_after self.old }
    {
        for (path, _) in names.iter() {
            if let Some(place) = names.get(path.as_str()) {
                self.put(path.as_str(), *place, contents)?;
            }
        }
        Ok(())
    }

    /// Puts all that stands here where nothing stands.
    pub(crate) fn copy_to(&self, other: &mut Mirror) -> Result<(), AllocError>
        requires puts { AllPut other.old }
        requires nothing { (q : List ℕ) → node_at (seen_after other.old) q ≡ nothing }
        ensures ok { OnOk result ((q : List ℕ) → node_at (seen_after other.new) q ≡ node_at (seen_after self.now) q) }
        ensures puts { AllPut other.new }
        ensures said { said_after other.new ≡ said_after other.old }
    {
        other.put_all(&self.names, self.contents.as_slice())
    }

    /// What a crash found said.
    pub(crate) fn find(&mut self, bytes: &[u8])
        requires { AllPut self.old }
        ensures { self.new ≡ found bytes.now ∷ self.old }
    {
        self.log.add(self.alloc, &Note::Found(bytes));
    }

    /// The deeds of the log, unless one was lost.
    pub(crate) fn deeds(&self) -> Option<&[Deed]>
        ensures events { IfSome result (λ deeds. events_of deeds.now ≡ self.now) }
        ensures fit { AllFit self.now }
    {
        self.log.deeds()
    }

    pub(crate) fn alloc(&self) -> Global {
        self.alloc
    }

    /// A call that changed nothing.
    pub(crate) fn look(&mut self)
        ensures { self.new ≡ looked ∷ self.old }
    {
        self.log.add(self.alloc, &Note::Looked);
    }

    pub(crate) fn refuse(&mut self, request: Request<'_>)
        requires { Fits (call_of request) (seen_after self.old) }
        ensures { self.new ≡ refused (call_of request.entry) ∷ self.old }
    {
        self.log.add(self.alloc, &Note::Refused(request));
    }

    pub(crate) fn hear(&mut self, room: usize, piece: &[u8])
        ensures { self.new ≡ heard room piece.now ∷ self.old }
    {
        self.log.add(self.alloc, &Note::Heard(room, piece));
    }

    pub(crate) fn hear_nothing(&mut self)
        ensures { self.new ≡ hear_failed ∷ self.old }
    {
        self.log.add(self.alloc, &Note::HearFailed);
    }

    pub(crate) fn say(&mut self, bytes: &[u8])
        ensures { self.new ≡ said bytes.now ∷ self.old }
    {
        self.log.add(self.alloc, &Note::Said(bytes));
    }

    /// A call that failed, but said some of the bytes.
    pub(crate) fn say_part(&mut self, bytes: &[u8], count: usize)
        ensures { self.new ≡ say_failed bytes.now count ∷ self.old }
    {
        self.log.add(self.alloc, &Note::SayFailed(bytes, count));
    }
}
