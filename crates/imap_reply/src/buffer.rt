// Replies that go out in pieces, and take no memory after the beginning.
ghost use Rattle.std.specs.Prelude.{◌≡◌, ◌++◌, ◌<◌, ◌≤◌, ◌+◌, [], length, flat_map, IfOk, IfErr, OnOk};
ghost use Rattle.file_model.specs.Causes.{SayCause};
ghost use Rattle.session_loop.specs.declared.answers.Stop.TheVariants.{SayFault};
ghost use Rattle.imap_reply.specs.Putting.{Puts, AllWaits, Buffering};
ghost use Rattle.imap_reply.specs.BufferLaws.{buffer_is_sink};
ghost use Rattle.imap_reply.specs.Replies.{reply_bytes};

use crate::line;
use crate::reply::Reply;
use crate::sink::Sink;
use file_model::Host;
use session_loop::Stop;
use std::alloc::{AllocError, Global};
use std::marker::Model;

/// So many bytes wait at most.
const ROOM: usize = 65_536;

/// Bytes of replies that wait to be said, in a room that was taken at the beginning.
#[derive(Drop)]
pub struct ReplyBuffer {
    room: Vec<u8>,
}

impl Model for ReplyBuffer {
    ghost use Rattle.std.specs.Prelude.{List, ℕ, ◌≤◌, length};
    ghost use Rattle.std.specs.Vec.{vec_capacity};

    ghost Value = { List ℕ };

    ghost view = { λ b. b.room.items };

    ghost invariant = { λ b. (length b.room.items ≤ 65536) × (65536 ≤ vec_capacity b.room) };
}

impl ReplyBuffer {
    /// Takes the room, once for all replies of a session.
    pub fn begin(alloc: Global) -> Result<ReplyBuffer, AllocError>
        ensures { IfOk result (λ b. b ≡ []) }
    {
        let room = Vec::with_capacity(alloc, ROOM)?;
        Ok(ReplyBuffer { room })
    }

    /// Drops what waits.
    pub fn clear(&mut self)
        ensures { self.new ≡ [] }
    {
        self.room.clear();
    }

    /// Says all that waits.
    pub fn say<H: Host>(&mut self, host: &mut H) -> Result<(), Stop>
        ensures puts { Puts self.old self.new result (H.history host.old) (H.history host.new) }
        ensures none { OnOk result (self.new ≡ []) }
        ensures nothing { self.old ≡ []
            → AllWaits [] self.new result (H.history host.old) (H.history host.new) }
        ensures fault { IfErr result (λ stop. stop ≡ SayFault) }
        ensures cause { SayCause (H.faults host.old) (H.faults host.new) result }
    {
        if self.room.is_empty() {
            return Ok(());
        }
        match host.say(self.room.as_slice()) {
            Ok(()) => {
                self.clear();
                Ok(())
            }
            Err(_) => Err(Stop::SayFault),
        }
    }

    // Says what waits unless there is room for so many bytes behind it.
    fn make_room<H: Host>(&mut self, host: &mut H, count: usize) -> Result<(), Stop>
        ensures puts { Puts self.old self.new result (H.history host.old) (H.history host.new) }
        ensures room { OnOk result (count ≤ 65536 → length self.new + count ≤ 65536) }
        ensures small { length self.old + count ≤ 65536
            → AllWaits self.old self.new result (H.history host.old) (H.history host.new) }
        ensures none { OnOk result (65536 < count → self.new ≡ []) }
        ensures fault { IfErr result (λ stop. stop ≡ SayFault) }
        ensures cause { SayCause (H.faults host.old) (H.faults host.new) result }
    {
        if count <= ROOM - self.room.len() {
            return Ok(());
        }
        self.say(host)
    }

    // Says bytes before which nothing waits, from where they stand.
    fn say_through<H: Host>(&mut self, host: &mut H, bytes: &[u8]) -> Result<(), Stop>
        requires { self.old ≡ [] }
        ensures puts { Puts (self.old ++ bytes.now) self.new result (H.history host.old) (H.history host.new) }
        ensures fault { IfErr result (λ stop. stop ≡ SayFault) }
        ensures cause { SayCause (H.faults host.old) (H.faults host.new) result }
    {
        match host.say(bytes) {
            Ok(()) => Ok(()),
            Err(_) => Err(Stop::SayFault),
        }
    }

    /// Puts bytes behind those that wait. What doesn't fit is said, and a text longer than the room isn't copied.
    pub fn put_bytes<H: Host>(&mut self, host: &mut H, bytes: &[u8]) -> Result<(), Stop>
        ensures puts { Puts (self.old ++ bytes.now) self.new result (H.history host.old) (H.history host.new) }
        ensures small { length (self.old ++ bytes.now) ≤ 65536
            → AllWaits (self.old ++ bytes.now) self.new result (H.history host.old) (H.history host.new) }
        ensures fault { IfErr result (λ stop. stop ≡ SayFault) }
        ensures cause { SayCause (H.faults host.old) (H.faults host.new) result }
    {
        self.make_room(host, bytes.len())?;
        if bytes.len() > ROOM {
            return self.say_through(host, bytes);
        }
        // There is room for them.
        if self.room.extend_from_slice(bytes).is_err() {
            return Err(Stop::Memory);
        }
        Ok(())
    }

    /// Puts texts, one behind the other.
    pub fn put_all<H: Host>(&mut self, host: &mut H, texts: &[&[u8]]) -> Result<(), Stop>
        ensures puts { Puts (self.old ++ flat_map (λ t. t.now) texts.now) self.new result (H.history host.old) (H.history host.new) }
        ensures small { length (self.old ++ flat_map (λ t. t.now) texts.now) ≤ 65536
            → AllWaits (self.old ++ flat_map (λ t. t.now) texts.now) self.new result (H.history host.old) (H.history host.new) }
        ensures fault { IfErr result (λ stop. stop ≡ SayFault) }
        ensures cause { SayCause (H.faults host.old) (H.faults host.new) result }
    {
        line::put_all(self, host, texts)
    }

    /// Puts a line.
    pub fn put<H: Host>(&mut self, host: &mut H, line: &Reply) -> Result<(), Stop>
        ensures puts { Puts (self.old ++ reply_bytes line.now) self.new result (H.history host.old) (H.history host.new) }
        ensures small { length (self.old ++ reply_bytes line.now) ≤ 65536
            → AllWaits (self.old ++ reply_bytes line.now) self.new result (H.history host.old) (H.history host.new) }
        ensures fault { IfErr result (λ stop. stop ≡ SayFault) }
        ensures cause { SayCause (H.faults host.old) (H.faults host.new) result }
    {
        line.put(self, host)
    }
}

impl<H: Host> Sink<H> for ReplyBuffer {
    ghost puts = { Buffering H.history H.faults };

    fn put(&mut self, host: &mut H, bytes: &[u8]) -> Result<(), Stop> {
        self.put_bytes(host, bytes)
    }

    ghost is_sink = { buffer_is_sink H.history H.faults };
}
