// A whole session.
ghost use Rattle.std.specs.Prelude.{◌≡◌, ◌<◌, ◌≤◌, ◌⊎◌, ◌++◌, List, ℕ, Bool, [], false, length, take};
ghost use Rattle.std.specs.List.{Contains};
ghost use Rattle.file_model.specs.Images.{Image};
ghost use Rattle.file_model.specs.Disk.{MayLeave};
ghost use Rattle.file_model.specs.Histories.{History, World, Now, Passed, instant};
ghost use Rattle.file_model.specs.Arrived.{Arrived, worlds_since};
ghost use Rattle.session_loop.specs.Machine.{SaysSomething, commands_in};
ghost use Rattle.session_loop.specs.Instants.{Serving, HasServed, EndsAs, Opened};
ghost use Rattle.session_loop.specs.Headline.{SaysReplies, IsBounded, IsServed, Survives};
ghost use Rattle.session_loop.specs.Outcome.{EndCause, IsFault};

use crate::answers::Answers;
use crate::end::{End, Turn};
use crate::turn::turn;
use file_model::Host;
use std::alloc::Global;
use unit_reader::UnitReader;

/// The most bytes that a session hears.
const MOST_HEARD: u64 = 1 << 40;

/// The most bytes that one turn hears.
const ROOM: usize = 4096;

/// Says the greeting, and then hears and answers units until one ends the session, the input ends or too much was heard.
pub fn serve<H: Host, S: Answers<H>>(
    alloc: Global,
    session: &mut S,
    host: &mut H,
    greeting: &[u8],
) -> End
    requires stands { Now (H.history host.old) (λ w. (state : S.State) × S.stands session.old w.disk state) }
    // The greeting of each state for which the session stands is said in the bytes given.
    requires greeting { Now (H.history host.old) (λ w. (state : S.State) → S.stands session.old w.disk state
        → S.protocol.says (S.protocol.greeting state) greeting.now) }

    // The session may have been opened by a run that began earlier, at `first`.

    // What holds at each instant. The clauses below say the same in the words of the main promise.
    ensures instants { (first : History) (state : S.State) → Opened S.protocol (S.stands session.old) state first (H.history host.old)
        → Passed (Serving S.protocol state) first (H.history host.new) }

    // At each instant what was said begins the greeting and the replies to all units heard, and no reply waited for a `hear`.
    ensures said { (first : History) (state : S.State) → Opened S.protocol (S.stands session.old) state first (H.history host.old)
        → Now first (λ start. (world : World) → Contains (worlds_since (instant first) (H.history host.new)) world
        → SaysReplies S.protocol state start world) }

    // Whatever the end, at most 2^40 bytes were heard, and each turn but the last heard at least one.
    ensures bounded { (first : History) (state : S.State) → Opened S.protocol (S.stands session.old) state first (H.history host.old)
        → Now first (λ start. (world : World) → Contains (worlds_since (instant first) (H.history host.new)) world → IsBounded start world) }

    // Without a fault all replies were said, and the end is the one that the bytes heard tell.
    ensures served { (first : History) (state : S.State) → Opened S.protocol (S.stands session.old) state first (H.history host.old)
        → IsFault result ⊎ Arrived (IsServed S.protocol (S.stands session.new) state result) first (H.history host.new) }

    // Whatever a crash at an instant leaves and however much it finds said: what survives the first n units, among them all
    // whose replies it finds said. Each line has to have a byte, or none would tell that its unit was answered.
    ensures crash { (first : History) (state : S.State) → SaysSomething S.protocol → Opened S.protocol (S.stands session.old) state first (H.history host.old)
        → Now first (λ start. S.protocol.alike state start.disk
        → (world : World) → Contains (worlds_since (instant first) (H.history host.new)) world → (image : Image) → MayLeave world.disk image → (k : ℕ)
        → Survives S.protocol state start world image (take k world.streams.said)) }

    ensures cause { EndCause (H.faults host.old) (H.faults host.new) result }
{
    let mut buffer = [0; ROOM];
    let mut reader = S::Reader::begin(alloc);
    let mut units = Vec::new(alloc);
    if host.say(greeting).is_err() {
        return End::SayFault;
    }
    converse(session, host, &mut reader, &mut units, &mut buffer)
}

// Hears and answers.
fn converse<H: Host, S: Answers<H>>(
    session: &mut S,
    host: &mut H,
    reader: &mut S::Reader,
    units: &mut Vec<<S::Reader as UnitReader>::Unit>,
    buffer: &mut [u8],
) -> End
    requires room { 0 < length buffer.old }
    requires stands { Now (H.history host.old) (λ w. (state : S.State) × S.stands session.old w.disk state) }
    ensures instants { (first : History) (state : S.State) → S.Reader.has_taken reader.old []
        → Passed (Serving S.protocol state) first (H.history host.old)
        → Arrived (HasServed S.protocol (S.stands session.old) state [] (commands_in S.protocol []) false) first (H.history host.old)
        → Passed (Serving S.protocol state) first (H.history host.new) }
    ensures ends { (first : History) (state : S.State) → S.Reader.has_taken reader.old []
        → Arrived (HasServed S.protocol (S.stands session.old) state [] (commands_in S.protocol []) false) first (H.history host.old)
        → IsFault result ⊎ EndsAs S.protocol (S.stands session.new) state result first (H.history host.new) }
    ensures cause { EndCause (H.faults host.old) (H.faults host.new) result }
{
    let mut left = MOST_HEARD;
    while left > 0 {
        let room = room_of(left, buffer.len());
        match turn(session, host, reader, units, &mut buffer[..room]) {
            Turn::Goes(count) => left -= count as u64,
            Turn::Over(end) => return end,
        }
    }
    End::Long
}

// How many bytes the next turn may hear.
fn room_of(left: u64, most: usize) -> usize
    ensures left { result ≤ left }
    ensures most { result ≤ most }
    ensures some { 0 < left → 0 < most → 0 < result }
{
    if left < most as u64 {
        left as usize
    } else {
        most
    }
}
