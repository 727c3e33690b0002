// One turn of the loop.
ghost use Rattle.std.specs.Prelude.{◌≡◌, ◌≢◌, ◌+◌, ◌<◌, ◌≤◌, ◌⊎◌, ◌++◌, List, ℕ, Bool, false, true, length, take};
ghost use Rattle.file_model.specs.Histories.{History, Now, Passed};
ghost use Rattle.file_model.specs.Arrived.{Arrived};
ghost use Rattle.session_loop.specs.Machine.{answered, commands_in, is_over};
ghost use Rattle.session_loop.specs.Instants.{Serving, HasServed, EndsAs, most_heard};
ghost use Rattle.session_loop.specs.Outcome.{TurnCause, IsFault, regular_end};
ghost use Rattle.session_loop.specs.declared.end.End.{End};
ghost use Rattle.session_loop.specs.declared.end.Turn.TheVariants.{Goes, Over};

use crate::answers::Answers;
use crate::end::{End, Turn};
use crate::piece::answer_piece;
use file_model::Host;
use unit_reader::UnitReader;

/// Hears a piece, and answers each unit that is whole now.
pub fn turn<H: Host, S: Answers<H>>(
    session: &mut S,
    host: &mut H,
    reader: &mut S::Reader,
    units: &mut Vec<<S::Reader as UnitReader>::Unit>,
    buffer: &mut [u8],
) -> Turn
    requires room { 0 < length buffer.old }
    requires stands { Now (H.history host.old) (λ w. (state : S.State) × S.stands session.old w.disk state) }
    ensures within { (n : ℕ) → result ≡ Goes n → (0 < n) × (n ≤ length buffer.old) }
    ensures stands { (n : ℕ) → result ≡ Goes n → Now (H.history host.new) (λ w. (state : S.State) × S.stands session.new w.disk state) }

    // At each instant of a session that goes on by this turn:
    ensures instants { (first : History) (state : S.State) (heard : List ℕ) → S.Reader.has_taken reader.old heard → is_over S.protocol heard ≡ false → length heard + length buffer.old ≤ most_heard
        → Passed (Serving S.protocol state) first (H.history host.old)
        → Arrived (HasServed S.protocol (S.stands session.old) state heard (commands_in S.protocol heard) false) first (H.history host.old)
        → Passed (Serving S.protocol state) first (H.history host.new) }

    // Where the turn goes on, all units are answered, and none is the last.
    ensures goes { (first : History) (state : S.State) (heard : List ℕ) (n : ℕ) → S.Reader.has_taken reader.old heard → is_over S.protocol heard ≡ false → length heard + length buffer.old ≤ most_heard → result ≡ Goes n
        → Arrived (HasServed S.protocol (S.stands session.old) state heard (commands_in S.protocol heard) false) first (H.history host.old)
        → Arrived (HasServed S.protocol (S.stands session.new) state (heard ++ take n buffer.new) (commands_in S.protocol (heard ++ take n buffer.new)) false) first (H.history host.new) }
    ensures taken { (heard : List ℕ) (n : ℕ) → S.Reader.has_taken reader.old heard → is_over S.protocol heard ≡ false → result ≡ Goes n
        → S.Reader.has_taken reader.new (heard ++ take n buffer.new) × (is_over S.protocol (heard ++ take n buffer.new) ≡ false) }

    // Where it ends without a fault, all units are answered, and the end is the one that the bytes heard tell.
    ensures over { (first : History) (state : S.State) (heard : List ℕ) (end : End) → S.Reader.has_taken reader.old heard → is_over S.protocol heard ≡ false → length heard + length buffer.old ≤ most_heard → result ≡ Over end
        → Arrived (HasServed S.protocol (S.stands session.old) state heard (commands_in S.protocol heard) false) first (H.history host.old)
        → IsFault end ⊎ EndsAs S.protocol (S.stands session.new) state end first (H.history host.new) }
    ensures cause { TurnCause (H.faults host.old) (H.faults host.new) result }
{
    let count = match host.hear(buffer) {
        Ok(count) => count,
        Err(_) => return Turn::Over(End::HearFault),
    };
    if count == 0 {
        return Turn::Over(end_here(reader));
    }
    answer_piece(session, host, reader, units, &buffer[..count])
}

// The input ended.
fn end_here<R: UnitReader>(reader: &R) -> End
    ensures end { (heard : List ℕ) → R.has_taken reader.now heard → result ≡ regular_end false true (R.unfinished heard) }
    ensures regular { IsFault result → ⊥ }
    ensures not_long { result ≢ End.Long }
{
    if reader.is_between() {
        End::Done
    } else {
        End::Cut
    }
}
