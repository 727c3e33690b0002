// The units of a piece that was heard.
ghost use Rattle.std.specs.Prelude.{◌≡◌, ◌⊎◌, ◌++◌, List, ℕ, Bool, false, length};
ghost use Rattle.file_model.specs.Histories.{History, Now, Passed};
ghost use Rattle.file_model.specs.Arrived.{Arrived};
ghost use Rattle.session_loop.specs.Machine.{commands_in, is_over};
ghost use Rattle.session_loop.specs.Instants.{Serving, HasServed, EndsAs};
ghost use Rattle.session_loop.specs.Outcome.{TurnCause, IsFault};
ghost use Rattle.session_loop.specs.declared.end.End.{End};
ghost use Rattle.session_loop.specs.declared.end.Turn.TheVariants.{Goes, Over};

use crate::answers::{Answers, Next};
use crate::each::answer_each;
use crate::end::{End, Turn, end_of};
use file_model::Host;
use unit_reader::UnitReader;

/// Cuts a piece that was heard into units, and answers each that is whole now.
pub fn answer_piece<H: Host, S: Answers<H>>(
    session: &mut S,
    host: &mut H,
    reader: &mut S::Reader,
    units: &mut Vec<<S::Reader as UnitReader>::Unit>,
    piece: &[u8],
) -> Turn
    requires stands { Now (H.history host.old) (λ w. (state : S.State) × S.stands session.old w.disk state) }
    ensures longer { (heard : List ℕ) → (more : List S.Reader.Unit) × (S.protocol.units_of (heard ++ piece.now) ≡ S.protocol.units_of heard ++ more) }
    ensures whole { (n : ℕ) → result ≡ Goes n → n ≡ length piece.now }
    ensures stands { (n : ℕ) → result ≡ Goes n → Now (H.history host.new) (λ w. (state : S.State) × S.stands session.new w.disk state) }
    ensures instants { (first : History) (state : S.State) (heard : List ℕ) → S.Reader.has_taken reader.old heard → is_over S.protocol heard ≡ false
        → Passed (Serving S.protocol state) first (H.history host.old)
        → Arrived (HasServed S.protocol (S.stands session.old) state (heard ++ piece.now) (commands_in S.protocol heard) false) first (H.history host.old)
        → Passed (Serving S.protocol state) first (H.history host.new) }
    ensures goes { (first : History) (state : S.State) (heard : List ℕ) (n : ℕ) → S.Reader.has_taken reader.old heard → is_over S.protocol heard ≡ false → result ≡ Goes n
        → Arrived (HasServed S.protocol (S.stands session.old) state (heard ++ piece.now) (commands_in S.protocol heard) false) first (H.history host.old)
        → Arrived (HasServed S.protocol (S.stands session.new) state (heard ++ piece.now) (commands_in S.protocol (heard ++ piece.now)) false) first (H.history host.new) }
    ensures taken { (heard : List ℕ) (n : ℕ) → S.Reader.has_taken reader.old heard → is_over S.protocol heard ≡ false → result ≡ Goes n
        → S.Reader.has_taken reader.new (heard ++ piece.now) × (is_over S.protocol (heard ++ piece.now) ≡ false) }
    ensures over { (first : History) (state : S.State) (heard : List ℕ) (end : End) → S.Reader.has_taken reader.old heard → is_over S.protocol heard ≡ false → result ≡ Over end
        → Arrived (HasServed S.protocol (S.stands session.old) state (heard ++ piece.now) (commands_in S.protocol heard) false) first (H.history host.old)
        → IsFault end ⊎ EndsAs S.protocol (S.stands session.new) state end first (H.history host.new) }
    ensures cause { TurnCause (H.faults host.old) (H.faults host.new) result }
{
    units.clear();
    if reader.take_piece(piece, units).is_err() {
        return Turn::Over(End::Memory);
    }
    match answer_each(session, host, units) {
        Ok(Next::Go) => Turn::Goes(piece.len()),
        Ok(Next::Bye) => Turn::Over(End::Done),
        Err(stop) => Turn::Over(end_of(stop)),
    }
}
