// The units of a piece.
ghost use Rattle.std.specs.Prelude.{◌≡◌, List, ℕ, IfOk, OnOk};
ghost use Rattle.std.specs.List.{All};
ghost use Rattle.file_model.specs.Histories.{Now, Passed};
ghost use Rattle.file_model.specs.Arrived.{Arrived};
ghost use Rattle.session_loop.specs.Machine.{answered, has_last};
ghost use Rattle.session_loop.specs.Instants.{Answering, HasAnswered};
ghost use Rattle.session_loop.specs.Outcome.{next_of, UnitCause};

use crate::answers::{Answers, Next, Stop};
use file_model::Host;
use unit_reader::UnitReader;

/// Answers units in order, up to one that ends the session.
pub fn answer_each<H: Host, S: Answers<H>>(
    session: &mut S,
    host: &mut H,
    units: &[<S::Reader as UnitReader>::Unit],
) -> Result<Next, Stop>
    requires stands { Now (H.history host.old) (λ w. (state : S.State) × S.stands session.old w.disk state) }
    requires sound { All S.Reader.is_sound units.now }
    ensures next { IfOk result (λ next. next ≡ next_of (has_last S.protocol.is_last units.now)) }
    ensures instants { (state : S.State) → Now (H.history host.old) (λ w. S.stands session.old w.disk state)
        → Passed (Answering S.protocol state (answered S.protocol.is_last units.now)) (H.history host.old) (H.history host.new) }
    ensures answered { (state : S.State) → Now (H.history host.old) (λ w. S.stands session.old w.disk state)
        → OnOk result (Arrived (HasAnswered S.protocol (S.stands session.new) state (answered S.protocol.is_last units.now)) (H.history host.old) (H.history host.new)) }
    ensures stands { OnOk result (Now (H.history host.new) (λ w. (state : S.State) × S.stands session.new w.disk state)) }
    ensures cause { UnitCause (H.faults host.old) (H.faults host.new) result }
{
    for unit in units {
        match session.unit(host, unit)? {
            Next::Go => {}
            Next::Bye => return Ok(Next::Bye),
        }
    }
    Ok(Next::Go)
}
