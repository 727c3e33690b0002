// What the loop needs of a session.
ghost use Rattle.std.specs.Prelude.{◌≡◌, ◌∷◌, [], List, ℕ, IfOk, OnOk};
ghost use Rattle.file_model.specs.Disk.{Disk};
ghost use Rattle.file_model.specs.Histories.{Now, Passed};
ghost use Rattle.file_model.specs.Arrived.{Arrived};
ghost use Rattle.session_loop.specs.Machine.{Protocol, IsKept};
ghost use Rattle.session_loop.specs.Instants.{Answering, HasAnswered};
ghost use Rattle.session_loop.specs.Outcome.{next_of, UnitCause};

use file_model::Host;
use unit_reader::UnitReader;

/// Whether a session goes on.
#[derive(Clone, Copy, Debug, PartialEq, Eq)]
pub enum Next {
    Go,
    Bye,
}

/// Why a session can't go on.
#[derive(Clone, Copy, Debug, PartialEq, Eq)]
pub enum Stop {
    SayFault,
    FileFault,
    Memory,
}

pub trait Answers<H: Host> {
    /// What reads the units that it answers.
    type Reader: UnitReader;

    /// What a session and its files stand for.
    ghost State: { Type 0 };

    /// What is said first over a state, what each unit changes and what is said to it, which unit ends the session, and what of a state
    /// has to survive a crash.
    ghost protocol: { Protocol State Self.Reader.Unit };

    /// The session, over a disk, stands for a state.
    ghost stands: { Self → Disk → State → Type 0 };

    /// Answers a unit: makes its changes durable, and then says its reply.
    fn unit(
        &mut self,
        host: &mut H,
        unit: &<Self::Reader as UnitReader>::Unit,
    ) -> Result<Next, Stop>
        requires stands { Now (H.history host.old) (λ w. (state : State) × stands self.old w.disk state) }
        requires sound { Self.Reader.is_sound unit.now }
        ensures next { IfOk result (λ next. next ≡ next_of (protocol.is_last unit.now)) }
        ensures instants { (state : State) → Now (H.history host.old) (λ w. stands self.old w.disk state)
            → Passed (Answering protocol state (unit.now ∷ [])) (H.history host.old) (H.history host.new) }
        ensures answered { (state : State) → Now (H.history host.old) (λ w. stands self.old w.disk state)
            → OnOk result (Arrived (HasAnswered protocol (stands self.new) state (unit.now ∷ [])) (H.history host.old) (H.history host.new)) }
        ensures stands { OnOk result (Now (H.history host.new) (λ w. (state : State) × stands self.new w.disk state)) }
        ensures cause { UnitCause (H.faults host.old) (H.faults host.new) result };

    /// The units are those of its reader.
    ghost of_grammar: { (protocol.units_of ≡ Self.Reader.units_of) × (protocol.unfinished ≡ Self.Reader.unfinished) };

    ghost is_kept: { IsKept protocol };
}
