//! A change is settled before it is acknowledged: the promise of a server, over one file and one reply.
ghost use Rattle.std.specs.Prelude.{◌≡◌, ◌⊎◌, ◌++◌, Bool, List, ℕ, OnOk, IsErrOf, true, false};
ghost use Rattle.file_model.specs.Arrived.{Arrived};
ghost use Rattle.file_model.specs.Causes.{Rose};
ghost use Rattle.file_model.specs.Disk.{seen};
ghost use Rattle.file_model.specs.Histories.{Now, Passed};
ghost use Rattle.file_model.specs.Images.{is_directory};
ghost use Rattle.file_model.specs.Kept.{HasOnly, IsAlike, NonePending};
ghost use Rattle.file_model.specs.Kinds.{IsTarget};
ghost use Rattle.file_model.specs.Paths.{parent, is_top};

use file_model::{Fault, Host};
use safe_file::replace;
use std::alloc::Global;

/// Replaces the content of a file and then says a reply. Where the file wasn't replaced nothing is said.
pub fn replace_and_say<H: Host>(
    alloc: Global,
    host: &mut H,
    path: &str,
    bytes: &[u8],
    reply: &[u8],
) -> Result<(), Fault>
    requires inside { is_top path.now ≡ false }
    requires room { Now (H.history host.old) (λ w. is_directory (seen w.disk) (parent path.now) ≡ true) }
    requires target { Now (H.history host.old) (λ w. IsTarget (seen w.disk) path.now) }
    requires durable { Now (H.history host.old) (λ w. NonePending w.disk) }

    // Where a crash finds any byte of the reply, it leaves the file with the new content.
    ensures acknowledged { Passed (λ start w. (w.streams.said ≡ start.streams.said) ⊎ HasOnly path.now bytes.now w.disk) (H.history host.old) (H.history host.new) }
    // After Ok the reply was said, and the file has the new content; a failure has its cause.
    ensures said { OnOk result (Arrived (λ start end. end.streams.said ≡ start.streams.said ++ reply.now) (H.history host.old) (H.history host.new)) }
    ensures replaced { OnOk result (Now (H.history host.new) (λ w. HasOnly path.now bytes.now w.disk)) }
    ensures failed { IsErrOf result Fault.Failed → Rose (H.faults host.old).file (H.faults host.new).file ⊎ Rose (H.faults host.old).say (H.faults host.new).say }
    ensures memory { IsErrOf result Fault.Memory → H.history host.new ≡ H.history host.old }
    // The paths that were alike in all images are so again.
    ensures alike { (at : List ℕ → Bool) → Now (H.history host.old) (λ w. IsAlike (λ q. at q ≡ true) w.disk) → OnOk result (Now (H.history host.new) (λ w. IsAlike (λ q. at q ≡ true) w.disk)) }
{
    replace(alloc, host, path, bytes)?;
    match host.say(reply) {
        Ok(()) => Ok(()),
        Err(_) => Err(Fault::Failed),
    }
}
